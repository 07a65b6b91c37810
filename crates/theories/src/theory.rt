// What a theory is: its meaning, the law that it owes, and the questions that it answers.
ghost use Rattle.std.specs.Prelude.{◌≡◌, ℕ, true, List, length, is_some, Option};
ghost use Rattle.theories.specs.Meaning.{Lawful, Meaning, clued, concluded, counted, no_rule, on_bytes, premise_at};
ghost use Rattle.theories.specs.Clues.{two_bytes};

use crate::parts::Pair;
use terms::difference::Difference;
use terms::fault::{Cause, Fault};

pub trait Theory {
    // What a rule is asked for by, read from bytes.
    type Clue: Drop;

    // The plans admitted, and the rule of each clue.
    ghost means: { Self → Meaning Self.Clue };

    // How many bytes a clue has.
    ghost width: { ℕ };

    // The clue that bytes spell.
    ghost reads: { List ℕ → Option Self.Clue };

    fn clue_length() -> usize
        ensures { result ≡ width };

    fn clue(bytes: &[u8]) -> Result<Self::Clue, Fault>
        ensures { result ≡ clued (reads bytes.now) };

    // Whether the plan is admitted.
    fn admitted(&self, plan: &[i32]) -> bool
        ensures { result ≡ (means self.now).admits plan.now };

    // The number of premises of the clue's rule.
    fn premises(&self, clue: &Self::Clue) -> Result<usize, Fault>
        ensures { result ≡ counted ((means self.now).rule clue.now) };

    fn premise(&self, clue: &Self::Clue, index: usize) -> Result<Difference, Fault>
        ensures { result ≡ premise_at ((means self.now).rule clue.now) index };

    fn conclusion(&self, clue: &Self::Clue) -> Result<Difference, Fault>
        ensures { result ≡ concluded ((means self.now).rule clue.now) };

    ghost lawful: { (t : Self) → Lawful (means t) };

    ghost sized: { (bytes : List ℕ) → is_some (reads bytes) ≡ true → length bytes ≡ width };
}

// That the law holds of every theory's clues as they stand in files.
pub fn law_on_bytes<T: Theory>(theory: &T)
    ensures { Lawful (on_bytes T.Theory.reads (T.Theory.means theory.now)) }
{}

// The refusal where there is no rule, or no such premise.
pub fn no_rule() -> Fault
    ensures { result ≡ no_rule }
{
    Cause::NoRule.into()
}

// A clue of two bytes: a slice pattern says it more plainly than a conversion of a slice to an array and of that to a clue.
pub fn two_bytes(bytes: &[u8]) -> Result<Pair, Fault>
    ensures { result ≡ clued (two_bytes bytes.now) }
{
    match bytes {
        [one, other] => Ok(Pair::from([*one, *other])),
        _ => Err(no_rule()),
    }
}
