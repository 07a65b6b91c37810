// Parts that are told two by two, and plans that suit every two of them.
ghost use Rattle.std.specs.Prelude.{◌≡◌, Bool, map};
ghost use Rattle.terms.specs.Faults.{answered, first_fault};
ghost use Rattle.terms.specs.Rows.{Plan};
ghost use Rattle.theories.specs.Pairs.{every, every_pair};
ghost use Rattle.theories.specs.Pairwise.{EachRightful, Kind};

use crate::parts::Pair;
use arrayvec::ArrayVec;
use terms::difference::Difference;
use terms::fault::Fault;

// A part, which a plan suits or not together with another part.
pub trait Part {
    ghost suited: { Plan → Self → Self → Bool };

    fn suits(&self, other: &Self, plan: &[i32]) -> bool
        ensures { result ≡ suited plan.now self.now other.now };
}

// A part that may have a rule with another.
pub trait RuledPart: Part + Copy + Default {
    // What parts of this kind bring: the answers below are told by it.
    ghost kind: { Kind Self };

    // The checks of this part alone.
    fn check(&self) -> Result<(), Fault>
        ensures { result ≡ answered (first_fault (kind.limits self.now)) };

    // Whether the clue that names this part and another has a rule.
    fn has_rule(&self, other: &Self, clue: &Pair) -> bool
        ensures { result ≡ kind.ruled clue.now self.now other.now };

    // The premises of the rule of two parts.
    fn premises(&self, other: &Self) -> ArrayVec<Difference, 4>
        ensures { result.items ≡ (kind.between self.now other.now).premises };

    fn conclusion(&self, other: &Self) -> Difference
        ensures { result ≡ (kind.between self.now other.now).conclusion };

    // A plan suits two parts of the kind where the part says so.
    ghost alike: { kind.suited ≡ Self.suited };

    // The rule of two parts that passed their checks is rightful.
    ghost rightful: { EachRightful kind };
}

// Whether the plan suits the part together with each of the others.
pub fn suits_each<P: Part>(part: &P, others: &[P], plan: &[i32]) -> bool
    ensures { result ≡ every (map (P.Part.suited plan.now part.now) others.now) }
{
    others.iter().all(|other| part.suits(other, plan))
}

// Whether the plan suits every two of the parts.
pub fn suits_every_two<P: Part>(parts: &[P], plan: &[i32]) -> bool
    ensures { result ≡ every_pair (P.Part.suited plan.now) parts.now }
{
    let mut rest = parts;
    while let [part, others @ ..] = rest {
        if !suits_each(part, others, plan) {
            return false;
        }
        rest = others;
    }
    true
}
