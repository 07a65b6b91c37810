// Shared results: up to 16 calls; one function with equal arguments has one result.
ghost use Rattle.std.specs.Prelude.{◌≡◌, pos, refl};
ghost use Rattle.theories.specs.Meaning.{difference};
ghost use Rattle.theories.specs.SharedResults.{agree, call_kind};
ghost use Rattle.theories.specs.Laws.{calls_rightful};

use crate::pairs::{Part, RuledPart};
use crate::pairwise::Pairwise;
use crate::parts::{Call, Pair};
use arrayvec::ArrayVec;
use terms::checks::need;
use terms::difference::Difference;
use terms::fault::{Cause, Fault};
use terms::meeting::value_at;

pub type SharedResults = Pairwise<Call>;

// The value at the first place is at most the value at the second.
fn at_most(first: u8, second: u8) -> Difference
    ensures { result ≡ difference first second (pos 0) }
{
    Difference {
        first,
        second,
        most: 0,
    }
}

impl Part for Call {
    ghost suited = { agree };

    fn suits(&self, other: &Call, plan: &[i32]) -> bool {
        self.function != other.function
            || value_at(plan, self.first) != value_at(plan, other.first)
            || value_at(plan, self.second) != value_at(plan, other.second)
            || value_at(plan, self.result) == value_at(plan, other.result)
    }
}

impl RuledPart for Call {
    ghost kind = { call_kind };

    ghost alike = { refl };

    ghost rightful = { calls_rightful };

    // The places are 0 to 15, or 16 for a second argument that is absent.
    fn check(&self) -> Result<(), Fault> {
        need(self.first <= 15, Cause::OutOfRange, 1)?;
        need(self.second <= 16, Cause::OutOfRange, 2)?;
        need(self.result <= 15, Cause::OutOfRange, 3)
    }

    fn has_rule(&self, other: &Call, _clue: &Pair) -> bool {
        self.function == other.function
    }

    // The arguments are equal.
    fn premises(&self, other: &Call) -> ArrayVec<Difference, 4> {
        ArrayVec::from([
            at_most(self.first, other.first),
            at_most(other.first, self.first),
            at_most(self.second, other.second),
            at_most(other.second, self.second),
        ])
    }

    fn conclusion(&self, other: &Call) -> Difference {
        at_most(self.result, other.result)
    }
}

impl SharedResults {
    // The calls so far.
    pub fn calls(&self) -> &[Call]
        ensures { result.now ≡ self.now.parts.items }
    {
        self.parts()
    }
}
