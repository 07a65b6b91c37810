// One vat: up to 16 batches, of which no two overlap.
ghost use Rattle.std.specs.Prelude.{◌≡◌, refl};
ghost use Rattle.theories.specs.OneVat.{apart, batch_kind, before};
ghost use Rattle.theories.specs.Laws.{batches_rightful};

use crate::pairs::{Part, RuledPart};
use crate::pairwise::Pairwise;
use crate::parts::{Batch, Pair};
use arrayvec::ArrayVec;
use terms::checks::need;
use terms::difference::Difference;
use terms::fault::{Cause, Fault};
use terms::meeting::value_at;

pub type OneVat = Pairwise<Batch>;

impl Batch {
    // Whether this batch ends no later than the other starts.
    fn is_before(&self, other: &Batch, plan: &[i32]) -> bool
        ensures { result ≡ before plan.now self.now other.now }
    {
        value_at(plan, self.start) as i64 + self.duration as i64
            <= value_at(plan, other.start) as i64
    }
}

impl Part for Batch {
    ghost suited = { apart };

    fn suits(&self, other: &Batch, plan: &[i32]) -> bool {
        self.is_before(other, plan) || other.is_before(self, plan)
    }
}

impl RuledPart for Batch {
    ghost kind = { batch_kind };

    ghost alike = { refl };

    ghost rightful = { batches_rightful };

    // The start's place is 0 to 15, and the batch takes 1 to 1,000,000.
    fn check(&self) -> Result<(), Fault> {
        need(self.start <= 15, Cause::OutOfRange, 0)?;
        let is_duration = 1 <= self.duration && self.duration <= 1_000_000;
        need(is_duration, Cause::OutOfRange, 1)
    }

    fn has_rule(&self, _other: &Batch, clue: &Pair) -> bool {
        clue.one != clue.other
    }

    // The other batch starts before this one ends.
    fn premises(&self, other: &Batch) -> ArrayVec<Difference, 4> {
        let mut premises = ArrayVec::new();
        premises.push(Difference {
            first: other.start,
            second: self.start,
            most: self.duration as i64 - 1,
        });
        premises
    }

    // The other batch ends no later than this one starts.
    fn conclusion(&self, other: &Batch) -> Difference {
        Difference {
            first: other.start,
            second: self.start,
            most: -(other.duration as i64),
        }
    }
}

impl OneVat {
    // The batches so far.
    pub fn batches(&self) -> &[Batch]
        ensures { result.now ≡ self.now.parts.items }
    {
        self.parts()
    }
}
