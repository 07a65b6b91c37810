// The rows of a table, in memory that is fixed.
ghost use Rattle.std.specs.Prelude.{◌≡◌, ◌<◌, ◌≤◌, [], ◌∷◌, ◌++◌, length, take};
ghost use Rattle.arrayvec.specs.ArrayVec.{array_vec_len};

use std::marker::Model;
use terms::row::Row;

// Up to 512 rows: the first `count`. It is seen as the kit's `ArrayVec`, which writes a blank over each row that it lets go, where
// this lets go of any number of them in one step, as a subproblem that is shut does.
#[derive(Drop)]
pub struct RowStack {
    slots: [Row; 512],
    count: usize,
}

impl Model for RowStack {
    ghost use Rattle.std.specs.Prelude.{◌≡◌, ◌≤◌, length, take};
    ghost use Rattle.arrayvec.specs.ArrayVec.{ArrayVec as Items};
    ghost use Rattle.terms.specs.declared.row.Row.{Row};

    ghost Value = { Items Row };

    ghost view = { λ s. record { items = take s.count s.slots } };

    ghost invariant = { λ s. (s.count ≤ 512) × (length s.slots ≡ 512) };
}

impl RowStack {
    // These rows.
    pub(crate) fn new(given: &[Row]) -> RowStack
        requires { length given.now ≤ 512 }
        ensures { result.items ≡ given.now }
    {
        let mut slots = [Row::zeros(); 512];
        slots[..given.len()].copy_from_slice(given);
        RowStack {
            slots,
            count: given.len(),
        }
    }

    pub(crate) fn len(&self) -> usize
        ensures value { result ≡ array_vec_len self.now }
        ensures fits { result ≤ 512 }
    {
        self.count
    }

    pub(crate) fn as_slice(&self) -> &[Row]
        ensures value { result.now ≡ self.now.items }
        ensures fits { length result.now ≤ 512 }
    {
        &self.slots[..self.count]
    }

    pub(crate) fn push(&mut self, row: Row)
        requires { array_vec_len self.old < 512 }
        ensures items { self.new.items ≡ self.old.items ++ row ∷ [] }
    {
        self.slots[self.count] = row;
        self.count += 1;
    }

    // The first so many rows are left.
    pub(crate) fn truncate(&mut self, count: usize)
        ensures items { self.new.items ≡ take count self.old.items }
    {
        self.count = self.count.min(count);
    }
}
