// How rows join a table, and how its current subproblem is shut.
ghost use Rattle.std.specs.Prelude.{◌≡◌, ◌<◌, true, [], ◌∷◌, ◌++◌, length, pos, ◌<ℤ◌};
ghost use Rattle.terms.specs.declared.fault.Cause.TheVariants.{NothingOpen};
ghost use Rattle.terms.specs.Bytes.{nat16};
ghost use Rattle.terms.specs.Faults.{answered, unless};
ghost use Rattle.terms.specs.Limits.{right_limit};
ghost use Rattle.terms.specs.Stored.{row_of};
ghost use Rattle.law.specs.Lines.{row_at};
ghost use Rattle.derivation.specs.TableView.{fixed_of, held_of, shut_by};

use crate::table::Table;
use terms::checks::need;
use terms::fault::{Cause, Fault};
use terms::row::Row;

// The place that two bytes spell.
pub(crate) fn place_of(item: &[u8; 2]) -> usize
    ensures { result ≡ nat16 item.now }
{
    usize::from(u16::from_le_bytes(*item))
}

impl Table {
    // The number of rows.
    pub(crate) fn len(&self) -> usize
        ensures { result ≡ length (held_of self.now).rows }
    {
        self.rows.len()
    }

    // Refuses where no subproblem is open.
    pub(crate) fn check_open(&self) -> Result<(), Fault>
        ensures { result ≡ answered (unless (held_of self.now).mark NothingOpen 0) }
    {
        need(self.waiting.is_some(), Cause::NothingOpen, 0)
    }

    // The row at a place of the table.
    pub(crate) fn row(&self, place: usize) -> Row
        requires { place < length (held_of self.now).rows }
        ensures { row_of self.now.size result ≡ row_at (held_of self.now).rows place }
    {
        self.rows.as_slice()[place]
    }

    // A row joins the table.
    pub(crate) fn push(&mut self, row: Row)
        requires { length (held_of self.old).rows < 512 }
        ensures held { held_of self.new ≡ record { rows = (held_of self.old).rows ++ row_of self.old.size row ∷ []; heights = (held_of self.old).heights; mark = (held_of self.old).mark } }
        ensures fixed { fixed_of self.new ≡ fixed_of self.old }
    {
        self.rows.push(row);
    }

    // The table's length joins the waiting heights, then the row joins the table.
    pub(crate) fn branch(&mut self, row: Row)
        requires marked { (held_of self.old).mark ≡ true }
        requires room { length (held_of self.old).rows < 512 }
        requires limited { row.right <ℤ pos right_limit }
        ensures held { held_of self.new ≡ record { rows = (held_of self.old).rows ++ row_of self.old.size row ∷ []; heights = length (held_of self.old).rows ∷ (held_of self.old).heights; mark = true } }
        ensures fixed { fixed_of self.new ≡ fixed_of self.old }
    {
        let height = self.rows.len();
        let Some(waiting) = &mut self.waiting else {
            unreachable()
        };
        waiting.push(height);
        self.rows.push(row);
    }

    // The current subproblem is shut: the newest that waits becomes the table, or nothing is open any more.
    pub(crate) fn shut(&mut self)
        requires { (held_of self.old).mark ≡ true }
        ensures held { held_of self.new ≡ shut_by (fixed_of self.old).given (held_of self.old).rows (held_of self.old).heights }
        ensures fixed { fixed_of self.new ≡ fixed_of self.old }
    {
        let Some(waiting) = &mut self.waiting else {
            unreachable()
        };
        let Some(height) = waiting.pop() else {
            self.waiting = None;
            self.rows.truncate(self.given);
            return;
        };
        let Some(opposite) = self.rows.as_slice()[height].opposite() else {
            unreachable()
        };
        self.rows.truncate(height);
        self.rows.push(opposite);
    }
}
