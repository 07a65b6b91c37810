// The steps that split a subproblem and shut it by a contradiction: branch and drop.
ghost use Rattle.std.specs.Prelude.{◌≡◌, ℕ, List, Some, MatchResult};
ghost use Rattle.terms.specs.Faults.{answered, first_fault};
ghost use Rattle.theories.specs.Meaning.{Meaning};
ghost use Rattle.law.specs.Bounds.{all_zero};
ghost use Rattle.law.specs.Calls.Call.{branch, drop};
ghost use Rattle.law.specs.Steps.{branch_checks, contradiction, drop_checks};
ghost use Rattle.derivation.specs.Joining.{Branches};
ghost use Rattle.derivation.specs.StateView.{Works};
ghost use Rattle.derivation.specs.TableView.{held_of};
ghost use Rattle.terms.specs.Stored.{row_of, whole};

use crate::state::State;
use crate::table::Table;
use terms::checks::need;
use terms::fault::{Cause, Fault};
use terms::row::Row;

impl State {
    // The current subproblem is split: the row joins it, and its opposite waits.
    pub(crate) fn branch(&mut self, coefficients: &[i32], right: i64) -> Result<(), Fault>
        ensures { (th : Meaning (List ℕ)) → Works th self.old (branch (record { coefficients = coefficients.entry.now; right = right })) self.new result }
    {
        self.table.check_open()?;
        let row = self.table.check_branch(coefficients, right)?;
        self.table.branch(row);
        Ok(())
    }

    // A contradiction at a place shuts the current subproblem.
    pub(crate) fn drop_at(&mut self, place: usize) -> Result<(), Fault>
        ensures { (th : Meaning (List ℕ)) → Works th self.old (drop place) self.new result }
    {
        self.table.check_open()?;
        self.table.check_drop(place)?;
        self.table.shut();
        Ok(())
    }
}

impl Table {
    // The row of a branch, where none of its checks applies.
    fn check_branch(&self, coefficients: &[i32], right: i64) -> Result<Row, Fault>
        ensures { MatchResult result (λ row. Branches self.now.size (held_of self.now).rows coefficients.entry.now right (whole row)) (λ f. first_fault (branch_checks self.now.size (held_of self.now).rows (record { coefficients = coefficients.entry.now; right = right })) ≡ Some f) }
    {
        need(coefficients.len() == self.size, Cause::WrongLength, 0)?;
        let row = Row::new(coefficients, right)?;
        need(
            right < 20_000_000_000_000,
            Cause::OutOfRange,
            coefficients.len(),
        )?;
        need(self.len() < 512, Cause::Full, 0)?;
        Ok(row)
    }

    // The checks of a drop, in an open table.
    fn check_drop(&self, place: usize) -> Result<(), Fault>
        ensures { result ≡ answered (first_fault (drop_checks (held_of self.now).rows place)) }
    {
        let row = self.rows.as_slice().get(place).ok_or(Cause::NoSuchPlace)?;
        need(is_contradiction(self.size, row), Cause::NotContradiction, 0)
    }
}

// n is the table's, as in bounding.
// Whether a row has no coefficient and a right side below 0.
fn is_contradiction(n: usize, row: &Row) -> bool
    ensures { result ≡ contradiction (row_of n row.now) }
{
    is_blank(n, row) && row.right < 0
}

// Whether the first n coefficients are 0.
fn is_blank(n: usize, row: &Row) -> bool
    ensures { result ≡ all_zero (row_of n row.now).coefficients }
{
    row.coefficients
        .items
        .iter()
        .take(n)
        .all(|number| *number == 0)
}
