// How a job is filled: variables and rows, in place.
ghost use Rattle.std.specs.Prelude.{◌≡◌, ◌+◌, ◌<◌, ◌≤◌, true, [], ◌∷◌, map, length, Some, MatchResult};
ghost use Rattle.terms.specs.Faults.{answered, first_fault};
ghost use Rattle.terms.specs.Rows.{Row as SpecRow};
ghost use Rattle.terms.specs.Stored.{row_of, whole};
ghost use Rattle.law.specs.Jobs.{no_job, rewritten, row_added, row_checks, size, variable_added, variable_checks};
ghost use Rattle.derivation.specs.Blank.{blank_from};
ghost use Rattle.derivation.specs.Joining.{Joins};
ghost use Rattle.derivation.specs.JobView.{job_of, with_rows};

use crate::job::Job;
use arrayvec::ArrayVec;
use law::relation::Relation;
use terms::checks::{is_small, need};
use terms::fault::{Cause, Fault};
use terms::row::{Coefficients, Row};

// The checks of a cost that is to join n others.
fn check_variable(n: usize, cost: i32) -> Result<(), Fault>
    ensures { result ≡ answered (first_fault (variable_checks n cost)) }
{
    need(is_small(cost), Cause::OutOfRange, 0)?;
    need(n < 16, Cause::Full, 0)
}

impl Job {
    // A job with no variable and no row.
    pub fn new() -> Job
        ensures { job_of result ≡ no_job }
    {
        Job {
            costs: Coefficients::zeros(),
            size: 0,
            rows: ArrayVec::new(),
        }
    }

    // One variable more, of this cost. Earlier rows read 0 at it.
    pub fn variable(&mut self, cost: i32) -> Result<(), Fault>
        ensures { (job_of self.new, result) ≡ variable_added (job_of self.old) cost }
    {
        check_variable(self.size, cost)?;
        self.costs.items[self.size] = cost;
        self.size += 1;
        Ok(())
    }

    // A row that passes the checks of a row of the job, and its relation.
    fn checked(
        &self,
        coefficients: &[i32],
        letter: char,
        right: i64,
    ) -> Result<(Row, Relation), Fault>
        ensures { MatchResult result (λ p. Joins (job_of self.now) coefficients.now letter right (whole p.0) p.1) (λ f. first_fault (row_checks (job_of self.now) coefficients.now letter right) ≡ Some f) }
    {
        need(coefficients.len() == self.size, Cause::WrongLength, 0)?;
        let row = Row::new(coefficients, right)?;
        let relation = Relation::try_from(letter)?;
        need(self.rows.len() + rows_of(relation) <= 64, Cause::Full, 0)?;
        Ok((row, relation))
    }

    // The row joins the job as its relation says.
    fn join(&mut self, relation: Relation, row: Row)
        requires room { length self.old.rows.items + length (rewritten relation (whole row)) ≤ 64 }
        requires blank { blank_from self.old.size row.coefficients.items ≡ true }
        ensures { job_of self.new ≡ with_rows (job_of self.old) (rewritten relation (row_of self.old.size row)) }
    {
        match relation {
            Relation::AtMost => self.rows.push(row),
            Relation::AtLeast => self.rows.push(row.turned()),
            Relation::Equal => {
                self.rows.push(row);
                self.rows.push(row.turned());
            }
        }
    }

    // A row of coefficients, relation letter and right side: at least is turned, equal becomes two rows or none.
    pub fn row(&mut self, coefficients: &[i32], letter: char, right: i64) -> Result<(), Fault>
        ensures { (job_of self.new, result) ≡ row_added (job_of self.old) coefficients.now letter right }
    {
        let (row, relation) = self.checked(coefficients, letter, right)?;
        self.join(relation, row);
        Ok(())
    }
}

// How many rows a relation makes.
fn rows_of(relation: Relation) -> usize
    ensures value { (row : SpecRow) → result ≡ length (rewritten relation row) }
    ensures bound { result ≤ 2 }
{
    match relation {
        Relation::AtMost | Relation::AtLeast => 1,
        Relation::Equal => 2,
    }
}

impl Job {
    // The number of variables.
    pub fn size(&self) -> usize
        ensures value { result ≡ size (job_of self.now) }
        ensures bound { result ≤ 16 }
    {
        self.size
    }

    // The costs of the variables.
    pub fn costs(&self) -> &[i32]
        ensures { result.now ≡ (job_of self.now).costs }
    {
        &self.costs.items[..self.size]
    }

    // The rows, as they are stored.
    pub fn rows(&self) -> &[Row]
        ensures { map (row_of self.now.size) result.now ≡ (job_of self.now).rows }
    {
        self.rows.as_slice()
    }
}
