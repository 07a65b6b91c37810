// Costs, and the row that asks for a cheaper plan.
ghost use Rattle.std.specs.Prelude.{◌≡◌, ℕ, ◌≤◌, List, take, unsigned_abs};
ghost use Rattle.theories.specs.Meaning.{Meaning};
ghost use Rattle.law.specs.Calls.Call.{cutoff};
ghost use Rattle.law.specs.Jobs.{cost};
ghost use Rattle.derivation.specs.StateView.{Works, job_in};

use crate::state::State;
use terms::checks::need;
use terms::fault::{Cause, Fault};
use terms::row::{Coefficients, Row};

impl State {
    // The cost of a plan.
    pub(crate) fn cost(&self, plan: &Coefficients) -> i64
        ensures value { result ≡ cost (job_in self.now) (take self.now.table.size plan.now.items) }
        ensures bound { unsigned_abs result ≤ 16000000000000 }
    {
        self.costs.dot(&plan.items[..self.table.size])
    }

    // The row joins that asks for less than the plan taken costs.
    pub(crate) fn cutoff(&mut self) -> Result<(), Fault>
        ensures { (th : Meaning (List ℕ)) → Works th self.old cutoff self.new result }
    {
        self.table.check_open()?;
        let plan = self.taken.ok_or(Cause::NoPlanTaken)?;
        need(self.table.len() < 512, Cause::Full, 0)?;
        let right = self.cost(&plan) - 1;
        self.table.push(Row {
            coefficients: self.costs,
            right,
        });
        Ok(())
    }
}
