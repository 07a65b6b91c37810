// What a plan makes of a table's rows, and of the plan taken.
ghost use Rattle.std.specs.Prelude.{◌≡◌, ◌≤◌, map, length, take, Some, MatchResult};
ghost use Rattle.terms.specs.declared.fault.Cause.TheVariants.{RowMissed};
ghost use Rattle.terms.specs.Faults.{answered, first_fault, first_unless};
ghost use Rattle.terms.specs.Rows.{meets};
ghost use Rattle.law.specs.Steps.{cheaper};
ghost use Rattle.derivation.specs.Planned.{Planned, plan_checks};
ghost use Rattle.derivation.specs.StateView.{job_in, plan_of};
ghost use Rattle.derivation.specs.TableView.{fixed_of};

use crate::state::State;
use crate::table::Table;
use terms::checks::{need, need_none};
use terms::fault::{Cause, Fault};
use terms::row::Coefficients;

impl Table {
    // Refuses at the first of the job's rows that the plan misses.
    fn check_met(&self, plan: &[i32]) -> Result<(), Fault>
        requires { length plan.now ≤ self.now.size }
        ensures { result ≡ answered (first_unless RowMissed 0 (map (meets plan.now) (fixed_of self.now).given)) }
    {
        let given = &self.rows.as_slice()[..self.given];
        need_none(
            given.iter().position(|row| !row.is_met(plan)),
            Cause::RowMissed,
        )
    }
}

impl State {
    // Whether a plan is cheaper than the plan taken, if one is.
    pub(crate) fn is_cheaper(&self, plan: &Coefficients) -> bool
        ensures { result ≡ cheaper (job_in self.now) (plan_of self.now.table.size self.now.taken) (take self.now.table.size plan.now.items) }
    {
        self.taken
            .is_none_or(|best| self.cost(plan) < self.cost(&best))
    }

    // A plan of the job's variables, within the limits, that meets the job's rows. Inlined, or the loop over a row is not unrolled.
    #[inline]
    pub(crate) fn check_plan(&self, values: &[i32]) -> Result<Coefficients, Fault>
        ensures { MatchResult result (λ plan. Planned (job_in self.now) values.now plan.items) (λ f. first_fault (plan_checks (job_in self.now) values.now) ≡ Some f) }
    {
        need(values.len() == self.table.size, Cause::WrongLength, 0)?;
        let plan = Coefficients::new(values)?;
        self.table.check_met(values)?;
        Ok(plan)
    }
}
