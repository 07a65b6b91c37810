// Opening a job, looking at a proof, and closing it.
ghost use Rattle.std.specs.Prelude.{◌≡◌, ◌≤◌, true, [], map, length, take};
ghost use Rattle.terms.specs.Stored.{row_of};
ghost use Rattle.theories.specs.Meaning.{on_bytes};
ghost use Rattle.law.specs.Law.{Law, Sized};
ghost use Rattle.law.specs.Pile.{opened, verdict};
ghost use Rattle.law.specs.NumbersView.{values_in, values_of};
ghost use Rattle.derivation.specs.JobView.{job_of};
ghost use Rattle.derivation.specs.ProofView.{job_held, moment_held};
ghost use Rattle.derivation.specs.StateView.{job_in, moment_of, plan_of};
ghost use Rattle.derivation.specs.TableView.{fixed_of, held_of};
ghost use Rattle.derivation.specs.VerdictView.{looked_at, verdict_of};

use crate::job::Job;
use crate::proof::Proof;
use crate::row_stack::RowStack;
use crate::state::State;
use crate::table::Table;
use crate::verdict::Verdict;
use arrayvec::ArrayVec;
use law::numbers::Numbers;
use terms::row::{Coefficients, Row};
use theories::theory::Theory;

impl State {
    // The number of rows and of open subproblems.
    fn look(&self) -> (usize, usize)
        ensures { result ≡ looked_at (job_in self.now) (moment_of self.now).pile }
    {
        match &self.table.waiting {
            Some(waiting) => (self.table.len(), waiting.len() + 1),
            None => (self.table.given, 0),
        }
    }

    // The values of the job's variables in a plan, whose number `From` has no place for.
    fn as_plan(&self, plan: &Coefficients) -> Numbers
        ensures { values_of result ≡ take self.now.table.size plan.now.items }
    {
        Numbers::from(&plan.items[..self.table.size])
    }

    // The plan taken, if one is.
    fn plan(&self) -> Option<Numbers>
        ensures { values_in result ≡ plan_of self.now.table.size self.now.taken }
    {
        self.taken.map(|plan| self.as_plan(&plan))
    }

    // What closing says.
    fn verdict(&self) -> Verdict
        ensures { verdict_of result ≡ verdict (job_in self.now) (moment_of self.now) }
    {
        if self.table.waiting.is_some() {
            return Verdict::Unfinished(self.plan());
        }
        match self.taken {
            None => Verdict::NoModel,
            Some(plan) => {
                let cost = self.cost(&plan);
                Verdict::Least(self.as_plan(&plan), cost)
            }
        }
    }
}

impl Job {
    // The job is used up, and its one subproblem, its rows, is open. What then holds of any calls is the law.
    pub fn open<T: Theory>(self, theory: T) -> Proof<T>
        ensures job { job_held result ≡ job_of self }
        ensures moment { moment_held result ≡ opened (job_of self) }
        ensures theory { result.theory ≡ theory }
        ensures law { Law (job_of self) (on_bytes T.Theory.reads (T.Theory.means theory)) }
        ensures sized { Sized (job_of self) }
    {
        let Job { costs, size, rows } = self;
        Proof {
            state: State {
                table: begin(size, &rows),
                costs,
                taken: None,
            },
            theory,
        }
    }
}

// The table of a proof that is opened with these rows.
fn begin(size: usize, given: &[Row]) -> Table
    requires narrow { size ≤ 16 }
    requires few { length given.now ≤ 512 }
    ensures held { held_of result ≡ record { rows = map (row_of size) given.now; heights = []; mark = true } }
    ensures fixed { fixed_of result ≡ record { size = size; given = map (row_of size) given.now } }
{
    Table {
        size,
        given: given.len(),
        rows: RowStack::new(given),
        waiting: Some(ArrayVec::new()),
    }
}

impl<T: Theory + Drop> Proof<T> {
    // The number of rows of the current subproblem, or of the job where nothing is open, and the number of open subproblems.
    pub fn look(&self) -> (usize, usize)
        ensures { result ≡ looked_at (job_held self.now) (moment_held self.now).pile }
    {
        self.state.look()
    }

    // The proof is used up, and the verdict says what it shows.
    pub fn close(self) -> Verdict
        ensures { verdict_of result ≡ verdict (job_held self) (moment_held self) }
    {
        self.state.verdict()
    }
}
