// Steps run one after another.
ghost use Rattle.std.specs.Prelude.{◌≡◌, map};
ghost use Rattle.theories.specs.Meaning.{on_bytes};
ghost use Rattle.law.specs.Law.{Closes, Kept, Law, Reached, Sized};
ghost use Rattle.law.specs.Pile.{after, verdict};
ghost use Rattle.law.specs.StepView.{call_of};
ghost use Rattle.derivation.specs.JobView.{job_of};
ghost use Rattle.derivation.specs.ProofView.{Does, job_held, meaning_held, moment_held};

use crate::job::Job;
use crate::proof::Proof;
use law::step::Step;
use terms::fault::Fault;
use theories::theory::Theory;

impl<T: Theory> Proof<T> {
    // Does a step.
    pub fn perform(&mut self, step: Step<'_>) -> Result<(), Fault>
        ensures { Does T.Theory.reads T.Theory.means self.old (call_of step.entry) self.new result }
    {
        // A match says which call: the kinds of step are closed, and each brings something else.
        match step {
            Step::Branch(coefficients, right) => self.branch(coefficients.values(), right),
            Step::Cut(line) => self.cut(&line),
            Step::Chain(lines) => self.chain(lines),
            Step::Infer(clue, places) => self.infer(clue, &places),
            Step::Cutoff => self.cutoff(),
            Step::Take(values) => self.take(values.values()),
            Step::Drop(place) => self.drop(place),
            Step::Pin(places) => self.pin(places),
        }
    }

    // Does steps one after another, and passes over those that are refused. `Does` tells of one call, and these are many.
    pub fn perform_all(&mut self, steps: &[Step<'_>])
        ensures moment { moment_held self.new ≡ after (job_held self.old) (meaning_held T.Theory.reads T.Theory.means self.old) (moment_held self.old) (map call_of steps.now) }
        ensures job { job_held self.new ≡ job_held self.old }
        ensures theory { self.new.theory ≡ self.old.theory }
    {
        for step in steps {
            let _ = self.perform(*step);
        }
    }
}

// Opens a job, and does steps, passing over those that are refused. No model is lost, and what closing will say is so.
pub fn run<T: Theory>(job: Job, theory: T, steps: &[Step<'_>]) -> Proof<T>
    ensures job { job_held result ≡ job_of job }
    ensures theory { result.theory ≡ theory }
    ensures law { Law (job_of job) (on_bytes T.Theory.reads (T.Theory.means theory)) }
    ensures sized { Sized (job_of job) }
    ensures reached { Reached (job_of job) (on_bytes T.Theory.reads (T.Theory.means theory)) (map call_of steps.now) (moment_held result) }
    ensures kept { Kept (job_of job) (on_bytes T.Theory.reads (T.Theory.means theory)) (moment_held result) }
    ensures closes { Closes (job_of job) (on_bytes T.Theory.reads (T.Theory.means theory)) (moment_held result) (verdict (job_of job) (moment_held result)) }
{
    let mut proof = job.open(theory);
    proof.perform_all(steps);
    proof
}
