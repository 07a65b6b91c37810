// The trace file, followed on a proof.
ghost use Rattle.std.specs.Prelude.{◌≡◌, false, IfOk};
ghost use Rattle.theories.specs.Meaning.{on_bytes};
ghost use Rattle.law.specs.Jobs.{size};
ghost use Rattle.law.specs.Law.{Law};
ghost use Rattle.derivation.specs.JobView.{job_of};
ghost use Rattle.derivation.specs.ProofView.{job_held, moment_held};
ghost use Rattle.derivation.specs.VerdictView.{verdict_of};
ghost use Rattle.files.specs.Shown.{Shown};
ghost use Rattle.files.specs.TraceFiles.{following, record_done, trace_file, trace_verdict};
ghost use Rattle.files.specs.TraceViews.{moment_left, record_seen, verdict_said};

use crate::cursor::Cursor;
use crate::fault::{File, FileFault};
use derivation::job::Job;
use derivation::proof::Proof;
use derivation::verdict::Verdict;
use spelling::step_reader::read_step;
use terms::fault::Fault;
use theories::theory::Theory;

// n comes beside the proof, which does not tell it. Here and below job and theory have clauses of their own: `Does` tells of
// one call, and these may be none or many.
// Does the step of one record on a proof of n variables; whether it is the end, and the bytes after it, which the end has too.
fn do_record<'a, T: Theory>(
    proof: &mut Proof<T>,
    n: usize,
    bytes: &'a [u8],
) -> Result<(bool, &'a [u8]), Fault>
    requires { n ≡ size (job_held proof.old) }
    ensures step { record_seen (moment_held proof.new) result ≡ record_done (job_held proof.old) (on_bytes T.Theory.reads (T.Theory.means proof.old.theory)) T.Theory.width (following false (moment_held proof.old)) bytes.now }
    ensures job { job_held proof.new ≡ job_held proof.old }
    ensures theory { proof.new.theory ≡ proof.old.theory }
{
    let (step, rest) = read_step(n, T::clue_length(), bytes)?;
    // The end has no step to do, and a step may be refused.
    match step {
        None => Ok((true, rest)),
        Some(step) => {
            proof.perform(step)?;
            Ok((false, rest))
        }
    }
}

// Does the steps of a trace on a proof of n variables, to the trace's end.
fn follow<T: Theory>(proof: &mut Proof<T>, n: usize, trace: &[u8]) -> Result<(), FileFault>
    requires { n ≡ size (job_held proof.old) }
    ensures moment { moment_left (moment_held proof.new) result ≡ trace_file (job_held proof.old) (on_bytes T.Theory.reads (T.Theory.means proof.old.theory)) T.Theory.width (moment_held proof.old) trace.now }
    ensures job { job_held proof.new ≡ job_held proof.old }
    ensures theory { proof.new.theory ≡ proof.old.theory }
{
    let mut records = Cursor::open(File::Trace, trace)?;
    let mut ended = false;
    while !ended {
        let (end, rest) = records.place(do_record(proof, n, records.bytes))?;
        records.pass(rest);
        ended = end;
    }
    records.end()
}

// What a trace shows of a job with this theory, or the trace's first fault with its place.
pub fn check_trace<T: Theory + Drop>(
    job: Job,
    theory: T,
    trace: &[u8],
) -> Result<Verdict, FileFault>
    ensures answer { verdict_said result ≡ trace_verdict (job_of job) (on_bytes T.Theory.reads (T.Theory.means theory)) T.Theory.width trace.now }
    ensures shown { IfOk result (λ v. Shown (job_of job) (on_bytes T.Theory.reads (T.Theory.means theory)) (verdict_of v)) }
    ensures law { Law (job_of job) (on_bytes T.Theory.reads (T.Theory.means theory)) }
{
    let n = job.size();
    let mut proof = job.open(theory);
    follow(&mut proof, n, trace)?;
    Ok(proof.close())
}
