// The check of two files.
ghost use Rattle.std.specs.Prelude.{◌≡◌, IfOk};
ghost use Rattle.derivation.specs.VerdictView.{verdict_of};
ghost use Rattle.files.specs.JobFiles.{job_file};
ghost use Rattle.files.specs.TraceViews.{verdict_said};
ghost use Rattle.files.specs.TwoFiles.{LawOf, TrueOf, checked};

use crate::fault::FileFault;
use crate::job_file::read_job;
use crate::reader::JobFile;
use crate::theory::FileTheory;
use crate::trace_file::check_trace;
use derivation::verdict::Verdict;
use theories::bare::Bare;

// What the trace shows of the job, which is so; or the first fault with its place. The law holds of the job in the file.
pub fn check(job: &[u8], trace: &[u8]) -> Result<Verdict, FileFault>
    ensures answer { verdict_said result ≡ checked job.now trace.now }
    ensures shown { IfOk result (λ v. TrueOf (job_file job.now) (verdict_of v)) }
    ensures law { LawOf (job_file job.now) }
{
    let JobFile { job, theory } = read_job(job)?;
    // Each case calls at a type of its own, which no closure can take.
    match theory {
        FileTheory::Bare => check_trace(job, Bare, trace),
        FileTheory::Shared(calls) => check_trace(job, calls, trace),
        FileTheory::OneVat(batches) => check_trace(job, batches, trace),
    }
}
