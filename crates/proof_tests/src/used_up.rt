// Opening uses a job up, and closing a proof. The edits of must-not-compile/ use each once more.
use derivation::job::Job;
use derivation::verdict::Verdict;
use terms::fault::Fault;
use theories::bare::Bare;

// The verdict on a job of one row that no plan meets.
fn open_and_close() -> Result<Verdict, Fault> {
    let mut job = Job::new();
    job.row(&[], 'L', -1)?;
    let mut proof = job.open(Bare);
    proof.drop(0)?;
    let verdict = proof.close();
    Ok(verdict)
}
