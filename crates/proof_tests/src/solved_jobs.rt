// Jobs from opening to the verdict.
use crate::outcome::{line, lines, places, refused, says_least, says_no_model, says_unfinished};
use derivation::job::Job;
use derivation::proof::Proof;
use std::process::Abort;
use std::test::Fail;
use terms::fault::Cause;
use theories::bare::Bare;
use theories::one_vat::OneVat;
use theories::parts::Batch;

// Three times row 6 and row 5, then that and row 7.
pub(crate) const TWO_VARIABLES: &[u8] =
    b"\x02\x06\0\x03\0\x05\0\x01\0\x01\0\0\0\x02\x08\0\x01\0\x07\0\x01\0\x01\0\0\0";

// Half of rows 2 and 4, then that and row 1.
const TWO_BATCHES: &[u8] =
    b"\x02\x02\0\x01\0\x04\0\x01\0\x02\0\0\0\x02\x05\0\x01\0\x01\0\x01\0\x01\0\0\0";

// 2x + 3y least, where 2x + 2y >= 5, and x and y are 0 to 2:
// row 0: -2x - 2y <= -5; 1: x <= 2; 2: y <= 2; 3: -x <= 0; 4: -y <= 0.
pub(crate) fn two_variables() -> Result<Job, Fail> {
    let mut job = Job::new();
    job.variable(2)?;
    job.variable(3)?;
    job.row(&[2, 2], 'G', 5)?;
    job.row(&[1, 0], 'L', 2)?;
    job.row(&[0, 1], 'L', 2)?;
    job.row(&[1, 0], 'G', 0)?;
    job.row(&[0, 1], 'G', 0)?;
    Ok(job)
}

// Row 5: 2x + 3y <= 6, since (2, 1) costs 7; 6: -x - y <= -3, half of row 0 rounded down; 7: x <= 1, by the branch.
fn branched(rt: &impl Abort) -> Result<Proof<Bare>, Fail> {
    let mut proof = two_variables()?.open(Bare);
    assert_eq!(rt; proof.look(), (5, 1));
    proof.take(&[2, 1])?;
    assert_eq!(rt; proof.look(), (5, 1));
    proof.cutoff()?;
    proof.cut(&line(&[0, 0, 1, 0], 2))?;
    assert_eq!(rt; proof.look(), (7, 1));
    proof.branch(&[1, 0], 1)?;
    assert_eq!(rt; proof.look(), (8, 2));
    Ok(proof)
}

// Where x <= 1: three times row 6 and row 5 are -x <= -3, and that with row 7 is 0 <= -2.
// Where -x <= -2, the new row 7: row 5 and twice row 7 are 3y <= 2, a third of which is y <= 0; so only (2, 0) is left,
// which misses row 0.
#[test]
fn the_least_of_two_variables(rt: HostRuntime) -> Result<(), Fail> {
    let mut proof = branched(&rt)?;
    proof.chain(lines(2, TWO_VARIABLES))?;
    assert_eq!(rt; proof.look(), (9, 2));
    proof.drop(8)?;
    assert_eq!(rt; proof.look(), (8, 1));
    proof.cut(&line(&[5, 0, 1, 0, 7, 0, 2, 0], 3))?;
    assert_eq!(rt; proof.look(), (9, 1));
    proof.pin(places(&[1, 0, 7, 0, 8, 0, 4, 0]))?;
    assert_eq!(rt; proof.look(), (5, 0));
    says_least(&rt, proof.close(), &[2, 1], 7)
}

#[test]
fn left_open(rt: HostRuntime) -> Result<(), Fail> {
    let fresh = two_variables()?.open(Bare);
    says_unfinished(&rt, fresh.close(), None)?;
    let proof = branched(&rt)?;
    says_unfinished(&rt, proof.close(), Some(&[2, 1]))
}

// 2x = 1: halves rounded down are x <= 0 and -x <= -1.
#[test]
fn no_model(rt: HostRuntime) -> Result<(), Fail> {
    let mut job = Job::new();
    job.variable(1)?;
    job.row(&[2], 'E', 1)?;
    let mut proof = job.open(Bare);
    proof.cut(&line(&[0, 0, 1, 0], 2))?;
    proof.cut(&line(&[1, 0, 1, 0], 2))?;
    proof.cut(&line(&[2, 0, 1, 0, 3, 0, 1, 0], 1))?;
    assert_eq!(rt; proof.look(), (5, 1));
    proof.drop(4)?;
    assert_eq!(rt; proof.look(), (2, 0));
    says_no_model(proof.close())
}

// Two batches of lengths 3 and 2 at x and y, row 0: -x <= 0, row 1: -y <= 0, and the cost x + y.
fn two_batches() -> Result<Proof<OneVat>, Fail> {
    let mut job = Job::new();
    job.variable(1)?;
    job.variable(1)?;
    job.row(&[1, 0], 'G', 0)?;
    job.row(&[0, 1], 'G', 0)?;
    let mut vat = OneVat::new();
    vat.add(Batch {
        start: 0,
        duration: 3,
    })?;
    vat.add(Batch {
        start: 1,
        duration: 2,
    })?;
    Ok(job.open(vat))
}

// Row 2: x + y <= 1, below the cost of (2, 0). Row 3: y - x <= 2, so by the vat y - x <= -2, row 4; half of rows 2 and 4
// is y <= -1, and with row 1 that is 0 <= -1.
// In the other half row 3 is x - y <= -3: rows 2, 3 and twice row 0 are 0 <= -2.
#[test]
fn the_least_of_two_batches(rt: HostRuntime) -> Result<(), Fail> {
    let mut proof = two_batches()?;
    proof.take(&[2, 0])?;
    proof.cutoff()?;
    proof.branch(&[-1, 1], 2)?;
    proof.infer(&[0, 1], &places(&[3, 0]))?;
    proof.chain(lines(2, TWO_BATCHES))?;
    assert_eq!(rt; proof.look(), (6, 2));
    proof.drop(5)?;
    assert_eq!(rt; proof.look(), (4, 1));
    proof.cut(&line(&[2, 0, 1, 0, 3, 0, 1, 0, 0, 0, 2, 0], 1))?;
    proof.drop(4)?;
    assert_eq!(rt; proof.look(), (2, 0));
    says_least(&rt, proof.close(), &[2, 0], 2)
}

// The one plan of no variables costs 0.
#[test]
fn no_variables(rt: HostRuntime) -> Result<(), Fail> {
    let mut proof = Job::new().open(Bare);
    refused(&rt, proof.pin(places(&[])), Cause::PointStaysOpen, 0, 0);
    proof.take(&[])?;
    proof.pin(places(&[]))?;
    says_least(&rt, proof.close(), &[], 0)
}
