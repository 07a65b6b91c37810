// Tables of 512 rows.
use crate::outcome::{line, lines, places, refused, says_least};
use derivation::job::Job;
use derivation::proof::Proof;
use std::process::Abort;
use std::test::Fail;
use terms::fault::Cause;
use theories::parts::Call;
use theories::shared_results::SharedResults;

// x <= 0; -x <= 0; and f(x) = x.
fn one_call() -> Result<Proof<SharedResults>, Fail> {
    let mut job = Job::new();
    job.variable(1)?;
    job.row(&[1], 'E', 0)?;
    let mut calls = SharedResults::new();
    calls.add(Call {
        function: 0,
        first: 0,
        second: 16,
        result: 0,
    })?;
    Ok(job.open(calls))
}

// Each step that adds a row is refused, once a plan is taken for the cutoff; a fault that is looked for first stays first.
fn is_full(rt: &impl Abort, proof: &mut Proof<SharedResults>) -> Result<(), Fail> {
    let before = proof.look();
    refused(rt, proof.branch(&[1], 0), Cause::Full, 0, 0);
    refused(rt, proof.branch(&[1], i64::MAX), Cause::OutOfRange, 1, 0);
    refused(rt, proof.cut(&line(&[0, 2, 1, 0], 1)), Cause::Full, 0, 0);
    refused(
        rt,
        proof.cut(&line(&[0, 2, 1, 0], 0)),
        Cause::OutOfRange,
        1,
        0,
    );
    refused(rt, proof.chain(lines(1, &[])), Cause::Full, 0, 0);
    refused(
        rt,
        proof.infer(&[0, 0], &places(&[0; 8])),
        Cause::Full,
        0,
        0,
    );
    refused(
        rt,
        proof.infer(&[0, 0], &places(&[0; 6])),
        Cause::WrongLength,
        0,
        0,
    );
    refused(rt, proof.cutoff(), Cause::NoPlanTaken, 0, 0);
    proof.take(&[0])?;
    refused(rt, proof.cutoff(), Cause::Full, 0, 0);
    assert_eq!(rt; proof.look(), before);
    Ok(())
}

// The branches add 0 <= -1, at the places 2 to 511; the opposite is 0 <= 0.
#[test]
fn filled_by_branches(rt: HostRuntime) -> Result<(), Fail> {
    let mut proof = one_call()?;
    for _ in 0..510 {
        proof.branch(&[0], -1)?;
    }
    assert_eq!(rt; proof.look(), (512, 511));
    is_full(&rt, &mut proof)?;
    proof.drop(511)?;
    assert_eq!(rt; proof.look(), (512, 510));
    refused(&rt, proof.cutoff(), Cause::Full, 0, 0);
    refused(&rt, proof.drop(511), Cause::NotContradiction, 0, 0);
    proof.drop(510)?;
    assert_eq!(rt; proof.look(), (511, 509));
    // x is 0 by the first two rows, and misses the third
    proof.pin(places(&[0, 0, 1, 0]))?;
    assert_eq!(rt; proof.look(), (510, 508));
    proof.cutoff()?;
    assert_eq!(rt; proof.look(), (511, 508));
    Ok(())
}

// Eight lines, each 0 <= 0 from the first two rows.
const EIGHT_LINES: &[[u8; 13]; 8] = &[[2, 0, 0, 1, 0, 1, 0, 1, 0, 1, 0, 0, 0]; 8];

// A chain needs room for all its lines, and adds one row.
fn chains_near_the_end(rt: &impl Abort, proof: &mut Proof<SharedResults>) -> Result<(), Fail> {
    let bytes = EIGHT_LINES.as_flattened();
    assert_eq!(rt; proof.look(), (504, 1));
    proof.chain(lines(8, bytes))?;
    assert_eq!(rt; proof.look(), (505, 1));
    refused(rt, proof.chain(lines(8, bytes)), Cause::Full, 0, 0);
    assert_eq!(rt; proof.look(), (505, 1));
    proof.chain(lines(7, bytes))?;
    assert_eq!(rt; proof.look(), (506, 1));
    Ok(())
}

#[test]
fn filled_by_cuts(rt: HostRuntime) -> Result<(), Fail> {
    let mut proof = one_call()?;
    for _ in 0..502 {
        proof.cut(&line(&[0, 0, 1, 0, 1, 0, 1, 0], 1))?;
    }
    chains_near_the_end(&rt, &mut proof)?;
    for _ in 0..6 {
        proof.cut(&line(&[0, 0, 1, 0, 1, 0, 1, 0], 1))?;
    }
    assert_eq!(rt; proof.look(), (512, 1));
    refused(&rt, proof.drop(511), Cause::NotContradiction, 0, 0);
    refused(
        &rt,
        proof.pin(places(&[0, 0, 1, 0])),
        Cause::PointStaysOpen,
        0,
        0,
    );
    is_full(&rt, &mut proof)?;
    proof.pin(places(&[0, 0, 1, 0]))?;
    assert_eq!(rt; proof.look(), (2, 0));
    says_least(&rt, proof.close(), &[0], 0)
}
