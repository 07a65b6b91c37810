// Branches, takes, cutoffs, drops and pins that are refused, and all steps where nothing is open.
use crate::outcome::{line, lines, places, refused, says_least, says_no_model};
use derivation::job::Job;
use derivation::proof::Proof;
use std::test::Fail;
use terms::fault::Cause;
use theories::bare::Bare;
use theories::one_vat::OneVat;
use theories::parts::Batch;

// Each step has a further fault, which comes later.
#[test]
fn nothing_open(rt: HostRuntime) -> Result<(), Fail> {
    let mut job = Job::new();
    job.variable(0)?;
    job.row(&[0], 'L', -1)?;
    let mut proof = job.open(Bare);
    proof.drop(0)?;
    assert_eq!(rt; proof.look(), (1, 0));
    refused(&rt, proof.branch(&[], 0), Cause::NothingOpen, 0, 0);
    refused(&rt, proof.cut(&line(&[], 0)), Cause::NothingOpen, 0, 0);
    refused(&rt, proof.chain(lines(0, &[])), Cause::NothingOpen, 0, 0);
    refused(
        &rt,
        proof.infer(&[0], &places(&[])),
        Cause::NothingOpen,
        0,
        0,
    );
    refused(&rt, proof.cutoff(), Cause::NothingOpen, 0, 0);
    refused(&rt, proof.take(&[]), Cause::NothingOpen, 0, 0);
    refused(&rt, proof.drop(1), Cause::NothingOpen, 0, 0);
    refused(&rt, proof.pin(places(&[])), Cause::NothingOpen, 0, 0);
    assert_eq!(rt; proof.look(), (1, 0));
    says_no_model(proof.close())
}

#[test]
fn branches(rt: HostRuntime) -> Result<(), Fail> {
    let mut job = Job::new();
    job.variable(1)?;
    job.variable(1)?;
    let mut proof = job.open(Bare);
    let cases: [(&[i32], i64, Cause, usize); 7] = [
        (&[1], 0, Cause::WrongLength, 0),
        (&[1_000_001, 0, 0], 0, Cause::WrongLength, 0),
        (&[-1_000_001, 1_000_001], 0, Cause::OutOfRange, 0),
        (&[0, 1_000_001], i64::MAX, Cause::OutOfRange, 1),
        // the right side of the opposite is -20,000,000,000,001
        (&[0, 0], 20_000_000_000_000, Cause::OutOfRange, 2),
        (&[0, 0], -20_000_000_000_001, Cause::OutOfRange, 2),
        (&[0, 0], i64::MIN, Cause::OutOfRange, 2),
    ];
    for (coefficients, right, cause, spot) in cases {
        refused(&rt, proof.branch(coefficients, right), cause, spot, 0);
        assert_eq!(rt; proof.look(), (0, 1));
    }
    proof.branch(&[1_000_000, -1_000_000], 19_999_999_999_999)?;
    proof.branch(&[0, 0], -20_000_000_000_000)?;
    assert_eq!(rt; proof.look(), (2, 3));
    Ok(())
}

// Batches of lengths 3 and 2 at x and y, neither below 0, and the cost x + y.
fn two_batches() -> Result<Proof<OneVat>, Fail> {
    let mut job = Job::new();
    job.variable(1)?;
    job.variable(1)?;
    job.row(&[1, 0], 'G', 0)?;
    job.row(&[0, 1], 'G', 0)?;
    let mut vat = OneVat::new();
    vat.add(Batch {
        start: 0,
        duration: 3,
    })?;
    vat.add(Batch {
        start: 1,
        duration: 2,
    })?;
    Ok(job.open(vat))
}

// A plan of cost 3 is taken between the first and the last three.
#[test]
fn takes_and_cutoffs(rt: HostRuntime) -> Result<(), Fail> {
    let mut proof = two_batches()?;
    let cases: [(&[i32], Cause, usize); 7] = [
        (&[0], Cause::WrongLength, 0),
        (&[1_000_001, 0, 0], Cause::WrongLength, 0),
        (&[-1_000_001, 1_000_001], Cause::OutOfRange, 0),
        (&[-1, 1_000_001], Cause::OutOfRange, 1),
        (&[-1, -1], Cause::RowMissed, 0),
        (&[0, -1], Cause::RowMissed, 1),
        (&[0, 2], Cause::NotAdmitted, 0),
    ];
    for (plan, cause, spot) in cases {
        refused(&rt, proof.take(plan), cause, spot, 0);
        refused(&rt, proof.cutoff(), Cause::NoPlanTaken, 0, 0);
        assert_eq!(rt; proof.look(), (2, 1));
    }
    proof.take(&[0, 3])?;
    refused(&rt, proof.take(&[9, 9]), Cause::NotAdmitted, 0, 0);
    refused(&rt, proof.take(&[3, 0]), Cause::NotCheaper, 0, 0);
    refused(&rt, proof.take(&[1_000_000, 0]), Cause::NotCheaper, 0, 0);
    assert_eq!(rt; proof.look(), (2, 1));
    proof.take(&[2, 0])?;
    proof.cutoff()?;
    assert_eq!(rt; proof.look(), (3, 1));
    Ok(())
}

// x <= -1; 0 <= 0; 0 <= -1.
#[test]
fn drops(rt: HostRuntime) -> Result<(), Fail> {
    let mut job = Job::new();
    job.variable(0)?;
    job.row(&[1], 'L', -1)?;
    job.row(&[0], 'L', 0)?;
    job.row(&[0], 'L', -1)?;
    let mut proof = job.open(Bare);
    let cases: [(usize, Cause); 5] = [
        (3, Cause::NoSuchPlace),
        (65_538, Cause::NoSuchPlace),
        (usize::MAX, Cause::NoSuchPlace),
        (0, Cause::NotContradiction),
        (1, Cause::NotContradiction),
    ];
    for (place, cause) in cases {
        refused(&rt, proof.drop(place), cause, 0, 0);
        assert_eq!(rt; proof.look(), (3, 1));
    }
    proof.drop(2)?;
    assert_eq!(rt; proof.look(), (3, 0));
    Ok(())
}

// x <= 2; -x <= -2; y <= 3; -y <= -2; -y <= -3; 2x <= 4. The point (2, 3) meets them.
#[test]
fn pins(rt: HostRuntime) -> Result<(), Fail> {
    let mut job = Job::new();
    job.variable(5)?;
    job.variable(-2)?;
    job.row(&[1, 0], 'E', 2)?;
    job.row(&[0, 1], 'L', 3)?;
    job.row(&[0, 1], 'G', 2)?;
    job.row(&[0, 1], 'G', 3)?;
    job.row(&[2, 0], 'L', 4)?;
    let mut proof = job.open(Bare);
    let cases: [(&[u8], Cause, usize); 10] = [
        (&[9, 0, 9, 0, 9, 0], Cause::WrongLength, 0),
        (&[0, 0, 1, 0, 2, 0, 4, 0, 0, 0], Cause::WrongLength, 0),
        (&[1, 0, 0, 0, 2, 0, 6, 0], Cause::NoSuchPlace, 3),
        (&[0, 1, 0, 0, 2, 0, 6, 0], Cause::NoSuchPlace, 0),
        (&[1, 0, 0, 0, 4, 0, 2, 0], Cause::NotFixed, 0),
        (&[2, 0, 1, 0, 2, 0, 4, 0], Cause::NotFixed, 0),
        (&[5, 0, 1, 0, 2, 0, 4, 0], Cause::NotFixed, 0),
        (&[0, 0, 0, 0, 2, 0, 4, 0], Cause::NotFixed, 0),
        (&[0, 0, 1, 0, 2, 0, 3, 0], Cause::NotFixed, 1),
        (&[0, 0, 1, 0, 2, 0, 4, 0], Cause::PointStaysOpen, 0),
    ];
    for (bytes, cause, spot) in cases {
        refused(&rt, proof.pin(places(bytes)), cause, spot, 0);
        assert_eq!(rt; proof.look(), (6, 1));
    }
    proof.take(&[2, 3])?;
    proof.pin(places(&[0, 0, 1, 0, 2, 0, 4, 0]))?;
    assert_eq!(rt; proof.look(), (6, 0));
    says_least(&rt, proof.close(), &[2, 3], 4)
}

// x is 1,000,001 by the first two rows and 1,000,000 by the others; the latter point misses the second.
#[test]
fn pins_at_the_limit_of_values(rt: HostRuntime) -> Result<(), Fail> {
    let mut job = Job::new();
    job.variable(0)?;
    job.row(&[1], 'E', 1_000_001)?;
    job.row(&[1], 'E', 1_000_000)?;
    let mut proof = job.open(Bare);
    refused(&rt, proof.pin(places(&[0, 0, 1, 0])), Cause::NotFixed, 0, 0);
    assert_eq!(rt; proof.look(), (4, 1));
    proof.pin(places(&[2, 0, 3, 0]))?;
    says_no_model(proof.close())
}

// The batches overlap at (0, 2), so the vat does not admit it.
#[test]
fn pins_by_the_theory(rt: HostRuntime) -> Result<(), Fail> {
    let mut proof = two_batches()?;
    proof.branch(&[1, 0], 0)?;
    proof.branch(&[0, 1], 2)?;
    proof.branch(&[0, -1], -2)?;
    assert_eq!(rt; proof.look(), (5, 4));
    proof.pin(places(&[2, 0, 0, 0, 3, 0, 4, 0]))?;
    assert_eq!(rt; proof.look(), (5, 3));
    Ok(())
}
