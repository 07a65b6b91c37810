// Infers that are refused, and what an accepted one adds.
use crate::outcome::{line, places, refused};
use derivation::job::Job;
use derivation::proof::Proof;
use std::test::Fail;
use terms::fault::Cause;
use theories::bare::Bare;
use theories::parts::Call;
use theories::shared_results::SharedResults;

// f7(x) = x, f7(y) = y, f7(x) = v2, f7(x, v5) = x and f8(x) = x; of these, x and y are variables of the job.
fn five_calls() -> Result<SharedResults, Fail> {
    let mut calls = SharedResults::new();
    let cases: [(u8, u8, u8, u8); 5] = [
        (7, 0, 16, 0),
        (7, 1, 16, 1),
        (7, 0, 16, 2),
        (7, 0, 5, 0),
        (8, 0, 16, 0),
    ];
    for (function, first, second, result) in cases {
        calls.add(Call {
            function,
            first,
            second,
            result,
        })?;
    }
    Ok(calls)
}

// x - y <= 0; y - x <= -1; y - x <= 1; and a row x - 2y <= 0 that is no difference.
fn four_rows() -> Result<Proof<SharedResults>, Fail> {
    let mut job = Job::new();
    job.variable(0)?;
    job.variable(0)?;
    job.row(&[1, -1], 'L', 0)?;
    job.row(&[-1, 1], 'L', -1)?;
    job.row(&[-1, 1], 'L', 1)?;
    job.row(&[1, -2], 'L', 0)?;
    Ok(job.open(five_calls()?))
}

#[test]
fn rules_of_clues(rt: HostRuntime) -> Result<(), Fail> {
    let mut proof = four_rows()?;
    let cases: [(&[u8], Cause, usize); 6] = [
        (&[0], Cause::NoRule, 0),
        (&[0, 1, 0], Cause::NoRule, 0),
        (&[0, 5], Cause::NoRule, 0),
        (&[0, 4], Cause::NoRule, 0),
        // v2 - v2, the conclusion, cancels, and v2 is no variable
        (&[2, 2], Cause::PlaceNotVariable, 4),
        (&[0, 3], Cause::PlaceNotVariable, 2),
    ];
    for (clue, cause, spot) in cases {
        refused(&rt, proof.infer(clue, &places(&[])), cause, spot, 0);
        assert_eq!(rt; proof.look(), (4, 1));
    }
    Ok(())
}

// The rule of calls 0 and 1 has the premises x - y <= 0, y - x <= 0 and two without coefficients.
#[test]
fn premises(rt: HostRuntime) -> Result<(), Fail> {
    let mut proof = four_rows()?;
    let cases: [(&[u8], Cause, usize); 6] = [
        (&[9, 0, 9, 0, 9, 0], Cause::WrongLength, 0),
        (&[9, 0, 9, 0, 9, 0, 9, 0, 9, 0], Cause::WrongLength, 0),
        (&[1, 0, 4, 0, 0, 0, 0, 0], Cause::NoSuchPlace, 1),
        (&[1, 0, 0, 0, 0, 0, 0, 0], Cause::PremiseNotShown, 0),
        (&[3, 0, 1, 0, 0, 0, 0, 0], Cause::PremiseNotShown, 0),
        (&[0, 0, 2, 0, 0, 0, 0, 0], Cause::PremiseNotShown, 1),
    ];
    for (bytes, cause, spot) in cases {
        refused(&rt, proof.infer(&[0, 1], &places(bytes)), cause, spot, 0);
        assert_eq!(rt; proof.look(), (4, 1));
    }
    Ok(())
}

// The places of premises without coefficients are not read. What joins is x - y <= 0, which with y - x <= -1 is 0 <= -1.
#[test]
fn the_conclusion_joins(rt: HostRuntime) -> Result<(), Fail> {
    let mut proof = four_rows()?;
    proof.infer(&[0, 1], &places(&[0, 0, 1, 0, 255, 255, 4, 0]))?;
    assert_eq!(rt; proof.look(), (5, 1));
    proof.cut(&line(&[4, 0, 1, 0, 1, 0, 1, 0], 1))?;
    proof.drop(5)?;
    assert_eq!(rt; proof.look(), (4, 0));
    Ok(())
}

// All four premises of a call with itself are without coefficients, and so is what joins.
#[test]
fn a_call_with_itself(rt: HostRuntime) -> Result<(), Fail> {
    let mut proof = four_rows()?;
    proof.infer(&[4, 4], &places(&[255; 8]))?;
    assert_eq!(rt; proof.look(), (5, 1));
    refused(&rt, proof.drop(4), Cause::NotContradiction, 0, 0);
    Ok(())
}

#[test]
fn bare_has_no_rule(rt: HostRuntime) {
    let mut proof = Job::new().open(Bare);
    refused(&rt, proof.infer(&[], &places(&[])), Cause::NoRule, 0, 0);
    refused(&rt, proof.infer(&[0, 1], &places(&[])), Cause::NoRule, 0, 0);
    assert_eq!(rt; proof.look(), (0, 1));
}
