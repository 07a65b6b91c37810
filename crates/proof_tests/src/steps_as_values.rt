// A list of steps, run, and the same steps called.
use crate::outcome::{line, lines, places, refused, says_least};
use crate::solved_jobs::{TWO_VARIABLES, two_variables};
use derivation::proof::Proof;
use derivation::running::run;
use law::numbers::Numbers;
use law::step::Step;
use std::process::Abort;
use std::test::Fail;
use terms::fault::Cause;
use theories::bare::Bare;

// The steps that solve the job of two variables; the first, the fourth, the sixth and the tenth are refused.
fn steps() -> [Step<'static>; 12] {
    [
        Step::Cutoff,
        Step::Take(Numbers::from([2, 1].as_slice())),
        Step::Cutoff,
        Step::Take(Numbers::from([2, 1].as_slice())),
        Step::Cut(line(&[0, 0, 1, 0], 2)),
        Step::Infer(&[], places(&[])),
        Step::Branch(Numbers::from([1, 0].as_slice()), 1),
        Step::Chain(lines(2, TWO_VARIABLES)),
        Step::Drop(8),
        Step::Drop(7),
        Step::Cut(line(&[5, 0, 1, 0, 7, 0, 2, 0], 3)),
        Step::Pin(places(&[1, 0, 7, 0, 8, 0, 4, 0])),
    ]
}

// The same steps, called.
fn called(rt: &impl Abort) -> Result<Proof<Bare>, Fail> {
    let mut proof = two_variables()?.open(Bare);
    refused(rt, proof.cutoff(), Cause::NoPlanTaken, 0, 0);
    proof.take(&[2, 1])?;
    proof.cutoff()?;
    refused(rt, proof.take(&[2, 1]), Cause::NotCheaper, 0, 0);
    proof.cut(&line(&[0, 0, 1, 0], 2))?;
    refused(rt, proof.infer(&[], &places(&[])), Cause::NoRule, 0, 0);
    proof.branch(&[1, 0], 1)?;
    proof.chain(lines(2, TWO_VARIABLES))?;
    proof.drop(8)?;
    refused(rt, proof.drop(7), Cause::NotContradiction, 0, 0);
    proof.cut(&line(&[5, 0, 1, 0, 7, 0, 2, 0], 3))?;
    proof.pin(places(&[1, 0, 7, 0, 8, 0, 4, 0]))?;
    Ok(proof)
}

#[test]
fn run_and_called(rt: HostRuntime) -> Result<(), Fail> {
    let steps = steps();
    let proof = run(two_variables()?, Bare, &steps);
    assert_eq!(rt; proof.look(), (5, 0));
    says_least(&rt, proof.close(), &[2, 1], 7)?;
    let proof = called(&rt)?;
    assert_eq!(rt; proof.look(), (5, 0));
    says_least(&rt, proof.close(), &[2, 1], 7)
}

// What each step answers, and what look says after it.
#[test]
fn performed_one_by_one(rt: HostRuntime) -> Result<(), Fail> {
    let mut proof = two_variables()?.open(Bare);
    let expected: [(Option<Cause>, (usize, usize)); 12] = [
        (Some(Cause::NoPlanTaken), (5, 1)),
        (None, (5, 1)),
        (None, (6, 1)),
        (Some(Cause::NotCheaper), (6, 1)),
        (None, (7, 1)),
        (Some(Cause::NoRule), (7, 1)),
        (None, (8, 2)),
        (None, (9, 2)),
        (None, (8, 1)),
        (Some(Cause::NotContradiction), (8, 1)),
        (None, (9, 1)),
        (None, (5, 0)),
    ];
    for (step, (cause, look)) in steps().into_iter().zip(expected) {
        let answer = proof.perform(step);
        match cause {
            Some(cause) => refused(&rt, answer, cause, 0, 0),
            None => answer?,
        }
        assert_eq!(rt; proof.look(), look);
    }
    Ok(())
}
