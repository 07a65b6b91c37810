// Many open subproblems, each shut by a drop.
use crate::outcome::{line, says_least};
use derivation::job::Job;
use derivation::proof::Proof;
use std::process::Abort;
use std::test::Fail;
use theories::bare::Bare;

// The first row once, and the row at a place once.
fn with_the_first(place: u16) -> [u8; 8] {
    let [low, high] = place.to_le_bytes();
    [0, 0, 1, 0, low, high, 1, 0]
}

// The cost is -x, row 0 is x <= 0, and (0) is taken. Branch k, from 0, adds x <= k, and x >= k + 1 waits.
fn branched(rt: &impl Abort, branches: u16) -> Result<Proof<Bare>, Fail> {
    let mut job = Job::new();
    job.variable(-1)?;
    job.row(&[1], 'L', 0)?;
    let mut proof = job.open(Bare);
    proof.take(&[0])?;
    for k in 0..branches {
        assert_eq!(rt; proof.look(), (k as usize + 1, k as usize + 1));
        proof.branch(&[1], k as i64)?;
    }
    Ok(proof)
}

// The newest row says that x is 1 or more, and the first that it is 0 or less.
fn drop_top(
    rt: &impl Abort,
    proof: &mut Proof<Bare>,
    newest: u16,
    open: usize,
) -> Result<(), Fail> {
    let place = newest as usize;
    assert_eq!(rt; proof.look(), (place + 1, open));
    let premises = with_the_first(newest);
    proof.cut(&line(&premises, 1))?;
    assert_eq!(rt; proof.look(), (place + 2, open));
    proof.drop(place + 1)?;
    Ok(())
}

// The innermost half is shut by the cutoff -x <= -1; then branch k has its row x >= k + 1 at place k + 1, and as many open.
fn opens_and_shuts(rt: &impl Abort, branches: u16) -> Result<(), Fail> {
    let mut proof = branched(rt, branches)?;
    proof.cutoff()?;
    drop_top(
        rt,
        &mut proof,
        branches.saturating_add(1),
        branches as usize + 1,
    )?;
    for done in 0..branches {
        let left = branches - done;
        drop_top(rt, &mut proof, left, left as usize)?;
    }
    assert_eq!(rt; proof.look(), (1, 0));
    says_least(rt, proof.close(), &[0], 0)
}

#[test]
fn nineteen_open(rt: HostRuntime) -> Result<(), Fail> {
    assert_eq!(rt; branched(&rt, 18)?.look(), (19, 19));
    opens_and_shuts(&rt, 18)
}

#[test]
fn sixty_four_open(rt: HostRuntime) -> Result<(), Fail> {
    assert_eq!(rt; branched(&rt, 63)?.look(), (64, 64));
    opens_and_shuts(&rt, 63)
}

#[test]
fn two_hundred_eleven_open(rt: HostRuntime) -> Result<(), Fail> {
    assert_eq!(rt; branched(&rt, 210)?.look(), (211, 211));
    opens_and_shuts(&rt, 210)
}

#[test]
fn three_hundred_two_open(rt: HostRuntime) -> Result<(), Fail> {
    assert_eq!(rt; branched(&rt, 301)?.look(), (302, 302));
    opens_and_shuts(&rt, 301)
}
