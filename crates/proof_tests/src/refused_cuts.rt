// Cuts and chains that are refused, and those at a limit.
use crate::outcome::{line, lines, refused};
use derivation::job::Job;
use derivation::proof::Proof;
use law::premise::{Line, Packed};
use std::test::Fail;
use terms::fault::Cause;
use theories::bare::Bare;

// The first row, three times the third, and a quarter of these two.
const THREE_LINES: &[u8] =
    b"\x01\0\0\x01\0\x01\0\0\0\x01\x02\0\x03\0\x01\0\0\0\x02\x04\0\x01\0\x05\0\x01\0\x04\0\0\0";

// 3x + 4y <= 5; 1000000y <= 20000000000000; -x <= 0; 0 <= 20000000000000.
fn four_rows() -> Result<Proof<Bare>, Fail> {
    let mut job = Job::new();
    job.variable(1)?;
    job.variable(1)?;
    job.row(&[3, 4], 'L', 5)?;
    job.row(&[0, 1_000_000], 'L', 20_000_000_000_000)?;
    job.row(&[1, 0], 'G', 0)?;
    job.row(&[0, 0], 'L', 20_000_000_000_000)?;
    Ok(job.open(Bare))
}

// The checks in their order; where two apply, the earlier answers.
#[test]
fn cuts(rt: HostRuntime) -> Result<(), Fail> {
    let mut proof = four_rows()?;
    let cases: [(&[u8], u32, Cause, usize); 13] = [
        (&[], 0, Cause::WrongLength, 0),
        (&[0; 132], 0, Cause::WrongLength, 0),
        (&[0, 0, 0, 0], 0, Cause::OutOfRange, 0),
        // 10,001 times the second
        (&[9, 0, 1, 0, 0, 0, 0x11, 0x27], 0, Cause::OutOfRange, 1),
        // 10,000 times the second
        (&[9, 0, 1, 0, 0, 0, 0x10, 0x27], 0, Cause::OutOfRange, 2),
        (&[9, 0, 1, 0], 1_000_001, Cause::OutOfRange, 1),
        (&[4, 0, 1, 0], 1_000_000, Cause::NoSuchPlace, 0),
        (
            &[0, 0, 1, 0, 3, 0, 1, 0, 0, 1, 1, 0],
            2,
            Cause::NoSuchPlace,
            2,
        ),
        (&[0, 0, 1, 0], 2, Cause::NotDivisible, 0),
        (&[0, 0, 1, 0], 3, Cause::NotDivisible, 1),
        // 3x + 2000004y
        (&[1, 0, 2, 0, 0, 0, 1, 0], 2, Cause::NotDivisible, 0),
        // 2000000y <= 40000000000000
        (&[1, 0, 2, 0], 1, Cause::RowTooLarge, 1),
        (&[3, 0, 2, 0], 1, Cause::RowTooLarge, 16),
    ];
    for (premises, divisor, cause, spot) in cases {
        refused(&rt, proof.cut(&line(premises, divisor)), cause, spot, 0);
        assert_eq!(rt; proof.look(), (4, 1));
    }
    Ok(())
}

// Adds a 32nd of -32x <= 0.
fn cut_by_thirty_two(proof: &mut Proof<Bare>) -> Result<(), Fail> {
    let premises = Packed {
        items: &[[2, 0, 1, 0]; 32],
    };
    proof.cut(&Line {
        premises,
        divisor: 32,
    })?;
    Ok(())
}

#[test]
fn cuts_at_their_limits(rt: HostRuntime) -> Result<(), Fail> {
    let mut proof = four_rows()?;
    cut_by_thirty_two(&mut proof)?;
    // 2000000y <= 40000000000000 is outside the limits, and its half is not
    proof.cut(&line(&[1, 0, 2, 0], 2))?;
    // 10,000 times the third
    proof.cut(&line(&[2, 0, 0x10, 0x27], 10_000))?;
    // y <= 20000000
    proof.cut(&line(&[1, 0, 1, 0], 1_000_000))?;
    assert_eq!(rt; proof.look(), (8, 1));
    Ok(())
}

// A half is rounded down: the halves of -1, 0 and 1 are -1, 0 and 0.
#[test]
fn halves_of_right_sides(rt: HostRuntime) -> Result<(), Fail> {
    let mut job = Job::new();
    job.row(&[], 'L', -1)?;
    job.row(&[], 'L', 0)?;
    job.row(&[], 'L', 1)?;
    let mut proof = job.open(Bare);
    for place in 0..3u8 {
        proof.cut(&line(&[place, 0, 1, 0], 2))?;
    }
    refused(&rt, proof.drop(5), Cause::NotContradiction, 0, 0);
    refused(&rt, proof.drop(4), Cause::NotContradiction, 0, 0);
    assert_eq!(rt; proof.look(), (6, 1));
    proof.drop(3)?;
    assert_eq!(rt; proof.look(), (3, 0));
    Ok(())
}

// The faults of lines have their line's number.
#[test]
fn chains(rt: HostRuntime) -> Result<(), Fail> {
    let mut proof = four_rows()?;
    let cases: [(usize, &[u8], Cause, usize, usize); 5] = [
        (0, &[], Cause::WrongLength, 0, 0),
        (9, &[], Cause::WrongLength, 0, 0),
        (
            2,
            &[1, 0, 0, 1, 0, 1, 0, 0, 0, 0, 1, 0, 0, 0],
            Cause::WrongLength,
            0,
            2,
        ),
        (1, &[1, 0, 0, 0, 0, 1, 0, 0, 0], Cause::OutOfRange, 0, 1),
        (
            2,
            &[1, 0, 0, 1, 0, 1, 0, 0, 0, 1, 4, 0, 1, 0, 0, 0, 0, 0],
            Cause::OutOfRange,
            1,
            2,
        ),
    ];
    for (count, bytes, cause, spot, number) in cases {
        refused(&rt, proof.chain(lines(count, bytes)), cause, spot, number);
        assert_eq!(rt; proof.look(), (4, 1));
    }
    Ok(())
}

// Two lines, of which the first or the second is at fault.
#[test]
fn rows_of_lines(rt: HostRuntime) -> Result<(), Fail> {
    let mut proof = four_rows()?;
    let cases: [(&[u8], Cause, usize, usize); 5] = [
        // a line does not have its own row
        (&[1, 4, 0, 1, 0, 1, 0, 0, 0], Cause::NoSuchPlace, 0, 1),
        (
            &[1, 0, 0, 1, 0, 1, 0, 0, 0, 1, 5, 0, 1, 0, 1, 0, 0, 0],
            Cause::NoSuchPlace,
            0,
            2,
        ),
        // a third of the first line's 3x + 4y
        (
            &[1, 0, 0, 1, 0, 1, 0, 0, 0, 1, 4, 0, 1, 0, 3, 0, 0, 0],
            Cause::NotDivisible,
            1,
            2,
        ),
        // the second line would halve it
        (
            &[1, 1, 0, 2, 0, 1, 0, 0, 0, 1, 4, 0, 1, 0, 2, 0, 0, 0],
            Cause::RowTooLarge,
            1,
            1,
        ),
        (
            &[1, 3, 0, 1, 0, 1, 0, 0, 0, 1, 4, 0, 2, 0, 1, 0, 0, 0],
            Cause::RowTooLarge,
            16,
            2,
        ),
    ];
    for (bytes, cause, spot, number) in cases {
        refused(&rt, proof.chain(lines(2, bytes)), cause, spot, number);
        assert_eq!(rt; proof.look(), (4, 1));
    }
    // the rows of working lines are off the table
    refused(
        &rt,
        proof.cut(&line(&[4, 0, 1, 0], 1)),
        Cause::NoSuchPlace,
        0,
        0,
    );
    Ok(())
}

// Lines 1 and 2 make 3x + 4y <= 5 and -3x <= 0; line 3 adds these two rows and takes a quarter: y <= 1.
#[test]
fn only_the_last_row_of_a_chain_joins(rt: HostRuntime) -> Result<(), Fail> {
    let mut proof = four_rows()?;
    proof.chain(lines(3, THREE_LINES))?;
    assert_eq!(rt; proof.look(), (5, 1));
    // y <= 1 and -y <= -2, which a branch adds, are 0 <= -1
    proof.branch(&[0, -1], -2)?;
    proof.cut(&line(&[4, 0, 1, 0, 5, 0, 1, 0], 1))?;
    proof.drop(6)?;
    assert_eq!(rt; proof.look(), (6, 1));
    Ok(())
}
