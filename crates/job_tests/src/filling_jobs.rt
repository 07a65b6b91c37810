// Variables and rows, and what a refused one leaves.
use crate::outcome::answers;
use derivation::job::Job;
use std::test::Fail;

fn two_variables() -> Result<Job, Fail> {
    let mut job = Job::new();
    job.variable(1)?;
    job.variable(-1)?;
    Ok(job)
}

#[test]
fn variables(rt: HostRuntime) -> Result<(), Fail> {
    let mut job = Job::new();
    for _ in 0..16 {
        answers(&rt, job.variable(1_000_001), 3, 0)?;
        job.variable(1_000_000)?;
    }
    answers(&rt, job.variable(1), 4, 0)?;
    answers(&rt, job.variable(-1_000_001), 3, 0)?;
    assert_eq!(rt; job.size(), 16);
    Ok(())
}

#[test]
fn refused_rows(rt: HostRuntime) -> Result<(), Fail> {
    let mut job = two_variables()?;
    let cases: [(&[i32], char, i64, u8, usize); 7] = [
        (&[], 'L', 0, 2, 0),
        (&[1], 'L', 0, 2, 0),
        (&[1_000_001, 0, 0], 'X', 0, 2, 0),
        (&[0, -1_000_001], 'X', 20_000_000_000_001, 3, 1),
        (&[0, 0], 'X', 20_000_000_000_001, 3, 2),
        (&[0, 0], 'L', -20_000_000_000_001, 3, 2),
        (&[0, 0], 'X', 0, 9, 0),
    ];
    for (coefficients, letter, right, number, spot) in cases {
        answers(&rt, job.row(coefficients, letter, right), number, spot)?;
    }
    assert_eq!(rt; job.rows().len(), 0);
    Ok(())
}

#[test]
fn relations(rt: HostRuntime) -> Result<(), Fail> {
    let mut job = two_variables()?;
    job.row(&[2, -3], 'L', 5)?;
    job.row(&[2, -3], 'G', 5)?;
    job.row(&[2, -3], 'E', 5)?;
    job.variable(0)?;
    let expected: [(i32, i32, i64); 4] = [(2, -3, 5), (-2, 3, -5), (2, -3, 5), (-2, 3, -5)];
    assert_eq!(rt; job.rows().len(), 4);
    for (row, (first, second, right)) in job.rows().iter().zip(expected) {
        let items = row.coefficients.items;
        assert_eq!(rt;
            (items[0], items[1], items[2], row.right),
            (first, second, 0, right)
        );
    }
    Ok(())
}

// An equality with 63 rows present adds neither half.
#[test]
fn no_half_of_an_equality(rt: HostRuntime) -> Result<(), Fail> {
    let mut job = Job::new();
    for _ in 0..63 {
        job.row(&[], 'L', 0)?;
    }
    answers(&rt, job.row(&[], 'E', 0), 4, 0)?;
    assert_eq!(rt; job.rows().len(), 63);
    job.row(&[], 'G', 0)?;
    answers(&rt, job.row(&[], 'L', 0), 4, 0)
}
