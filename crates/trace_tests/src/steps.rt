// Steps as the tests give and compare them. A premise is a place and a multiplier of two bytes each, low bytes first.
use law::premise::{Line, Lines, Packed, Places};
use law::step::Step;
use std::process::Abort;
use std::test::Fail;
use terms::fault::Fault;
use writing::step_writer::write_step;

pub(crate) fn line(premises: &[u8], divisor: u32) -> Line<'_> {
    Line {
        premises: Packed::new(premises),
        divisor,
    }
}

// So many lines; each is a count of premises, the premises, and a divisor of four bytes.
pub(crate) fn lines(count: usize, bytes: &[u8]) -> Lines<'_> {
    Lines { count, bytes }
}

pub(crate) fn places(bytes: &[u8]) -> Places<'_> {
    Packed::new(bytes)
}

fn same_line(rt: &impl Abort, found: &Line<'_>, expected: &Line<'_>) -> Result<(), Fail> {
    assert_eq!(rt; found.premises.items, expected.premises.items);
    assert_eq!(rt; found.divisor, expected.divisor);
    Ok(())
}

// Bytes after the last line do not count.
fn same_lines(rt: &impl Abort, found: Lines<'_>, expected: Lines<'_>) -> Result<(), Fail> {
    assert_eq!(rt; found.count, expected.count);
    for (left, right) in found.zip(expected) {
        same_line(rt, &left, &right)?;
    }
    Ok(())
}

pub(crate) fn same_step(
    rt: &impl Abort,
    found: Option<Step<'_>>,
    expected: Option<Step<'_>>,
) -> Result<(), Fail> {
    match (found, expected) {
        (Some(Step::Branch(left, side)), Some(Step::Branch(right, other))) => {
            assert_eq!(rt; left.values(), right.values());
            assert_eq!(rt; side, other);
            Ok(())
        }
        (Some(Step::Cut(left)), Some(Step::Cut(right))) => same_line(rt, &left, &right),
        (Some(Step::Chain(left)), Some(Step::Chain(right))) => same_lines(rt, left, right),
        (Some(Step::Infer(clue, left)), Some(Step::Infer(other, right))) => {
            assert_eq!(rt; clue, other);
            assert_eq!(rt; left.items, right.items);
            Ok(())
        }
        (Some(Step::Cutoff), Some(Step::Cutoff)) => Ok(()),
        (Some(Step::Take(left)), Some(Step::Take(right))) => {
            assert_eq!(rt; left.values(), right.values());
            Ok(())
        }
        (Some(Step::Drop(left)), Some(Step::Drop(right))) => {
            assert_eq!(rt; left, right);
            Ok(())
        },
        (Some(Step::Pin(left)), Some(Step::Pin(right))) => {
            assert_eq!(rt; left.items, right.items);
            Ok(())
        },
        (None, None) => Ok(()),
        _ => Err(Fail::new("another kind of step")),
    }
}

// The number of a fault at spot 0 and line 0.
pub(crate) fn is_fault(rt: &impl Abort, found: Fault, number: u8) -> Result<(), Fail> {
    assert_eq!(rt;
        (found.cause.number(), found.spot, found.line),
        (number, 0, 0)
    );
    Ok(())
}

// Writes a step to the first so many bytes.
pub(crate) fn write_within(
    n: usize,
    width: usize,
    step: Option<Step<'_>>,
    length: usize,
    out: &mut [u8],
) -> Result<usize, Fault> {
    let length = length.min(out.len());
    write_step(n, width, step, &mut out[..length])
}
