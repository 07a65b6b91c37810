// What the tests give and compare. A premise is four bytes: a place and a multiplier, low bytes first; a place is two.
use derivation::verdict::Verdict;
use law::premise::{Line, Lines, Packed, Places};
use std::process::Abort;
use std::test::Fail;
use terms::fault::{Cause, Fault};

pub(crate) fn line(premises: &[u8], divisor: u32) -> Line<'_> {
    Line {
        premises: Packed::new(premises),
        divisor,
    }
}

// So many lines; each is a count of premises, the premises, and a divisor of four bytes.
pub(crate) fn lines(count: usize, bytes: &[u8]) -> Lines<'_> {
    Lines { count, bytes }
}

pub(crate) fn places(bytes: &[u8]) -> Places<'_> {
    Packed::new(bytes)
}

// A step answers with this fault.
pub(crate) fn refused(
    rt: &impl Abort,
    answer: Result<(), Fault>,
    cause: Cause,
    spot: usize,
    line: usize,
) {
    assert_eq!(rt; answer, Err(Fault { cause, spot, line }));
}

pub(crate) fn says_least(
    rt: &impl Abort,
    verdict: Verdict,
    plan: &[i32],
    cost: i64,
) -> Result<(), Fail> {
    match verdict {
        Verdict::Least(taken, least) => {
            assert_eq!(rt; taken.values(), plan);
            assert_eq!(rt; least, cost);
            Ok(())
        }
        _ => Err(Fail::new("not least")),
    }
}

pub(crate) fn says_no_model(verdict: Verdict) -> Result<(), Fail> {
    match verdict {
        Verdict::NoModel => Ok(()),
        _ => Err(Fail::new("not without a model")),
    }
}

// Something is open, and this plan is taken.
pub(crate) fn says_unfinished(
    rt: &impl Abort,
    verdict: Verdict,
    plan: Option<&[i32]>,
) -> Result<(), Fail> {
    match (verdict, plan) {
        (Verdict::Unfinished(None), None) => Ok(()),
        (Verdict::Unfinished(Some(taken)), Some(expected)) => {
            assert_eq!(rt; taken.values(), expected);
            Ok(())
        },
        _ => Err(Fail::new("not unfinished with this plan")),
    }
}
