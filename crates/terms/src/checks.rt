// Checks: each answers with its fault, or passes.
ghost use Rattle.std.specs.Prelude.{◌≡◌, map, ℤ, option_map};
ghost use Rattle.terms.specs.Faults.{answered, fault, first_unless, unless};
ghost use Rattle.terms.specs.Limits.{million, right_limit, within};
ghost use Rattle.terms.specs.declared.fault.Cause.TheVariants.{OutOfRange};

use crate::fault::{Cause, Fault};

// Refuses unless the test passes.
pub fn need(test: bool, cause: Cause, spot: usize) -> Result<(), Fault>
    ensures { result ≡ answered (unless test cause spot) }
{
    if test { Ok(()) } else { Err(cause.at(spot)) }
}

// Refuses at the place that was found, if one was.
pub fn need_none(found: Option<usize>, cause: Cause) -> Result<(), Fault>
    ensures { result ≡ answered (option_map (fault cause) found) }
{
    match found {
        None => Ok(()),
        Some(spot) => Err(cause.at(spot)),
    }
}

// Whether a number is within a limit of zero.
pub fn is_within(limit: u64, number: i64) -> bool
    ensures { result ≡ within limit number }
{
    number.unsigned_abs() <= limit
}

// The two limits have names of their own, since many ask for them.
// Whether a coefficient, a cost or a value is within 1,000,000 of zero. By a range, which is one test, as it is asked of each number of a list.
pub fn is_small(number: i32) -> bool
    ensures { result ≡ within million number }
{
    (-1_000_000..=1_000_000).contains(&number)
}

// Whether a right side is within 20,000,000,000,000 of zero.
pub fn is_right(number: i64) -> bool
    ensures { result ≡ within right_limit number }
{
    is_within(20_000_000_000_000, number)
}

// Refuses at the first number that is not within 1,000,000 of zero.
pub fn all_small(numbers: &[i32]) -> Result<(), Fault>
    ensures { result ≡ answered (first_unless OutOfRange 0 (map (within million) numbers.now)) }
{
    need_none(
        numbers.iter().position(|number| !is_small(*number)),
        Cause::OutOfRange,
    )
}
