// How rows are made: from numbers, from one another, from a difference.
ghost use Rattle.std.specs.Prelude.{◌≡◌, min, replicate, pos, if◌then◌else◌, Some, None, slice_index_or};
ghost use Rattle.terms.specs.Faults.{first_fault, otherwise, shown};
ghost use Rattle.terms.specs.Limits.{list_limits, right_limit, row_limits, within};
ghost use Rattle.terms.specs.Rows.{difference_row, negated, opposite, turned, unit};
ghost use Rattle.terms.specs.Stored.{padded, whole, wholes};

use crate::checks::{all_small, is_right, need};
use crate::difference::Difference;
use crate::fault::{Cause, Fault};
use crate::row::{Coefficients, Row};
use std::array;

impl Coefficients {
    // Sixteen zeros.
    pub fn zeros() -> Coefficients
        ensures { result.items ≡ replicate 16 (pos 0) }
    {
        Coefficients { items: [0; 16] }
    }

    // The numbers, and 0 at the places after them.
    pub fn new(numbers: &[i32]) -> Result<Coefficients, Fault>
        ensures { shown (λ c. c.items) result ≡ otherwise (first_fault (list_limits numbers.now)) (padded numbers.now) }
    {
        need(numbers.len() <= 16, Cause::WrongLength, 0)?;
        all_small(numbers)?;
        let mut items = [0; 16];
        items[0..numbers.len()].copy_from_slice(numbers);
        Ok(Coefficients { items })
    }

    // All signs turned.
    pub fn negated(&self) -> Coefficients
        ensures { result.items ≡ negated self.now.items }
    {
        Coefficients {
            items: array::from_fn(|place| -self.items[place]),
        }
    }
}

impl Default for Coefficients {
    ghost is_default = { λ c. c.items ≡ replicate 16 (pos 0) };

    fn default() -> Coefficients {
        Coefficients::zeros()
    }
}

impl Default for Row {
    ghost is_default = { λ r. whole r ≡ record { coefficients = replicate 16 (pos 0); right = pos 0 } };

    fn default() -> Row {
        Row::zeros()
    }
}

impl Row {
    // The row without coefficients and with right side 0.
    pub fn zeros() -> Row
        ensures { whole result ≡ record { coefficients = replicate 16 (pos 0); right = pos 0 } }
    {
        Row {
            coefficients: Coefficients::zeros(),
            right: 0,
        }
    }

    // The row of these coefficients, 0 at the places after them, or the first limit that it breaks.
    pub fn new(coefficients: &[i32], right: i64) -> Result<Row, Fault>
        ensures { shown whole result ≡ otherwise (first_fault (row_limits coefficients.entry.now right)) (record { coefficients = padded coefficients.entry.now; right = right }) }
    {
        let places = coefficients.len();
        let coefficients = Coefficients::new(coefficients)?;
        need(is_right(right), Cause::OutOfRange, places)?;
        Ok(Row {
            coefficients,
            right,
        })
    }

    // At least, as at most: all signs turned.
    pub fn turned(&self) -> Row
        ensures { whole result ≡ turned (whole self.now) }
    {
        Row {
            coefficients: self.coefficients.negated(),
            right: -self.right,
        }
    }

    // The row that a plan meets exactly if it misses this one; none where it leaves the row limits.
    pub fn opposite(&self) -> Option<Row>
        ensures { wholes result ≡ (if within right_limit (opposite (whole self.now)).right then Some (opposite (whole self.now)) else None) }
    {
        let right = -self.right - 1;
        if is_right(right) {
            Some(Row {
                coefficients: self.coefficients.negated(),
                right,
            })
        } else {
            None
        }
    }
}

// 1 at the marked place, if that is below n, and 0 at the others.
fn mark(n: usize, at: u8, place: usize) -> i32
    ensures { result ≡ slice_index_or (unit n at) place (pos 0) }
{
    if place < n && place == at as usize {
        1
    } else {
        0
    }
}

impl Difference {
    // The coefficient at a place of the difference's row, of n.
    pub fn coefficient(&self, n: usize, place: usize) -> i32
        ensures { result ≡ slice_index_or (difference_row n self.now).coefficients place (pos 0) }
    {
        mark(n, self.first, place) - mark(n, self.second, place)
    }

    // The difference's row, of n variables, at most sixteen; none where its right side leaves the row limits.
    pub fn row(&self, n: usize) -> Option<Row>
        ensures { wholes result ≡ (if within right_limit self.now.most then Some (record { coefficients = padded (difference_row (min n 16) self.now).coefficients; right = self.now.most }) else None) }
    {
        if !is_right(self.most) {
            return None;
        }
        let size = n.min(16);
        let items = array::from_fn(|place| self.coefficient(size, place));
        Some(Row {
            coefficients: Coefficients { items },
            right: self.most,
        })
    }
}
