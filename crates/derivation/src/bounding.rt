// What a row of the table says of a difference.
ghost use Rattle.std.specs.Prelude.{◌≡◌};
ghost use Rattle.terms.specs.Integers.{eq_zs};
ghost use Rattle.terms.specs.Rows.{difference_row};
ghost use Rattle.terms.specs.Stored.{row_of};
ghost use Rattle.law.specs.Bounds.{bound, empty, stands_for};

use terms::difference::Difference;
use terms::row::Row;

// n is the table's, row and difference stand where they are: a type of the three would be made anew for each question.

// Whether a row has a difference's coefficients.
fn has_coefficients(n: usize, row: &Row, d: &Difference) -> bool
    ensures { result ≡ eq_zs (row_of n row.now).coefficients (difference_row n d.now).coefficients }
{
    row.coefficients
        .items
        .iter()
        .take(n)
        .copied()
        .eq((0..n).map(|place| d.coefficient(n, place)))
}

// The most that a row allows a difference, if it is about that difference.
pub(crate) fn bound(n: usize, row: &Row, d: &Difference) -> Option<i64>
    ensures { result ≡ bound (difference_row n d.now).coefficients (row_of n row.now) }
{
    has_coefficients(n, row, d).then_some(row.right)
}

// Whether a row stands for a difference.
pub(crate) fn stands_for(n: usize, row: &Row, d: &Difference) -> bool
    ensures { result ≡ stands_for n d.now (row_of n row.now) }
{
    bound(n, row, d).is_some_and(|most| most <= d.most)
}

// Whether a difference's row has no coefficients.
pub(crate) fn is_empty(n: usize, d: &Difference) -> bool
    ensures { result ≡ empty n d.now }
{
    (0..n).all(|place| 0 == d.coefficient(n, place))
}
