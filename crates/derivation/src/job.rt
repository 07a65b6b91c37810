// Jobs as they are stored: up to 16 variables and 64 rows.
ghost use Rattle.std.specs.Prelude.{◌≡◌, ◌≤◌, true};
ghost use Rattle.derivation.specs.Blank.{rows_blank};

use arrayvec::ArrayVec;
use terms::row::{Coefficients, Row};

// The first `size` costs count; a row reads 0 from `size` on. A row is sixteen wide for any number of variables, as its type is.
#[derive(Drop)]
pub struct Job {
    pub(crate) costs: Coefficients,
    pub(crate) size: usize,
    pub(crate) rows: ArrayVec<Row, 64>,
    ghost narrow: { size ≤ 16 },
    ghost blank: { rows_blank size rows.items ≡ true },
}
