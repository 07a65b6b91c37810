// The table of a proof as it is stored.
ghost use Rattle.std.specs.Prelude.{◌≡◌, ◌≤◌, true, length};
ghost use Rattle.derivation.specs.Stacked.{heights_of, rights_of, stacked};

use crate::row_stack::RowStack;
use arrayvec::ArrayVec;

// The first `given` rows are the job's. While a subproblem is open the others wait, each by a height, the newest last.
#[derive(Drop)]
pub struct Table {
    pub(crate) size: usize,
    pub(crate) given: usize,
    pub(crate) rows: RowStack,
    pub(crate) waiting: Option<ArrayVec<usize, 512>>,
    ghost narrow: { size ≤ 16 },
    ghost stack: { stacked given (rights_of rows.items) (length rows.items) (heights_of waiting) ≡ true },
}
