// A rule as a theory tells it.
ghost use Rattle.std.specs.Prelude.{◌≡◌, true};
ghost use Rattle.terms.specs.Limits.{right_limit, within};

use arrayvec::ArrayVec;
use terms::difference::Difference;

#[derive(Drop)]
pub struct KnownRule {
    pub(crate) premises: ArrayVec<Difference, 4>,
    pub(crate) conclusion: Difference,
    ghost limited: { within right_limit conclusion.most ≡ true },
}
