// The bare theory: it admits every plan and has no rule.
ghost use Rattle.theories.specs.Bare.{bare, no_bytes};
ghost use Rattle.theories.specs.Laws.{no_bytes_sized};

use crate::theory::{Theory, no_rule};
use terms::difference::Difference;
use terms::fault::Fault;

#[derive(Drop)]
pub struct Bare;

impl Theory for Bare {
    type Clue = ();

    ghost means = { λ _. bare };

    ghost width = { 0 };

    ghost reads = { no_bytes };

    ghost lawful = { λ _ _. tt };

    ghost sized = { no_bytes_sized };

    fn clue_length() -> usize {
        0
    }

    fn clue(bytes: &[u8]) -> Result<(), Fault> {
        match bytes {
            [] => Ok(()),
            _ => Err(no_rule()),
        }
    }

    fn admitted(&self, _plan: &[i32]) -> bool {
        true
    }

    fn premises(&self, _clue: &()) -> Result<usize, Fault> {
        Err(no_rule())
    }

    fn premise(&self, _clue: &(), _index: usize) -> Result<Difference, Fault> {
        Err(no_rule())
    }

    fn conclusion(&self, _clue: &()) -> Result<Difference, Fault> {
        Err(no_rule())
    }
}
