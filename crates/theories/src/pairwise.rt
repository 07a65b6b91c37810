// A theory of up to 16 parts, told two by two.
ghost use Rattle.std.specs.Prelude.{◌≡◌, [], All};
ghost use Rattle.theories.specs.Clues.{two_bytes};
ghost use Rattle.theories.specs.Pairwise.{Passes, pairwise, part_added, parts_picked};
ghost use Rattle.theories.specs.Laws.{kept_lawful, two_bytes_sized};

use crate::pairs::{RuledPart, suits_every_two};
use crate::parts::Pair;
use crate::theory::{Theory, no_rule, two_bytes};
use arrayvec::ArrayVec;
use terms::checks::need;
use terms::difference::Difference;
use terms::fault::{Cause, Fault};

#[derive(Drop)]
pub struct Pairwise<P: RuledPart> {
    parts: ArrayVec<P, 16>,
    ghost kept: { All (Passes P.RuledPart.kind) parts.items },
}

impl<P: RuledPart> Pairwise<P> {
    // No part yet.
    pub fn new() -> Self
        ensures { result.parts.items ≡ [] }
    {
        Pairwise {
            parts: ArrayVec::new(),
        }
    }

    // The parts so far.
    pub fn parts(&self) -> &[P]
        ensures { result.now ≡ self.now.parts.items }
    {
        self.parts.as_slice()
    }

    // One part more, which has passed its checks.
    pub fn add(&mut self, part: P) -> Result<(), Fault>
        ensures { (self.new.parts.items, result) ≡ part_added P.RuledPart.kind self.old.parts.items part }
    {
        part.check()?;
        need(!self.parts.is_full(), Cause::Full, 0)?;
        self.parts.push(part);
        Ok(())
    }

    // The two parts that a clue names, where it has a rule.
    fn named(&self, clue: &Pair) -> Option<(P, P)>
        ensures { result ≡ parts_picked P.RuledPart.kind self.now.parts.items clue.now }
    {
        let one = *self.parts.get(clue.one as usize)?;
        let other = *self.parts.get(clue.other as usize)?;
        one.has_rule(&other, clue).then_some((one, other))
    }
}

impl<P: RuledPart> Theory for Pairwise<P> {
    type Clue = Pair;

    ghost means = { λ t. pairwise P.RuledPart.kind t.parts.items };

    ghost width = { 2 };

    ghost reads = { two_bytes };

    ghost lawful = { λ t. kept_lawful P.RuledPart.kind t.parts.items P.RuledPart.rightful t.kept };

    ghost sized = { two_bytes_sized };

    fn clue_length() -> usize {
        2
    }

    fn clue(bytes: &[u8]) -> Result<Pair, Fault> {
        two_bytes(bytes)
    }

    fn admitted(&self, plan: &[i32]) -> bool {
        suits_every_two(self.parts(), plan)
    }

    fn premises(&self, clue: &Pair) -> Result<usize, Fault> {
        let (one, other) = self.named(clue).ok_or(no_rule())?;
        Ok(one.premises(&other).len())
    }

    fn premise(&self, clue: &Pair, index: usize) -> Result<Difference, Fault> {
        let (one, other) = self.named(clue).ok_or(no_rule())?;
        one.premises(&other).get(index).copied().ok_or(no_rule())
    }

    fn conclusion(&self, clue: &Pair) -> Result<Difference, Fault> {
        let (one, other) = self.named(clue).ok_or(no_rule())?;
        Ok(one.conclusion(&other))
    }
}
