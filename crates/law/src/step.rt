// Steps as values.
use crate::numbers::Numbers;
use crate::premise::{Line, Lines, Places};

// A step with what it brings; an infer has the bytes of a clue. Equality is not derived, as for `Packed`.
#[derive(Clone, Copy)]
pub enum Step<'a> {
    Branch(Numbers, i64),
    Cut(Line<'a>),
    Chain(Lines<'a>),
    Infer(&'a [u8], Places<'a>),
    Cutoff,
    Take(Numbers),
    Drop(usize),
    Pin(Places<'a>),
}
