// How the lists that steps bring are read from their bytes; a byte that is missing counts as 0.
ghost use Rattle.std.specs.Prelude.{◌≡◌, ◌-◌, length, take, drop, slice_index, slice_index_or};
ghost use Rattle.std.specs.Iterator.{YieldsFirstBy, at_most};
ghost use Rattle.terms.specs.Bytes.{nat32};
ghost use Rattle.law.specs.Spelt.{line_in, line_of, lines_of, packed, places_of, premises_of};

use crate::premise::{Line, Lines, Packed, Places, Premise, Premises};

// The bytes before a place, and those from it on; all and none past the end.
fn cut(bytes: &[u8], at: usize) -> (&[u8], &[u8])
    ensures { (result.0.now ≡ take at bytes.now) × (result.1.now ≡ drop at bytes.now) }
{
    bytes.split_at_checked(at).unwrap_or((bytes, &[]))
}

// The number of the first four bytes.
fn first_u32(bytes: &[u8]) -> u32
    ensures { result ≡ nat32 bytes.now }
{
    u32::from_le_bytes([0, 1, 2, 3].map(|at| bytes.get(at).copied().unwrap_or(0)))
}

impl<'a, const N: usize> Packed<'a, N> {
    // The whole items at the front of the bytes; of no bytes each, none.
    pub fn new(bytes: &'a [u8]) -> Packed<'a, N>
        ensures { result.items.now ≡ packed N bytes.now }
    {
        // `as_chunks` is not for an N of 0, and where N is more than the bytes there is no item to hand out.
        if N == 0 || bytes.len() < N {
            return Packed { items: &[] };
        }
        let (items, _) = bytes.as_chunks();
        Packed { items }
    }

    // The number of items.
    pub fn len(&self) -> usize
        ensures { result ≡ length self.now.items.now }
    {
        self.items.len()
    }
}

impl Premises<'_> {
    // A premise; past the end row 0, no times.
    pub fn get(&self, index: usize) -> Premise
        ensures { result ≡ slice_index_or (premises_of self.now) index (record { place = 0; multiplier = 0 }) }
    {
        Premise::from(self.items.get(index).copied().unwrap_or([0; 4]))
    }
}

impl Places<'_> {
    // A place; 0 past the end.
    pub fn get(&self, index: usize) -> u16
        ensures { result ≡ slice_index (places_of self.now) index }
    {
        u16::from_le_bytes(self.items.get(index).copied().unwrap_or([0; 2]))
    }
}

impl<'a> Lines<'a> {
    // How many premises the first line has.
    fn premises(&self) -> u8
        ensures { result ≡ slice_index self.now.bytes.now 0 }
    {
        self.bytes.first().copied().unwrap_or(0)
    }

    // The line that the bytes begin with.
    pub fn first(&self) -> Line<'a>
        ensures { line_of result ≡ line_in self.now.bytes.now }
    {
        let (_, fields) = cut(self.bytes, 1);
        let (premises, divisor) = cut(fields, 4 * usize::from(self.premises()));
        Line {
            premises: Packed::new(premises),
            divisor: first_u32(divisor),
        }
    }

    // The lines after the first.
    pub fn rest(&self) -> Lines<'a>
        ensures lines { lines_of result ≡ drop 1 (lines_of self.now) }
        ensures count { result.count ≡ self.now.count - 1 }
    {
        let (_, bytes) = cut(self.bytes, 5 + 4 * usize::from(self.premises()));
        Lines {
            count: self.count.saturating_sub(1),
            bytes,
        }
    }
}

// As many lines as are counted.
impl<'a> Iterator for Lines<'a> {
    type Item = Line<'a>;

    ghost next_gives = { YieldsFirstBy line_of lines_of };

    ghost remaining = { λ lines. at_most lines.count };

    fn next(&mut self) -> Option<Line<'a>> {
        if self.count == 0 {
            return None;
        }
        let line = self.first();
        let rest = self.rest();
        *self = rest;
        Some(line)
    }
}
