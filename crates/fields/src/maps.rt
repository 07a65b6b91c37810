// Numbers as a map spells them: a bit for each variable, and a number for each bit that is set.
ghost use Rattle.std.specs.Prelude.{◌≡◌, ◌/◌, ◌^◌, ◌<◌, not, ◌&&◌, ◌||◌, pos};
ghost use Rattle.terms.specs.Faults.{answered};
ghost use Rattle.terms.specs.Integers.{eq_z};
ghost use Rattle.fields.specs.Rest.{with_rest};
ghost use Rattle.fields.specs.Maps.{map_fault, map_read, numbers_read, odd, one_read};

use crate::bytes::read;
use terms::checks::need_none;
use terms::fault::{Cause, Fault};

fn is_set(map: u16, place: usize) -> bool
    requires { place < 16 }
    ensures { result ≡ odd (map / 2 ^ place) }
{
    map >> place & 1 == 1
}

// The number of one bit: 0, with no bytes, where it is not set.
fn read_one(set: bool, bytes: &[u8]) -> Result<(i32, &[u8]), Fault>
    ensures { with_rest result ≡ one_read set bytes.now }
{
    if set { read(bytes) } else { Ok((0, bytes)) }
}

// The numbers of a map's sixteen bits, and the bytes after them.
pub fn read_numbers(map: u16, bytes: &[u8]) -> Result<([i32; 16], &[u8]), Fault>
    ensures { with_rest result ≡ numbers_read map bytes.now }
{
    let mut items = [0; 16];
    let mut rest = bytes;
    // By number, which says the bit too: of what is written through an adapter of `iter_mut` a proof knows nothing.
    for i in 0..16 {
        let (number, after) = read_one(is_set(map, i), rest)?;
        items[i] = number;
        rest = after;
    }
    Ok((items, rest))
}

fn is_spelt(set: bool, below: bool, number: i32) -> bool
    ensures { result ≡ (not set || (below && not (eq_z number (pos 0)))) }
{
    !set || (below && number != 0)
}

// A map, and the numbers of its bits: always sixteen, as a row has them.
#[derive(Clone, Copy, PartialEq, Eq, Debug)]
pub struct Mapped {
    pub map: u16,
    pub numbers: [i32; 16],
}

impl Mapped {
    pub fn read(bytes: &[u8]) -> Result<(Mapped, &[u8]), Fault>
        ensures { with_rest result ≡ map_read bytes.now }
    {
        let (map, bytes) = read(bytes)?;
        let (numbers, rest) = read_numbers(map, bytes)?;
        Ok((Mapped { map, numbers }, rest))
    }

    // Refuses at the first bit that is set at no variable, of n, or over a number 0.
    pub fn check(&self, n: usize) -> Result<(), Fault>
        ensures { result ≡ answered (map_fault n self.now.map self.now.numbers) }
    {
        let misspelt = |(i, number): (usize, &i32)| !is_spelt(is_set(self.map, i), i < n, *number);
        need_none(
            self.numbers.iter().enumerate().position(misspelt),
            Cause::BadMap,
        )
    }
}
