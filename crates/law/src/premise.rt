// The lists that steps bring, as they stand in files: parts of bytes that are read where they are needed.

// A row of the table, so many times.
#[derive(Clone, Copy, Debug, PartialEq, Eq)]
pub struct Premise {
    pub place: u16,
    pub multiplier: u16,
}

// A premise as four bytes: the place, and then the multiplier.
impl From<[u8; 4]> for Premise {
    ghost use Rattle.std.specs.Prelude.{◌≡◌};
    ghost use Rattle.law.specs.Spelt.{premise_in};

    ghost from_gives = { λ bytes premise. premise ≡ premise_in bytes };

    fn from([p0, p1, m0, m1]: [u8; 4]) -> Premise {
        Premise {
            place: u16::from_le_bytes([p0, p1]),
            multiplier: u16::from_le_bytes([m0, m1]),
        }
    }
}

// Items of N bytes each, one after another.
// Equality is not derived, since at some N an item is larger than the memory.
#[derive(Clone, Copy)]
pub struct Packed<'a, const N: usize> {
    pub items: &'a [[u8; N]],
}

// Premises, four bytes each: `Premise::from` reads one.
pub type Premises<'a> = Packed<'a, 4>;

// Places, two bytes each: `u16::from_le_bytes` reads one.
pub type Places<'a> = Packed<'a, 2>;

// Premises that are summed, and what the sum is divided by. Equality is not derived, as for `Packed`.
#[derive(Clone, Copy)]
pub struct Line<'a> {
    pub premises: Premises<'a>,
    pub divisor: u32,
}

// So many lines, one after another: a count of premises, the premises, and a divisor of four bytes.
// They stand as bytes beside their number, since no two need have one length; equality is not derived, since equal lines may
// differ in the bytes after them.
#[derive(Clone, Copy, Debug)]
pub struct Lines<'a> {
    pub count: usize,
    pub bytes: &'a [u8],
}
