// Numbers at the front of a file's bytes, little-endian, and the bytes after them.
ghost use Rattle.std.specs.Prelude.{◌≡◌, ℕ, ◌^◌, ◌<◌, List, slice_index, take};
ghost use Rattle.std.specs.Int.{w32, w64};
ghost use Rattle.std.proofs.Common.{ap, to_z, rules};
ghost use Rattle.std.proofs.lemmas.List.{get_or-take};
ghost use Rattle.terms.specs.Bytes.{nat16, nat32, nat64};
ghost use Rattle.fields.specs.Bytes.{ends, number_read};
ghost use Rattle.fields.specs.Rest.{with_rest};

use terms::fault::{Cause, Fault};

// The refusal of a file that ends in a record or before its end.
pub fn file_ends() -> Fault
    ensures { result ≡ ends }
{
    Cause::FileEnds.into()
}

// A value that N bytes of a file spell, whatever follows them.
pub trait Field<const N: usize>: Sized {
    ghost spelt: { List ℕ → Self };

    fn from_bytes(bytes: &[u8; N]) -> Self
        ensures { result ≡ spelt bytes.now };

    ghost few: { N < 2 ^ 63 };

    ghost whatever_follows: { (bs : List ℕ) → spelt (take N bs) ≡ spelt bs };
}

// The value at the front of the bytes, and the bytes after it.
pub fn read<T: Field<N>, const N: usize>(bytes: &[u8]) -> Result<(T, &[u8]), Fault>
    ensures { with_rest result ≡ number_read N T.spelt bytes.now }
{
    let (front, rest) = bytes.split_first_chunk().ok_or(Cause::FileEnds)?;
    Ok((T::from_bytes(front), rest))
}

impl Field<1> for u8 {
    ghost spelt = { λ bs. slice_index bs 0 };

    ghost few = { Prim.search rules };

    ghost whatever_follows = { Prim.search (rules, get_or-take) };

    fn from_bytes(bytes: &[u8; 1]) -> u8 {
        u8::from_le_bytes(*bytes)
    }
}

impl Field<2> for u16 {
    ghost spelt = { nat16 };

    ghost few = { Prim.search rules };

    ghost whatever_follows = { Prim.search (rules, get_or-take) };

    fn from_bytes(bytes: &[u8; 2]) -> u16 {
        u16::from_le_bytes(*bytes)
    }
}

impl Field<4> for u32 {
    ghost spelt = { nat32 };

    ghost few = { Prim.search rules };

    ghost whatever_follows = { Prim.search (rules, get_or-take) };

    fn from_bytes(bytes: &[u8; 4]) -> u32 {
        u32::from_le_bytes(*bytes)
    }
}

impl Field<4> for i32 {
    ghost spelt = { λ bs. to_z w32 (nat32 bs) };

    ghost few = { Prim.search rules };

    ghost whatever_follows = { Prim.search (rules, get_or-take) };

    fn from_bytes(bytes: &[u8; 4]) -> i32 {
        i32::from_le_bytes(*bytes)
    }
}

impl Field<8> for i64 {
    ghost spelt = { λ bs. to_z w64 (nat64 bs) };

    ghost few = { Prim.search rules };

    ghost whatever_follows = { Prim.search (rules, get_or-take) };

    fn from_bytes(bytes: &[u8; 8]) -> i64 {
        i64::from_le_bytes(*bytes)
    }
}
