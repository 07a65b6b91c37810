// Rows times their multipliers, added.
ghost use Rattle.std.specs.Prelude.{◌≡◌, ℕ, ◌+◌, ◌*◌, ◌^◌, ◌<◌, length, replicate, pos, ◌+ℤ◌, ◌*ℤ◌, slice_index_or, unsigned_abs};

use terms::row::Row;

// Sixteen sums of coefficients, as rows are sixteen wide, and the sum of the right sides.
#[derive(Clone, Copy)]
pub(crate) struct Sums {
    pub(crate) coefficients: [i64; 16],
    pub(crate) right: i64,
    ghost long: { length coefficients ≡ 16 },
}

// No rows yet.
impl Default for Sums {
    ghost is_default = { λ sums. (sums.coefficients ≡ replicate 16 (pos 0)) × (sums.right ≡ pos 0) };

    fn default() -> Sums {
        Sums {
            coefficients: [0; 16],
            right: 0,
        }
    }
}

impl Sums {
    // So many times a row more.
    pub(crate) fn add(&mut self, row: &Row, multiplier: u16)
        requires fits { (k : ℕ) → k < 16 → unsigned_abs (slice_index_or self.old.coefficients k (pos 0)) + multiplier * unsigned_abs (slice_index_or row.now.coefficients.items k (pos 0)) < 2 ^ 63 }
        requires right_fits { unsigned_abs self.old.right + multiplier * unsigned_abs row.now.right < 2 ^ 63 }
        ensures coefficients { (k : ℕ) → k < 16 → slice_index_or self.new.coefficients k (pos 0) ≡ slice_index_or self.old.coefficients k (pos 0) +ℤ pos multiplier *ℤ slice_index_or row.now.coefficients.items k (pos 0) }
        ensures right { self.new.right ≡ self.old.right +ℤ pos multiplier *ℤ row.now.right }
    {
        // By number: of what is written through an adapter of `iter_mut` a proof knows nothing.
        for (i, number) in row.coefficients.items.iter().enumerate() {
            self.coefficients[i] += multiplier as i64 * *number as i64;
        }
        self.right += multiplier as i64 * row.right;
    }
}
