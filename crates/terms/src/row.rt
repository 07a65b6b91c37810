// Rows as they are stored: sixteen places wide, within the row limits by their type.
ghost use Rattle.std.specs.Prelude.{◌≡◌, ℕ, ◌≤◌, length, pos, slice_index_or, unsigned_abs};

// Sixteen whole numbers within 1,000,000 of zero: sixteen for any number of variables, so that a row has one size and its memory is fixed.
#[derive(Clone, Copy, PartialEq, Eq, Debug)]
pub struct Coefficients {
    pub items: [i32; 16],
    ghost long: { length items ≡ 16 },
    ghost small: { (k : ℕ) → unsigned_abs (slice_index_or items k (pos 0)) ≤ 1000000 },
}

// The sum of coefficient times value is at most the right side.
#[derive(Clone, Copy, PartialEq, Eq, Debug)]
pub struct Row {
    pub coefficients: Coefficients,
    pub right: i64,
    ghost near: { unsigned_abs right ≤ 20000000000000 },
}
