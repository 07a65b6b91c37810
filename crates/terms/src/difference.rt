// Differences: bounds on the difference of two values.

// A place is a number, as in the files: one of no variable reads 0 like any past a plan's end, where an Option would be one more case.
// The value at `first` minus the value at `second` is at most `most`. Place 16 is no variable.
#[derive(Clone, Copy, PartialEq, Eq, Debug, Default)]
pub struct Difference {
    pub first: u8,
    pub second: u8,
    pub most: i64,
}
