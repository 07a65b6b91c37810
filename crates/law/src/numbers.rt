// Short lists of numbers: how they are made and read.
ghost use Rattle.std.specs.Prelude.{◌≡◌, take};
ghost use Rattle.law.specs.NumbersView.{values_of};

// At most sixteen numbers: the first `count`. An `ArrayVec` is not `Copy`, as steps are.
// Equality is not derived, since equal numbers may differ past their count.
#[derive(Clone, Copy, Debug)]
pub struct Numbers {
    pub items: [i32; 16],
    pub count: usize,
}

// The first sixteen of the values.
impl From<&[i32]> for Numbers {
    ghost from_gives = { λ values numbers. values_of numbers ≡ take 16 values.now };

    fn from(values: &[i32]) -> Numbers {
        let mut items = [0; 16];
        let count = values.len().min(16);
        items[..count].copy_from_slice(&values[..count]);
        Numbers { items, count }
    }
}

impl Numbers {
    // The values.
    pub fn values(&self) -> &[i32]
        ensures { result.now ≡ values_of self.now }
    {
        &self.items[..self.count.min(16)]
    }
}
