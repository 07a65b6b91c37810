// How the records of a trace file are laid out.
ghost use Rattle.std.specs.Prelude.{◌≡◌, ◌≤◌, min};

// Records for so many variables, at most sixteen, and with clues of so many bytes.
#[derive(Clone, Copy)]
pub(crate) struct Layout {
    pub(crate) n: usize,
    pub(crate) width: usize,
    ghost few: { n ≤ 16 },
}

impl Layout {
    // More variables than sixteen count as sixteen.
    pub(crate) fn new(n: usize, width: usize) -> Layout
        ensures { (result.n ≡ min n 16) × (result.width ≡ width) }
    {
        Layout {
            n: n.min(16),
            width,
        }
    }
}
