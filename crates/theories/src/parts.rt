// What the theories are made of.
ghost use Rattle.std.specs.Prelude.{◌≡◌, [], ◌∷◌};

// A call of a function: its number, the places of its arguments and of its result. Second place 16: no second argument.
// It is a number and not an Option, since place 16 reads 0 as any place past a plan's end does.
#[derive(Clone, Copy, Default, PartialEq, Eq, Debug)]
pub struct Call {
    pub function: u8,
    pub first: u8,
    pub second: u8,
    pub result: u8,
}

// A call by its four bytes.
impl From<[u8; 4]> for Call {
    ghost from_gives = { λ bytes call. bytes ≡ call.function ∷ call.first ∷ call.second ∷ call.result ∷ [] };

    fn from(bytes: [u8; 4]) -> Call {
        let [function, first, second, result] = bytes;
        Call {
            function,
            first,
            second,
            result,
        }
    }
}

// A batch in the vat: the place of its start, and how long it takes.
#[derive(Clone, Copy, Default, PartialEq, Eq, Debug)]
pub struct Batch {
    pub start: u8,
    pub duration: u32,
}

// A clue that names two calls or two batches by their numbers from 0.
#[derive(Clone, Copy, Default, PartialEq, Eq, Debug)]
pub struct Pair {
    pub one: u8,
    pub other: u8,
}

// A clue by its two bytes.
impl From<[u8; 2]> for Pair {
    ghost from_gives = { λ bytes pair. bytes ≡ pair.one ∷ pair.other ∷ [] };

    fn from(bytes: [u8; 2]) -> Pair {
        let [one, other] = bytes;
        Pair { one, other }
    }
}
