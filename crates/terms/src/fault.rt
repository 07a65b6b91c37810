// Why a call is refused, and where.
ghost use Rattle.std.specs.Prelude.{◌≡◌};

// The causes of refusal, in the order of their numbers 1 to 24.
#[derive(Clone, Copy, PartialEq, Eq, Debug)]
pub enum Cause {
    NothingOpen,
    WrongLength,
    OutOfRange,
    Full,
    NoSuchPlace,
    NotDivisible,
    RowTooLarge,
    NoRule,
    UnknownRelation,
    PlaceNotVariable,
    PremiseNotShown,
    NoPlanTaken,
    RowMissed,
    NotAdmitted,
    NotCheaper,
    NotContradiction,
    NotFixed,
    PointStaysOpen,
    FileEnds,
    LetterOutOfPhase,
    BadMap,
    TrailingBytes,
    BufferTooShort,
    FileTooLong,
}

impl Cause {
    ghost use Rattle.terms.specs.Faults.{fault, number};

    // The number by which files, output and documents name the cause.
    pub fn number(self) -> u8
        ensures { result ≡ number self }
    {
        self as u8 + 1
    }

    // The refusal for this cause at a spot.
    pub fn at(self, spot: usize) -> Fault
        ensures { result ≡ fault self spot }
    {
        Fault {
            cause: self,
            spot,
            line: 0,
        }
    }
}

// A refusal: its cause, the spot counted from 0, and the line of a chain counted from 1, or 0, as it is printed.
#[derive(Clone, Copy, PartialEq, Eq, Debug)]
pub struct Fault {
    pub cause: Cause,
    pub spot: usize,
    pub line: usize,
}

// A cause alone stands for its refusal at spot 0.
impl From<Cause> for Fault {
    ghost use Rattle.std.specs.Prelude.{◌≡◌};
    ghost use Rattle.terms.specs.Faults.{fault};

    ghost from_gives = { λ cause result. result ≡ fault cause 0 };

    fn from(cause: Cause) -> Fault {
        cause.at(0)
    }
}
