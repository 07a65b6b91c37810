// The kinds of records, and the phases of a job file.
use fields::letters::out_of_phase;
use terms::fault::Fault;

// What comes next in a job file: the theory's letter, then variables, then rows, then the theory's parts.
#[derive(Clone, Copy, PartialEq, Eq, Debug)]
pub enum Phase {
    Start,
    Variables,
    Rows,
    Parts,
    Ended,
}

// The records of a job file.
#[derive(Clone, Copy, PartialEq, Eq, Debug)]
pub enum Kind {
    Bare,
    Shared,
    OneVat,
    Variable,
    Row,
    Call,
    Batch,
    End,
}

impl Phase {
    ghost use Rattle.std.specs.Prelude.{◌≡◌, OnErr};
    ghost use Rattle.files.specs.JobFiles.{ended, stepped};
    ghost use Rattle.files.specs.JobViews.{moved};

    // The kind of the record that a letter begins; the phase moves on, or stays where the letter does not fit. The match is the table of letters.
    pub(crate) fn step(&mut self, letter: char) -> Result<Kind, Fault>
        ensures phase { moved self.new result ≡ stepped self.old letter }
        ensures stays { OnErr result (self.new ≡ self.old) }
    {
        let (phase, kind) = match (*self, letter) {
            (Phase::Start, 'N') => (Phase::Variables, Kind::Bare),
            (Phase::Start, 'S') => (Phase::Variables, Kind::Shared),
            (Phase::Start, 'O') => (Phase::Variables, Kind::OneVat),
            (Phase::Variables, 'V') => (Phase::Variables, Kind::Variable),
            (Phase::Variables | Phase::Rows, 'R') => (Phase::Rows, Kind::Row),
            (Phase::Variables | Phase::Rows | Phase::Parts, 'F') => (Phase::Parts, Kind::Call),
            (Phase::Variables | Phase::Rows | Phase::Parts, 'W') => (Phase::Parts, Kind::Batch),
            (Phase::Variables | Phase::Rows | Phase::Parts, 'E') => (Phase::Ended, Kind::End),
            _ => return Err(out_of_phase()),
        };
        *self = phase;
        Ok(kind)
    }

    pub(crate) fn is_ended(self) -> bool
        ensures { result ≡ ended self }
    {
        self == Phase::Ended
    }
}
