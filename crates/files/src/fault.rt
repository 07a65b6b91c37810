// Where in a file a fault lies.
use std::fmt;
use terms::fault::Fault;

#[derive(Clone, Copy, PartialEq, Eq, Debug)]
pub enum File {
    Job,
    Trace,
}

impl File {
    ghost use Rattle.std.specs.Prelude.{◌≡◌};
    ghost use Rattle.files.specs.Refusals.{number_of};

    // The number by which a refusal names the file.
    pub fn number(self) -> u8
        ensures { result ≡ number_of self }
    {
        self as u8 + 1
    }
}

// A fault, its file, the number of its record from 0, and the byte at which that record begins.
#[derive(Clone, Copy, PartialEq, Eq, Debug)]
pub struct FileFault {
    pub fault: Fault,
    pub file: File,
    pub nth: usize,
    pub byte: usize,
}

// `refused`, then number, file, record, byte, line and spot.
impl fmt::Display for FileFault {
    ghost use Rattle.std.specs.Prelude.{Some};
    ghost use Rattle.files.specs.Refusals.{refusal_text};

    ghost output = { λ f. Some (refusal_text f) };

    fn fmt<W: fmt::Write>(&self, f: &mut fmt::Formatter<W>) -> fmt::Result {
        let number = self.fault.cause.number();
        let file = self.file.number();
        let nth = self.nth;
        let byte = self.byte;
        let line = self.fault.line;
        let spot = self.fault.spot;
        write!(f, "refused {number} {file} {nth} {byte} {line} {spot}")
    }
}
