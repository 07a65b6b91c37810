// How a fault gains its place, and what lies there.
ghost use Rattle.std.specs.Prelude.{◌≡◌};
ghost use Rattle.files.specs.Places.{placed, rest_of};

use crate::fault::{File, FileFault};
use terms::fault::Fault;

// The answer with its fault, if it is one, at a place.
pub fn at<T>(answer: Result<T, Fault>, file: File, nth: usize, byte: usize) -> Result<T, FileFault>
    ensures { result ≡ placed file nth byte answer }
{
    answer.map_err(|fault| FileFault {
        fault,
        file,
        nth,
        byte,
    })
}

// The bytes from a fault's record on, as a part of the file in which it lies; none past that file's end.
pub fn rest<'a>(job: &'a [u8], trace: &'a [u8], fault: &FileFault) -> &'a [u8]
    ensures { result.now ≡ rest_of fault.now job.now trace.now }
{
    let file = match fault.file {
        File::Job => job,
        File::Trace => trace,
    };
    let byte = fault.byte.min(file.len());
    &file[byte..]
}
