// What the tests compare.
use files::fault::File;
use files::job_file::read_job;
use std::process::Abort;
use std::test::Fail;
use terms::fault::Fault;

// A refusal by its number, file, record, byte, line and spot.
#[derive(Clone, Copy, PartialEq, Eq, Debug)]
pub(crate) struct Refusal {
    number: u8,
    file: File,
    nth: usize,
    byte: usize,
    line: usize,
    spot: usize,
}

// The refusal of a job file, if it is refused.
pub(crate) fn outcome(file: &[u8]) -> Option<Refusal> {
    match read_job(file) {
        Ok(_) => None,
        Err(f) => Some(Refusal {
            number: f.fault.cause.number(),
            file: f.file,
            nth: f.nth,
            byte: f.byte,
            line: f.fault.line,
            spot: f.fault.spot,
        }),
    }
}

// A job file is refused: the number, the record, the byte and the spot.
pub(crate) fn refuses(
    rt: &impl Abort,
    file: &[u8],
    number: u8,
    nth: usize,
    byte: usize,
    spot: usize,
) {
    let expected = Refusal {
        number,
        file: File::Job,
        nth,
        byte,
        line: 0,
        spot,
    };
    assert_eq!(rt; outcome(file), Some(expected));
}

pub(crate) fn accepts(rt: &impl Abort, file: &[u8]) {
    assert_eq!(rt; outcome(file), None);
}

// A call answers with a fault of this number and spot.
pub(crate) fn answers<T: Drop>(
    rt: &impl Abort,
    answer: Result<T, Fault>,
    number: u8,
    spot: usize,
) -> Result<(), Fail> {
    match answer {
        Ok(_) => Err(Fail::new("no fault")),
        Err(fault) => {
            assert_eq!(rt;
                (fault.cause.number(), fault.spot, fault.line),
                (number, spot, 0)
            );
            Ok(())
        }
    }
}
