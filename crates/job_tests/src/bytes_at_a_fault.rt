// The bytes from a fault on.
use files::fault::{File, FileFault};
use files::place::rest;
use terms::fault::{Cause, Fault};

fn fault_at(file: File, byte: usize) -> FileFault {
    FileFault {
        fault: Fault {
            cause: Cause::FileEnds,
            spot: 0,
            line: 0,
        },
        file,
        nth: 0,
        byte,
    }
}

#[test]
fn from_the_fault_on(rt: HostRuntime) {
    let cases: [(File, usize, &[u8]); 7] = [
        (File::Job, 0, b"job"),
        (File::Job, 1, b"ob"),
        (File::Job, 3, b""),
        (File::Job, 4, b""),
        (File::Trace, 0, b"trace"),
        (File::Trace, 4, b"e"),
        (File::Trace, 65_537, b""),
    ];
    for (file, byte, expected) in cases {
        assert_eq!(rt; rest(b"job", b"trace", &fault_at(file, byte)), expected);
    }
}
