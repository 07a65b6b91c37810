// The job of two batches, torn at every byte.
use crate::outcome::{accepts, refuses};
use files::job_file::read_job;
use files::place::rest;
use files::theory::FileTheory;
use std::test::Fail;

const JOB: &[u8] =
    b"OV\x01\0\0\0V\x01\0\0\0RG\x01\0\x01\0\0\0\0\0\0\0\0\0\0\0RG\x02\0\x01\0\0\0\0\0\0\0\0\0\0\0W\0\x03\0\0\0W\x01\x02\0\0\0E";

// A copy torn within a record, or just before it, ends in that record.
#[test]
fn torn_at_every_byte(rt: HostRuntime) {
    assert_eq!(rt; JOB.len(), 56);
    let records: [(usize, usize, usize); 8] = [
        (0, 0, 1),
        (1, 1, 6),
        (2, 6, 11),
        (3, 11, 27),
        (4, 27, 43),
        (5, 43, 49),
        (6, 49, 55),
        (7, 55, 56),
    ];
    for (nth, from, to) in records {
        for length in from..to {
            let torn = &JOB[0..length.min(JOB.len())];
            refuses(&rt, torn, 19, nth, from, 0);
        }
    }
    accepts(&rt, JOB);
}

#[test]
fn the_job_of_two_batches(rt: HostRuntime) -> Result<(), Fail> {
    match read_job(JOB) {
        Err(_) => Err(Fail::new("refused")),
        Ok(file) => {
            assert_eq!(rt; file.job.size(), 2);
            assert_eq!(rt; file.job.costs(), [1, 1].as_slice());
            assert_eq!(rt; file.job.rows().len(), 2);
            let FileTheory::OneVat(vat) = &file.theory else {
                return Err(Fail::new("another theory"));
            };
            assert_eq!(rt; vat.batches().len(), 2);
            Ok(())
        }
    }
}

// The bytes at the fault of a torn copy are the torn record.
#[test]
fn the_rest_of_a_torn_copy(rt: HostRuntime) -> Result<(), Fail> {
    match read_job(&JOB[0..30.min(JOB.len())]) {
        Ok(_) => Err(Fail::new("accepted")),
        Err(fault) => {
            assert_eq!(rt;
                rest(&JOB[0..30.min(JOB.len())], b"", &fault),
                b"RG\x02".as_slice()
            );
            Ok(())
        },
    }
}
