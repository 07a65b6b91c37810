// Steps of each kind, written.
use crate::steps::{is_fault, line, lines, places, write_within};
use crate::two_batches::TRACE;
use law::numbers::Numbers;
use law::step::Step;
use std::process::Abort;
use std::test::Fail;
use writing::step_writer::write_step;

// The record stands at the front, and what is behind it stays.
fn stands(rt: &impl Abort, out: &[u8], record: &[u8]) {
    let length = record.len().min(out.len());
    assert_eq!(rt; &out[..length], record);
    assert!(rt; out[length..].iter().all(|byte| *byte == 0x5a));
}

// The steps of the two batches, and the end.
fn steps() -> [Option<Step<'static>>; 8] {
    [
        Some(Step::Take(Numbers::from([2, 0].as_slice()))),
        Some(Step::Cutoff),
        Some(Step::Cut(line(&[2, 0, 1, 0, 0, 0, 2, 0], 1))),
        Some(Step::Infer(&[0, 1], places(&[3, 0]))),
        Some(Step::Cut(line(&[2, 0, 1, 0, 4, 0, 1, 0], 2))),
        Some(Step::Cut(line(&[1, 0, 1, 0, 5, 0, 1, 0], 1))),
        Some(Step::Drop(6)),
        None,
    ]
}

// Writes them one after another; the length in all.
fn write_all(out: &mut [u8]) -> Result<usize, Fail> {
    let mut at = 0;
    for step in steps() {
        let from = at.min(out.len());
        at = from.saturating_add(write_step(2, 2, step, &mut out[from..])?);
    }
    Ok(at)
}

#[test]
fn the_trace_of_two_batches(rt: HostRuntime) -> Result<(), Fail> {
    let mut out = [0x5a; 64];
    assert_eq!(rt; write_all(&mut out)?, 60);
    stands(&rt, &out, TRACE);
    Ok(())
}

// A buffer of just the length will do; one byte less is refused and stays.
fn fits(
    rt: &impl Abort,
    n: usize,
    width: usize,
    step: Option<Step<'_>>,
    record: &[u8],
) -> Result<(), Fail> {
    let mut out = [0x5a; 80];
    match write_within(n, width, step, record.len().saturating_sub(1), &mut out) {
        Ok(_) => return Err(Fail::new("written")),
        Err(found) => is_fault(rt, found, 23)?,
    }
    stands(rt, &out, &[]);
    assert_eq!(rt;
        write_within(n, width, step, record.len(), &mut out)?,
        record.len()
    );
    stands(rt, &out, record);
    Ok(())
}

// A step is written as this record, in a buffer with room to spare and in one without.
fn writes(
    rt: &impl Abort,
    n: usize,
    width: usize,
    step: Option<Step<'_>>,
    record: &[u8],
) -> Result<(), Fail> {
    let mut out = [0x5a; 80];
    assert_eq!(rt; write_step(n, width, step, &mut out)?, record.len());
    stands(rt, &out, record);
    fits(rt, n, width, step, record)
}

// Zeros have no bit.
#[test]
fn branches(rt: HostRuntime) -> Result<(), Fail> {
    let cases: [(&[i32], i64, &[u8]); 6] = [
        (&[], 0, b"B\0\0\0\0\0\0\0\0\0\0"),
        (&[0], i64::MAX, b"B\0\0\xff\xff\xff\xff\xff\xff\xff\x7f"),
        (&[0, 0], i64::MIN, b"B\0\0\0\0\0\0\0\0\0\x80"),
        (
            &[-1, 2],
            -2,
            b"B\x03\0\xff\xff\xff\xff\x02\0\0\0\xfe\xff\xff\xff\xff\xff\xff\xff",
        ),
        (
            &[i32::MIN, 0, i32::MAX],
            0x0102_0304_0506_0708,
            b"B\x05\0\0\0\0\x80\xff\xff\xff\x7f\x08\x07\x06\x05\x04\x03\x02\x01",
        ),
        (
            &[0, 0, 0, 0, 0, 0, 0, 1, 2, 0, 0, 0, 0, 0, 0, -3],
            4,
            b"B\x80\x81\x01\0\0\0\x02\0\0\0\xfd\xff\xff\xff\x04\0\0\0\0\0\0\0",
        ),
    ];
    for (numbers, right, record) in cases {
        let step = Step::Branch(Numbers::from(numbers), right);
        writes(&rt, numbers.len(), 0, Some(step), record)?;
    }
    Ok(())
}

#[test]
fn takes(rt: HostRuntime) -> Result<(), Fail> {
    let cases: [(&[i32], &[u8]); 6] = [
        (&[], b"T\0\0"),
        (&[0, 0], b"T\0\0"),
        (&[0, 2], b"T\x02\0\x02\0\0\0"),
        (&[i32::MAX, i32::MIN], b"T\x03\0\xff\xff\xff\x7f\0\0\0\x80"),
        (
            &[-1, 0, 0, 0, 0, 0, 0, 0, -2],
            b"T\x01\x01\xff\xff\xff\xff\xfe\xff\xff\xff",
        ),
        (
            &[1, 2, 3, 4, 5, 6, 7, 8, 9, 10, 11, 12, 13, 14, 15, 16],
            b"T\xff\xff\x01\0\0\0\x02\0\0\0\x03\0\0\0\x04\0\0\0\x05\0\0\0\x06\0\0\0\x07\0\0\0\x08\0\0\0\x09\0\0\0\x0a\0\0\0\x0b\0\0\0\x0c\0\0\0\x0d\0\0\0\x0e\0\0\0\x0f\0\0\0\x10\0\0\0",
        ),
    ];
    for (numbers, record) in cases {
        let step = Step::Take(Numbers::from(numbers));
        writes(&rt, numbers.len(), 2, Some(step), record)?;
    }
    Ok(())
}

// Numbers that the check would refuse are written as they stand.
#[test]
fn cuts(rt: HostRuntime) -> Result<(), Fail> {
    let cases: [(&[u8], u32, &[u8]); 4] = [
        (&[], 0, b"C\0\0\0\0\0"),
        (&[0, 0, 0, 0], 0, b"C\x01\0\0\0\0\0\0\0\0"),
        (
            &[255, 255, 255, 255],
            u32::MAX,
            b"C\x01\xff\xff\xff\xff\xff\xff\xff\xff",
        ),
        (
            &[2, 1, 4, 3, 6, 5, 8, 7],
            0x090a_0b0c,
            b"C\x02\x02\x01\x04\x03\x06\x05\x08\x07\x0c\x0b\x0a\x09",
        ),
    ];
    for (premises, divisor, record) in cases {
        writes(&rt, 2, 2, Some(Step::Cut(line(premises, divisor))), record)?;
    }
    Ok(())
}

// Bytes after the last line are none of the chain's.
#[test]
fn chains(rt: HostRuntime) -> Result<(), Fail> {
    let cases: [(usize, &[u8], &[u8]); 5] = [
        (0, b"", b"L\0"),
        (0, b"\x01\0\0", b"L\0"),
        (1, b"\0\x01\0\0\0", b"L\x01\0\x01\0\0\0"),
        (
            2,
            b"\x01\0\0\x01\0\x01\0\0\0\x01\x03\0\x01\0\x01\0\0\0",
            b"L\x02\x01\0\0\x01\0\x01\0\0\0\x01\x03\0\x01\0\x01\0\0\0",
        ),
        (
            1,
            b"\x01\0\0\x01\0\x01\0\0\0\x01\x03\0\x01\0\x01\0\0\0",
            b"L\x01\x01\0\0\x01\0\x01\0\0\0",
        ),
    ];
    for (count, bytes, record) in cases {
        writes(&rt, 2, 2, Some(Step::Chain(lines(count, bytes))), record)?;
    }
    Ok(())
}

// The clue has as many bytes as the theory's have.
#[test]
fn infers(rt: HostRuntime) -> Result<(), Fail> {
    let cases: [(&[u8], &[u8], &[u8]); 4] = [
        (&[0, 1], &[3, 0], b"I\0\x01\x01\x03\0"),
        (&[255, 254], &[], b"I\xff\xfe\0"),
        (&[], &[2, 0], b"I\x01\x02\0"),
        (b"E", &[0, 0, 255, 255, 2, 1], b"IE\x03\0\0\xff\xff\x02\x01"),
    ];
    for (clue, listed, record) in cases {
        let step = Step::Infer(clue, places(listed));
        writes(&rt, 2, clue.len(), Some(step), record)?;
    }
    Ok(())
}

#[test]
fn pins_cutoffs_drops_and_ends(rt: HostRuntime) -> Result<(), Fail> {
    let cases: [(usize, Option<Step<'static>>, &[u8]); 7] = [
        (0, Some(Step::Pin(places(&[]))), b"P"),
        (
            1,
            Some(Step::Pin(places(&[2, 1, 255, 255]))),
            b"P\x02\x01\xff\xff",
        ),
        (
            2,
            Some(Step::Pin(places(&[1, 0, 2, 0, 3, 0, 4, 0]))),
            b"P\x01\0\x02\0\x03\0\x04\0",
        ),
        (16, Some(Step::Cutoff), b"K"),
        (2, Some(Step::Drop(0x0102)), b"D\x02\x01"),
        (0, Some(Step::Drop(65_535)), b"D\xff\xff"),
        (16, None, b"E"),
    ];
    for (n, step, record) in cases {
        writes(&rt, n, 2, step, record)?;
    }
    Ok(())
}
