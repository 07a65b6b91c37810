// Steps that cannot be written, and those whose count is 255.
use crate::steps::{is_fault, line, lines, places, write_within};
use law::numbers::Numbers;
use law::step::Step;
use std::process::Abort;
use std::test::Fail;
use writing::step_writer::write_step;

// A step of the wrong length is refused in any buffer, also in one that is too short, and the buffer stays.
fn wrong_length(
    rt: &impl Abort,
    n: usize,
    width: usize,
    step: Option<Step<'_>>,
) -> Result<(), Fail> {
    let mut out = [0x5a; 1300];
    match write_step(n, width, step, &mut out) {
        Ok(_) => return Err(Fail::new("written")),
        Err(found) => is_fault(rt, found, 2)?,
    }
    assert_eq!(rt; out.as_slice(), [0x5a; 1300].as_slice());
    match write_step(n, width, step, &mut []) {
        Ok(_) => Err(Fail::new("written")),
        Err(found) => is_fault(rt, found, 2),
    }
}

#[test]
fn seventeen_variables(rt: HostRuntime) -> Result<(), Fail> {
    let cases: [Option<Step<'static>>; 9] = [
        Some(Step::Branch(Numbers::from([1; 16].as_slice()), 0)),
        Some(Step::Cut(line(&[0, 0, 1, 0], 1))),
        Some(Step::Chain(lines(0, &[]))),
        Some(Step::Infer(&[0, 1], places(&[]))),
        Some(Step::Cutoff),
        Some(Step::Take(Numbers::from([1; 16].as_slice()))),
        Some(Step::Drop(0)),
        Some(Step::Pin(places(&[0; 68]))),
        None,
    ];
    for step in cases {
        wrong_length(&rt, 17, 2, step)?;
        wrong_length(&rt, usize::MAX, 2, step)?;
    }
    Ok(())
}

#[test]
fn lists_of_numbers(rt: HostRuntime) -> Result<(), Fail> {
    let cases: [(usize, &[i32]); 5] = [
        (0, &[0]),
        (1, &[]),
        (2, &[1]),
        (2, &[1, 1, 0]),
        (15, &[1, 2, 3, 4, 5, 6, 7, 8, 9, 10, 11, 12, 13, 14, 15, 16]),
    ];
    for (n, numbers) in cases {
        wrong_length(&rt, n, 2, Some(Step::Branch(Numbers::from(numbers), 0)))?;
        wrong_length(&rt, n, 2, Some(Step::Take(Numbers::from(numbers))))?;
    }
    Ok(())
}

#[test]
fn places_of_pins(rt: HostRuntime) -> Result<(), Fail> {
    let cases: [(usize, &[u8]); 6] = [
        (0, &[0, 0]),
        (1, &[]),
        (1, &[0, 0]),
        (2, &[0, 0, 0, 0]),
        (2, &[0, 0, 0, 0, 0, 0]),
        (2, &[0, 0, 0, 0, 0, 0, 0, 0, 0, 0]),
    ];
    for (n, bytes) in cases {
        wrong_length(&rt, n, 2, Some(Step::Pin(places(bytes))))?;
    }
    Ok(())
}

#[test]
fn clues(rt: HostRuntime) -> Result<(), Fail> {
    let cases: [(usize, &[u8]); 5] = [
        (0, &[0, 1]),
        (0, &[0]),
        (2, &[]),
        (2, &[0]),
        (2, &[0, 1, 2]),
    ];
    for (width, clue) in cases {
        wrong_length(&rt, 2, width, Some(Step::Infer(clue, places(&[3, 0]))))?;
    }
    Ok(())
}

// The clue is the first two bytes of the places.
fn infer(listed: &[u8]) -> Step<'_> {
    Step::Infer(&listed[..listed.len().min(2)], places(listed))
}

// Premises, lines and places that a byte cannot count.
#[test]
fn two_hundred_fifty_six(rt: HostRuntime) -> Result<(), Fail> {
    let bytes = [0; 1280];
    let premises = line(&bytes[..1024], 1);
    wrong_length(&rt, 2, 2, Some(Step::Cut(premises)))?;
    let listed = lines(256, &bytes);
    wrong_length(&rt, 2, 2, Some(Step::Chain(listed)))?;
    let step = infer(&bytes[..512]);
    wrong_length(&rt, 2, 2, Some(step))
}

// Places that two bytes cannot hold.
#[test]
fn drops_past_every_record(rt: HostRuntime) -> Result<(), Fail> {
    wrong_length(&rt, 2, 2, Some(Step::Drop(65_536)))?;
    wrong_length(&rt, 2, 2, Some(Step::Drop(70_000)))
}

// The letter and the bytes after it, of a record of so many bytes; a buffer with a byte less is too short.
fn writes_long(rt: &impl Abort, step: Step<'_>, length: usize, front: &[u8]) -> Result<(), Fail> {
    let mut out = [0x5a; 1300];
    match write_within(2, 2, Some(step), length.saturating_sub(1), &mut out) {
        Ok(_) => return Err(Fail::new("written")),
        Err(found) => is_fault(rt, found, 23)?,
    }
    assert_eq!(rt; out.as_slice(), [0x5a; 1300].as_slice());
    assert_eq!(rt; write_step(2, 2, Some(step), &mut out)?, length);
    assert_eq!(rt; &out[..front.len().min(1300)], front);
    assert_eq!(rt; &out[length.min(1300)..], &[0x5a; 1300][length.min(1300)..]);
    Ok(())
}

#[test]
fn two_hundred_fifty_five(rt: HostRuntime) -> Result<(), Fail> {
    let bytes = [0; 1275];
    let premises = line(&bytes[..1020], 1);
    writes_long(&rt, Step::Cut(premises), 1026, b"C\xff\0")?;
    let listed = lines(255, &bytes);
    writes_long(&rt, Step::Chain(listed), 1277, b"L\xff\0")?;
    let step = infer(&bytes[..510]);
    writes_long(&rt, step, 514, b"I\0\0\xff\0")
}

// Nothing goes into a buffer of no bytes.
#[test]
fn no_buffer(rt: HostRuntime) -> Result<(), Fail> {
    let cases: [Option<Step<'static>>; 9] = [
        Some(Step::Branch(Numbers::from([1, 0].as_slice()), 0)),
        Some(Step::Cut(line(&[0, 0, 1, 0], 1))),
        Some(Step::Chain(lines(0, &[]))),
        Some(Step::Infer(&[0, 1], places(&[]))),
        Some(Step::Cutoff),
        Some(Step::Take(Numbers::from([0, 0].as_slice()))),
        Some(Step::Drop(0)),
        Some(Step::Pin(places(&[0; 8]))),
        None,
    ];
    for step in cases {
        match write_step(2, 2, step, &mut []) {
            Ok(_) => return Err(Fail::new("written")),
            Err(found) => is_fault(&rt, found, 23)?,
        }
    }
    Ok(())
}
