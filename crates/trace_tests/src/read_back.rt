// What was written is read back as the same step, and the bytes behind it are left.
use crate::steps::{line, lines, places, same_step};
use law::numbers::Numbers;
use law::step::Step;
use spelling::step_reader::read_step;
use std::process::Abort;
use std::test::Fail;
use writing::step_writer::write_step;

fn comes_back(rt: &impl Abort, n: usize, width: usize, step: Option<Step<'_>>) -> Result<(), Fail> {
    let mut out = [b'E'; 80];
    let length = write_step(n, width, step, &mut out)?;
    match read_step(n, width, &out) {
        Err(_) => Err(Fail::new("refused")),
        Ok((found, rest)) => {
            same_step(rt, found, step)?;
            assert_eq!(rt; rest, &[b'E'; 80][length.min(80)..]);
            Ok(())
        }
    }
}

#[test]
fn numbers_come_back(rt: HostRuntime) -> Result<(), Fail> {
    let cases: [(&[i32], i64); 7] = [
        (&[], 0),
        (&[], i64::MIN),
        (&[0], i64::MAX),
        (&[1, -1], -1),
        (&[0, i32::MAX, i32::MIN, 0], 20_000_000_000_000),
        (&[0, 0, 0, 0, 0, 0, 0, 0, 256, -256], 65_536),
        (
            &[0, 2, 3, 0, -5, 6, 7, -8, 9, 10, 11, 0, 13, 14, -15, 0],
            255,
        ),
    ];
    for (numbers, right) in cases {
        let numbers = Numbers::from(numbers);
        let n = numbers.values().len();
        comes_back(&rt, n, 0, Some(Step::Branch(numbers, right)))?;
        comes_back(&rt, n, 2, Some(Step::Take(numbers)))?;
    }
    comes_back(
        &rt,
        16,
        2,
        Some(Step::Take(Numbers::from([-1; 16].as_slice()))),
    )
}

#[test]
fn lines_come_back(rt: HostRuntime) -> Result<(), Fail> {
    let cases: [Step<'static>; 6] = [
        Step::Cut(line(&[], 0)),
        Step::Cut(line(&[0, 0, 0, 0], u32::MAX)),
        Step::Cut(line(&[2, 1, 4, 3, 6, 5, 8, 7, 255, 255, 255, 255], 256)),
        Step::Chain(lines(0, &[])),
        Step::Chain(lines(1, &[1, 0, 0, 1, 0, 1, 0, 0, 0])),
        Step::Chain(lines(
            3,
            b"\x01\x05\0\x06\0\x07\0\0\0\0\x08\0\0\0\x02\x09\0\x0a\0\x0b\0\x0c\0\x0d\0\0\0",
        )),
    ];
    for step in cases {
        comes_back(&rt, 3, 2, Some(step))?;
    }
    Ok(())
}

#[test]
fn other_steps_come_back(rt: HostRuntime) -> Result<(), Fail> {
    let cases: [(usize, usize, Option<Step<'static>>); 11] = [
        (2, 2, Some(Step::Infer(&[0, 1], places(&[3, 0])))),
        (2, 2, Some(Step::Infer(&[255, 0], places(&[])))),
        (0, 0, Some(Step::Infer(&[], places(&[1, 2, 3, 4])))),
        (0, 3, Some(Step::Infer(b"EEE", places(&[69, 69])))),
        (0, 2, Some(Step::Pin(places(&[])))),
        (
            3,
            2,
            Some(Step::Pin(places(&[1, 0, 0, 1, 255, 255, 0, 0, 5, 0, 6, 0]))),
        ),
        (16, 2, Some(Step::Pin(places(&[69; 64])))),
        (2, 2, Some(Step::Cutoff)),
        (2, 2, Some(Step::Drop(0))),
        (2, 2, Some(Step::Drop(65_535))),
        (2, 2, None),
    ];
    for (n, width, step) in cases {
        comes_back(&rt, n, width, step)?;
    }
    Ok(())
}
