// Records of each kind, read as steps.
use crate::steps::same_step;
use law::numbers::Numbers;
use law::premise::{Places, Premise, Premises};
use law::step::Step;
use spelling::step_reader::read_step;
use std::process::Abort;
use std::test::Fail;

// The numbers 1 to 16, each under its bit.
const ALL_BITS: &[u8] =
    b"T\xff\xff\x01\0\0\0\x02\0\0\0\x03\0\0\0\x04\0\0\0\x05\0\0\0\x06\0\0\0\x07\0\0\0\x08\0\0\0\x09\0\0\0\x0a\0\0\0\x0b\0\0\0\x0c\0\0\0\x0d\0\0\0\x0e\0\0\0\x0f\0\0\0\x10\0\0\0E";

// A record is read as this step, and these bytes are left.
fn reads(
    rt: &impl Abort,
    n: usize,
    width: usize,
    bytes: &[u8],
    step: Option<Step<'_>>,
    left: &[u8],
) -> Result<(), Fail> {
    match read_step(n, width, bytes) {
        Err(_) => Err(Fail::new("refused")),
        Ok((found, rest)) => {
            same_step(rt, found, step)?;
            assert_eq!(rt; rest, left);
            Ok(())
        }
    }
}

#[test]
fn branches(rt: HostRuntime) -> Result<(), Fail> {
    let cases: [(&[u8], &[i32], i64, &[u8]); 6] = [
        (b"B\0\0\0\0\0\0\0\0\0\0", &[], 0, b""),
        (
            b"B\0\0\xff\xff\xff\xff\xff\xff\xff\x7fB",
            &[0],
            i64::MAX,
            b"B",
        ),
        (b"B\0\0\0\0\0\0\0\0\0\x80\0\0", &[0, 0], i64::MIN, b"\0\0"),
        (
            b"B\x03\0\xff\xff\xff\xff\x02\0\0\0\xfe\xff\xff\xff\xff\xff\xff\xffE",
            &[-1, 2],
            -2,
            b"E",
        ),
        (
            b"B\x05\0\0\0\0\x80\xff\xff\xff\x7f\x08\x07\x06\x05\x04\x03\x02\x01",
            &[i32::MIN, 0, i32::MAX],
            0x0102_0304_0506_0708,
            b"",
        ),
        (
            b"B\x80\x81\x01\0\0\0\x02\0\0\0\xfd\xff\xff\xff\x04\0\0\0\0\0\0\0",
            &[0, 0, 0, 0, 0, 0, 0, 1, 2, 0, 0, 0, 0, 0, 0, -3],
            4,
            b"",
        ),
    ];
    for (bytes, numbers, right, left) in cases {
        let step = Step::Branch(Numbers::from(numbers), right);
        reads(&rt, numbers.len(), 0, bytes, Some(step), left)?;
    }
    Ok(())
}

#[test]
fn takes(rt: HostRuntime) -> Result<(), Fail> {
    let cases: [(&[u8], &[i32], &[u8]); 8] = [
        (b"T\0\0", &[], b""),
        (b"T\0\0\0", &[0, 0], b"\0"),
        (b"T\x01\0\x02\0\0\0K", &[2, 0], b"K"),
        (b"T\x02\0\x02\0\0\0K", &[0, 2], b"K"),
        (
            b"T\x03\0\xff\xff\xff\x7f\0\0\0\x80",
            &[i32::MAX, i32::MIN],
            b"",
        ),
        (b"T\x04\0\x04\x03\x02\x01", &[0, 0, 0x0102_0304], b""),
        (
            b"T\x01\x01\xff\xff\xff\xff\xfe\xff\xff\xff",
            &[-1, 0, 0, 0, 0, 0, 0, 0, -2],
            b"",
        ),
        (
            ALL_BITS,
            &[1, 2, 3, 4, 5, 6, 7, 8, 9, 10, 11, 12, 13, 14, 15, 16],
            b"E",
        ),
    ];
    for (bytes, numbers, left) in cases {
        let step = Step::Take(Numbers::from(numbers));
        reads(&rt, numbers.len(), 2, bytes, Some(step), left)?;
    }
    Ok(())
}

fn premises_are(rt: &impl Abort, found: Premises<'_>, expected: &[(u16, u16)]) {
    assert_eq!(rt; found.len(), expected.len());
    for (item, expected) in found.items.iter().zip(expected) {
        let premise = Premise::from(*item);
        assert_eq!(rt; (premise.place, premise.multiplier), *expected);
    }
}

#[test]
fn cuts(rt: HostRuntime) -> Result<(), Fail> {
    let cases: [(&[u8], &[(u16, u16)], u32, &[u8]); 4] = [
        (b"C\0\0\0\0\0", &[], 0, b""),
        (
            b"C\x01\xff\xff\xff\xff\xff\xff\xff\xff\xff",
            &[(65_535, 65_535)],
            u32::MAX,
            b"\xff",
        ),
        (
            b"C\x02\x02\0\x01\0\0\0\x02\0\x01\0\0\0I",
            &[(2, 1), (0, 2)],
            1,
            b"I",
        ),
        (
            b"C\x02\x02\x01\x04\x03\x06\x05\x08\x07\x0c\x0b\x0a\x09",
            &[(0x0102, 0x0304), (0x0506, 0x0708)],
            0x090a_0b0c,
            b"",
        ),
    ];
    for (bytes, premises, divisor, left) in cases {
        match read_step(2, 2, bytes) {
            Ok((Some(Step::Cut(line)), rest)) => {
                premises_are(&rt, line.premises, premises);
                assert_eq!(rt; (line.divisor, rest), (divisor, left));
            }
            _ => return Err(Fail::new("no cut")),
        }
    }
    Ok(())
}

// Lines of one premise, of none and of two, and two bytes.
#[test]
fn chains(rt: HostRuntime) -> Result<(), Fail> {
    let bytes =
        b"L\x03\x01\x05\0\x06\0\x07\0\0\0\0\x08\0\0\0\x02\x09\0\x0a\0\x0b\0\x0c\0\x0d\0\0\0KE";
    match read_step(0, 0, bytes) {
        Ok((Some(Step::Chain(lines)), rest)) => {
            assert_eq!(rt; (lines.count, rest), (3, b"KE".as_slice()));
            assert_eq!(rt; lines.first().divisor, 7);
            premises_are(&rt, lines.first().premises, &[(5, 6)]);
            let lines = lines.rest();
            assert_eq!(rt; (lines.count, lines.first().divisor), (2, 8));
            premises_are(&rt, lines.first().premises, &[]);
            let lines = lines.rest();
            assert_eq!(rt; (lines.count, lines.first().divisor), (1, 13));
            premises_are(&rt, lines.first().premises, &[(9, 10), (11, 12)]);
            assert_eq!(rt; lines.rest().count, 0);
            Ok(())
        }
        _ => Err(Fail::new("no chain")),
    }
}

#[test]
fn a_chain_without_lines(rt: HostRuntime) -> Result<(), Fail> {
    match read_step(2, 2, b"L\0\x01") {
        Ok((Some(Step::Chain(lines)), rest)) => {
            assert_eq!(rt; (lines.count, rest), (0, b"\x01".as_slice()));
            Ok(())
        },
        _ => Err(Fail::new("no chain")),
    }
}

fn places_are(rt: &impl Abort, found: Places<'_>, expected: &[u16]) {
    assert_eq!(rt; found.len(), expected.len());
    for (item, expected) in found.items.iter().zip(expected) {
        assert_eq!(rt; u16::from_le_bytes(*item), *expected);
    }
}

// The clue has as many bytes as the theory's have.
#[test]
fn infers(rt: HostRuntime) -> Result<(), Fail> {
    let cases: [(&[u8], &[u8], &[u16], &[u8]); 5] = [
        (b"I\0\x01\x01\x03\0C", b"\0\x01", &[3], b"C"),
        (b"I\xff\xfe\0\x01", b"\xff\xfe", &[], b"\x01"),
        (b"I\x01\x02\0", b"", &[2], b""),
        (b"I\x01\x02\0", b"\x01\x02", &[], b""),
        (
            b"IE\x03\0\0\xff\xff\x02\x01E",
            b"E",
            &[0, 65_535, 0x0102],
            b"E",
        ),
    ];
    for (bytes, clue, places, left) in cases {
        match read_step(2, clue.len(), bytes) {
            Ok((Some(Step::Infer(found, listed)), rest)) => {
                assert_eq!(rt; (found, rest), (clue, left));
                places_are(&rt, listed, places);
            }
            _ => return Err(Fail::new("no infer")),
        }
    }
    Ok(())
}

// Two places for each variable, and no count.
#[test]
fn pins(rt: HostRuntime) -> Result<(), Fail> {
    let cases: [(usize, &[u8], &[u16], &[u8]); 4] = [
        (0, b"P", &[], b""),
        (0, b"P\0\0\0\0", &[], b"\0\0\0\0"),
        (1, b"P\x02\x01\xff\xffE", &[0x0102, 65_535], b"E"),
        (2, b"P\x01\0\x02\0\x03\0\x04\0\x05", &[1, 2, 3, 4], b"\x05"),
    ];
    for (n, bytes, places, left) in cases {
        match read_step(n, 2, bytes) {
            Ok((Some(Step::Pin(listed)), rest)) => {
                assert_eq!(rt; rest, left);
                places_are(&rt, listed, places);
            }
            _ => return Err(Fail::new("no pin")),
        }
    }
    Ok(())
}

#[test]
fn cutoffs_drops_and_ends(rt: HostRuntime) -> Result<(), Fail> {
    let cases: [(&[u8], Option<Step<'static>>, &[u8]); 7] = [
        (b"K", Some(Step::Cutoff), b""),
        (b"KK", Some(Step::Cutoff), b"K"),
        (b"D\x06\0", Some(Step::Drop(6)), b""),
        (b"D\x02\x01E", Some(Step::Drop(0x0102)), b"E"),
        (b"D\xff\xff\xff", Some(Step::Drop(65_535)), b"\xff"),
        (b"E", None, b""),
        (b"E\0E", None, b"\0E"),
    ];
    for (bytes, step, left) in cases {
        reads(&rt, 2, 2, bytes, step, left)?;
    }
    Ok(())
}

// What a letter with nothing behind it is refused with, if it is.
fn alone(letter: u8) -> Option<u8> {
    match letter {
        b'K' | b'E' => None,
        b'B' | b'C' | b'L' | b'I' | b'T' | b'D' | b'P' => Some(19),
        _ => Some(20),
    }
}

#[test]
fn every_byte_as_a_letter(rt: HostRuntime) {
    for letter in 0..=255u8 {
        match read_step(2, 2, &[letter]) {
            Ok(_) => assert_eq!(rt; alone(letter), None),
            Err(found) => assert_eq!(rt; alone(letter), Some(found.cause.number())),
        }
    }
}
