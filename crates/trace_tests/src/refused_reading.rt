// Records that cannot be read, and those whose count is 255.
use law::step::Step;
use spelling::step_reader::read_step;
use std::process::Abort;
use std::test::Fail;

// Under clues of two bytes, a record is refused with this number and spot.
fn not_read(rt: &impl Abort, n: usize, bytes: &[u8], number: u8, spot: usize) -> Result<(), Fail> {
    match read_step(n, 2, bytes) {
        Ok(_) => Err(Fail::new("read")),
        Err(found) => {
            assert_eq!(rt;
                (found.cause.number(), found.spot, found.line),
                (number, spot, 0)
            );
            Ok(())
        },
    }
}

fn torn(rt: &impl Abort, bytes: &[u8]) -> Result<(), Fail> {
    for length in 0..bytes.len() {
        not_read(rt, 2, &bytes[..length], 19, 0)?;
    }
    Ok(())
}

// Whole records for two variables, and not one of them with a byte less.
#[test]
fn torn_records(rt: HostRuntime) -> Result<(), Fail> {
    let cases: [&[u8]; 9] = [
        b"B\x03\0\x01\0\0\0\x01\0\0\0\0\0\0\0\0\0\0\0",
        b"B\xff\0\x01\0\0\0\x01\0\0\0\x01\0\0\0\x01\0\0\0\x01\0\0\0\x01\0\0\0\x01\0\0\0\x01\0\0\0\0\0\0\0\0\0\0\0",
        b"C\x02\x02\0\x01\0\0\0\x02\0\x01\0\0\0",
        b"L\x02\x01\0\0\x01\0\x01\0\0\0\x01\x03\0\x01\0\x01\0\0\0",
        b"I\0\x01\x02\x03\0\x04\0",
        b"T\x02\0\x02\0\0\0",
        b"T\0\x81\0\0\0\0\0\0\0\0",
        b"D\x06\0",
        b"P\x01\0\x02\0\x03\0\x04\0",
    ];
    for bytes in cases {
        torn(&rt, bytes)?;
    }
    Ok(())
}

#[test]
fn bad_maps(rt: HostRuntime) -> Result<(), Fail> {
    let cases: [(usize, &[u8], usize); 9] = [
        (0, b"T\x01\0\x01\0\0\0", 0),
        (1, b"T\x02\0\x01\0\0\0", 1),
        (1, b"T\x01\0\0\0\0\0", 0),
        (2, b"T\x07\0\x01\0\0\0\0\0\0\0\x01\0\0\0", 1),
        (8, b"T\0\x01\x01\0\0\0", 8),
        (15, b"T\0\xc0\x01\0\0\0\x01\0\0\0", 15),
        (16, b"T\0\xc0\x01\0\0\0\0\0\0\0", 15),
        (2, b"B\x04\0\x01\0\0\0\0\0\0\0\0\0\0\0", 2),
        (16, b"B\x80\x01\x01\0\0\0\0\0\0\0\0\0\0\0\0\0\0\0", 8),
    ];
    for (n, bytes, spot) in cases {
        not_read(&rt, n, bytes, 21, spot)?;
    }
    Ok(())
}

// A cut of 255 premises, and a byte.
#[test]
fn the_longest_cut(rt: HostRuntime) -> Result<(), Fail> {
    let mut bytes = [7; 1027];
    bytes[0] = b'C';
    bytes[1] = 255;
    not_read(&rt, 2, &bytes[..1025], 19, 0)?;
    match read_step(2, 2, &bytes) {
        Ok((Some(Step::Cut(line)), rest)) => {
            assert_eq!(rt; (line.premises.len(), line.divisor), (255, 0x0707_0707));
            assert_eq!(rt; rest, [7].as_slice());
            Ok(())
        }
        _ => Err(Fail::new("no cut")),
    }
}

// A chain of 255 lines without premises, and a byte.
#[test]
fn the_longest_chain(rt: HostRuntime) -> Result<(), Fail> {
    let mut bytes = [0; 1278];
    bytes[0] = b'L';
    bytes[1] = 255;
    not_read(&rt, 2, &bytes[..1276], 19, 0)?;
    match read_step(2, 2, &bytes) {
        Ok((Some(Step::Chain(lines)), rest)) => {
            assert_eq!(rt; lines.count, 255);
            assert_eq!(rt; rest, [0].as_slice());
            Ok(())
        }
        _ => Err(Fail::new("no chain")),
    }
}

// An infer of 255 places, and a byte.
#[test]
fn the_longest_infer(rt: HostRuntime) -> Result<(), Fail> {
    let mut bytes = [9; 515];
    bytes[0] = b'I';
    bytes[3] = 255;
    not_read(&rt, 2, &bytes[..513], 19, 0)?;
    match read_step(2, 2, &bytes) {
        Ok((Some(Step::Infer(clue, places)), rest)) => {
            assert_eq!(rt; (clue, rest), ([9, 9].as_slice(), [9].as_slice()));
            let last = places
                .items
                .get(254)
                .copied()
                .map(|item| u16::from_le_bytes(item));
            assert_eq!(rt; (places.len(), last), (255, Some(0x0909)));
            Ok(())
        }
        _ => Err(Fail::new("no infer")),
    }
}
