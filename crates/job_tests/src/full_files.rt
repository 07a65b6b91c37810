// Job files with one record too many, and files that are too long.
use crate::outcome::{accepts, refuses};
use std::alloc::{AllocError, Global};
use std::test::Fail;

const ROW: &[u8] = b"RL\0\0\0\0\0\0\0\0\0\0";

// The theory's letter, and so many times the record.
fn repeated(heap: Global, letter: u8, times: usize, part: &[u8]) -> Result<Vec<u8>, AllocError> {
    let mut file = Vec::new(heap);
    file.extend_from_slice(&[letter])?;
    for _ in 0..times {
        file.extend_from_slice(part)?;
    }
    Ok(file)
}

#[test]
fn the_seventeenth(rt: HostRuntime) -> Result<(), Fail> {
    let cases: [(u8, &[u8], usize); 3] = [
        (b'N', b"V\0\0\0\0", 81),
        (b'S', b"F\0\0\x10\0", 81),
        (b'O', b"W\0\x01\0\0\0", 97),
    ];
    for (letter, part, byte) in cases {
        let mut sixteen = repeated(rt.alloc(), letter, 16, part)?;
        sixteen.extend_from_slice(b"E")?;
        accepts(&rt, sixteen.as_slice());
        let seventeen = repeated(rt.alloc(), letter, 17, part)?;
        refuses(&rt, seventeen.as_slice(), 4, 17, byte, 0);
    }
    Ok(())
}

#[test]
fn the_sixty_fifth_row(rt: HostRuntime) -> Result<(), Fail> {
    let cases: [(usize, &[u8], u8, usize, usize); 5] = [
        (64, b"RL\0\0\0\0\0\0\0\0\0\0", 4, 65, 769),
        (64, b"RE\0\0\0\0\0\0\0\0\0\0", 4, 65, 769),
        (63, b"RE\0\0\0\0\0\0\0\0\0\0", 4, 64, 757),
        (
            62,
            b"RE\0\0\0\0\0\0\0\0\0\0RG\0\0\0\0\0\0\0\0\0\0",
            4,
            64,
            757,
        ),
        (64, b"RX\0\0\0\0\0\0\0\0\0\0", 9, 65, 769),
    ];
    for (rows, more, number, nth, byte) in cases {
        let mut file = repeated(rt.alloc(), b'N', rows, ROW)?;
        file.extend_from_slice(more)?;
        refuses(&rt, file.as_slice(), number, nth, byte, 0);
    }
    let mut whole = repeated(rt.alloc(), b'N', 62, ROW)?;
    whole.extend_from_slice(b"RE\0\0\0\0\0\0\0\0\0\0E")?;
    accepts(&rt, whole.as_slice());
    Ok(())
}

#[test]
fn the_longest_file(rt: HostRuntime) -> Result<(), Fail> {
    let mut file = repeated(rt.alloc(), b'N', 65_535, b"E")?;
    assert_eq!(rt; file.len(), 65_536);
    refuses(&rt, file.as_slice(), 22, 2, 2, 0);
    file.extend_from_slice(b"E")?;
    refuses(&rt, file.as_slice(), 24, 0, 0, 0);
    Ok(())
}
