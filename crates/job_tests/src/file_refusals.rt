// Job files that are refused, each with its number, record, byte and spot.
use crate::outcome::{accepts, refuses};

#[test]
fn numbers_outside_their_limits(rt: HostRuntime) {
    let cases: [(&[u8], usize, usize, usize); 12] = [
        (b"NV\x41\x42\x0f\x00", 1, 1, 0),
        (b"NV\x40\x42\x0f\x00V\xbf\xbd\xf0\xff", 2, 6, 0),
        (
            b"NV\x01\0\0\0V\x01\0\0\0RL\x03\0\x01\0\0\0\x41\x42\x0f\0\0\0\0\0\0\0\0\0",
            3,
            11,
            1,
        ),
        (
            b"NV\x01\0\0\0V\x01\0\0\0RL\0\0\x01\x40\xe5\x9c\x30\x12\0\0",
            3,
            11,
            2,
        ),
        (b"NRL\0\0\x01\x40\xe5\x9c\x30\x12\0\0", 1, 1, 0),
        (b"NRQ\0\0\xff\xbf\x1a\x63\xcf\xed\xff\xff", 1, 1, 0),
        (b"SF\0\x10\0\x10", 1, 1, 1),
        (b"SF\0\0\x11\0", 1, 1, 2),
        (b"SF\xff\x0f\x10\x0fF\0\0\x10\x10", 2, 6, 3),
        (b"OW\x10\0\0\0\0", 1, 1, 0),
        (b"OW\0\0\0\0\0", 1, 1, 1),
        (b"OW\x0f\x40\x42\x0f\0W\0\x41\x42\x0f\0", 2, 7, 1),
    ];
    for (file, nth, byte, spot) in cases {
        refuses(&rt, file, 3, nth, byte, spot);
    }
}

#[test]
fn numbers_at_their_limits(rt: HostRuntime) {
    let cases: [&[u8]; 6] = [
        b"NV\x40\x42\x0f\x00V\xc0\xbd\xf0\xffE",
        b"NV\0\0\0\0RL\x01\0\x40\x42\x0f\0\0\x40\xe5\x9c\x30\x12\0\0E",
        b"NV\0\0\0\0RG\x01\0\xc0\xbd\xf0\xff\0\xc0\x1a\x63\xcf\xed\xff\xffE",
        b"SF\xff\x0f\x10\x0fE",
        b"OW\x0f\x40\x42\x0f\0W\0\x01\0\0\0E",
        b"NE",
    ];
    for file in cases {
        accepts(&rt, file);
    }
}

#[test]
fn letters(rt: HostRuntime) {
    let cases: [(&[u8], u8, usize, usize, usize); 14] = [
        (
            b"NV\x01\0\0\0RQ\x01\0\x01\0\0\0\0\0\0\0\0\0\0\0",
            9,
            2,
            6,
            0,
        ),
        (b"NRl\0\0\0\0\0\0\0\0\0\0", 9, 1, 1, 0),
        (b"X", 20, 0, 0, 0),
        (b"V", 20, 0, 0, 0),
        (b"NN", 20, 1, 1, 0),
        (b"Ne", 20, 1, 1, 0),
        (b"N\xc5", 20, 1, 1, 0),
        (b"NRL\0\0\0\0\0\0\0\0\0\0V", 20, 2, 13, 0),
        (b"NF\0\0\0\0", 20, 1, 1, 0),
        (b"OF", 20, 1, 1, 0),
        (b"SW", 20, 1, 1, 0),
        (b"NV\x01\0\0\0W", 20, 2, 6, 0),
        (b"SF\0\0\0\0R", 20, 2, 6, 0),
        (b"OW\0\x01\0\0\0V", 20, 2, 7, 0),
    ];
    for (file, number, nth, byte, spot) in cases {
        refuses(&rt, file, number, nth, byte, spot);
    }
}

#[test]
fn maps(rt: HostRuntime) {
    let cases: [(&[u8], u8, usize); 6] = [
        (b"NV\x01\0\0\0RQ\x02\0\x01\0\0\0\0\0\0\0\0\0\0\0", 21, 1),
        (b"NV\x01\0\0\0RL\x01\0\0\0\0\0\0\0\0\0\0\0\0\0", 21, 0),
        (
            b"NV\x01\0\0\0RL\x03\0\0\0\0\0\x01\0\0\0\0\0\0\0\0\0\0\0",
            21,
            0,
        ),
        (
            b"NV\x01\0\0\0RL\x01\x80\x01\0\0\0\x01\0\0\0\0\0\0\0\0\0\0\0",
            21,
            15,
        ),
        (
            b"NV\x01\0\0\0RL\x03\0\x41\x42\x0f\0\x01\0\0\0\0\0\0\0\0\0\0\0",
            21,
            1,
        ),
        (b"NV\x01\0\0\0RL\xff\xff\x01\0\0\0", 19, 0),
    ];
    for (file, number, spot) in cases {
        refuses(&rt, file, number, 2, 6, spot);
    }
}

#[test]
fn ends(rt: HostRuntime) {
    let cases: [(&[u8], u8, usize, usize); 8] = [
        (b"", 19, 0, 0),
        (b"N", 19, 1, 1),
        (b"NV\x01\0\0", 19, 1, 1),
        (b"NV\x01\0\0\0", 19, 2, 6),
        (b"SF\0\0\x10", 19, 1, 1),
        (b"NRL\0\0\0\0\0\0\0\0\0", 19, 1, 1),
        (b"NEE", 22, 2, 2),
        (b"OW\0\x01\0\0\0E\0\0", 22, 3, 8),
    ];
    for (file, number, nth, byte) in cases {
        refuses(&rt, file, number, nth, byte, 0);
    }
}
