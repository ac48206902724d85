//! Frames, written and read.
use frames::{Frame, FrameBuf, frame_bytes, read_frame};
use std::test::Fail;
use test_rows::holds;

const WINDOWS: [(&str, &[u8], Frame); 9] = [
    ("no gate", b"", Frame::Damaged),
    ("gate 0", b"\x00", Frame::Closed),
    ("gate 2", b"\x02\x00\x00\x00\x01a\x00", Frame::Closed),
    ("no length", b"\x01", Frame::Damaged),
    ("half a length", b"\x01\x00\x00\x00", Frame::Damaged),
    ("length 0", b"\x01\x00\x00\x00\x00\x00", Frame::Damaged),
    ("no next gate", b"\x01\x00\x00\x00\x03abc", Frame::Damaged),
    (
        "a frame",
        b"\x01\x00\x00\x00\x03abc\x07",
        Frame::Counted { len: 3 },
    ),
    (
        "a long length",
        b"\x01\x01\x00\x00\x01a\x00",
        Frame::Damaged,
    ),
];

#[test]
fn a_frame_is_read() -> Result<(), Fail> {
    for (row, window, frame) in &WINDOWS {
        holds(read_frame(window) == *frame, row)?;
    }
    Ok(())
}

fn has(out: &FrameBuf, bytes: &[u8], row: &str) -> Result<(), Fail> {
    holds(out.as_slice() == bytes, row)
}

#[test]
fn a_frame_is_written() -> Result<(), Fail> {
    let mut out = FrameBuf::new();
    has(&out, b"", "at first")?;
    frame_bytes(b"abc", &mut out);
    has(&out, b"\x00\x00\x00\x03abc\x00", "abc framed")?;
    out.fill(b"xy");
    has(&out, b"xy", "xy filled in")
}

#[test]
fn the_longest_body_has_4096_bytes() -> Result<(), Fail> {
    let mut window = [0; 4103];
    window[0] = 1;
    window[3] = 16;
    let is_frame = read_frame(&window[..4102]) == Frame::Counted { len: 4096 };
    let is_cut = read_frame(&window[..4101]) == Frame::Damaged;
    window[4] = 1;
    let is_long = read_frame(&window) == Frame::Damaged;
    holds(is_frame && is_cut && is_long, "4096 bytes and 4097")
}
