//! A mirror of two disks in memory.
ghost use Rattle.std.specs.Prelude.{◌≤◌, IfOk, length};

use chain_disk::{Disk, Fill, MemDisk};
use mirror_disk::{MirrorDisk, Standing};
use ports::Failed;
use std::alloc::Global;
use std::test::Fail;
use test_rows::holds;

// Whether the disk reads as these bytes.
fn reads_as<D: Disk>(disk: &mut D, want: &[u8]) -> Result<bool, Failed> {
    let mut buf = [7; 16];
    let n = disk.read_at(0, &mut buf)?;
    let len = disk.len()?;
    Ok(n <= 16 && &buf[..n] == want && len == n as u64)
}

// A mirror of two disks that hold `abc`. Their calls with these numbers fail, from 1.
fn mirror_of(
    alloc: Global,
    first: &[u64],
    second: &[u64],
) -> Result<MirrorDisk<MemDisk, MemDisk>, Fail>
    ensures { IfOk result (λ mirror.
        2 ≤ length (⟦<MirrorDisk<MemDisk, MemDisk> as Disk>⟧.on_disk mirror).content) }
{
    let a = MemDisk::new(alloc, b"abc".to_vec(alloc)?, first.to_vec(alloc)?);
    let b = MemDisk::new(alloc, b"abc".to_vec(alloc)?, second.to_vec(alloc)?);
    Ok(MirrorDisk::of(a, b))
}

// What a row expects: which of a write, a sync and a second write are Ok, what the mirror then reads, what each half reads, and how
// the mirror then stands.
type Row = (
    &'static str,
    [u64; 1],
    [u64; 1],
    [bool; 3],
    &'static [u8],
    &'static [u8],
    Standing,
);

const ROWS: [Row; 7] = [
    (
        "none fails",
        [9],
        [9],
        [true, true, true],
        b"QbXY",
        b"QbXY",
        Standing::Whole,
    ),
    (
        "first, write",
        [1],
        [9],
        [false, false, false],
        b"abc",
        b"abc",
        Standing::Broken,
    ),
    (
        "second, write",
        [9],
        [1],
        [false, false, false],
        b"abXY",
        b"abc",
        Standing::Broken,
    ),
    (
        "first, sync",
        [2],
        [9],
        [true, false, false],
        b"abXY",
        b"abXY",
        Standing::Broken,
    ),
    (
        "second, sync",
        [9],
        [2],
        [true, false, false],
        b"abXY",
        b"abXY",
        Standing::HalfSynced,
    ),
    (
        "first, again",
        [3],
        [9],
        [true, true, false],
        b"abXY",
        b"abXY",
        Standing::Broken,
    ),
    (
        "second, again",
        [9],
        [3],
        [true, true, false],
        b"QbXY",
        b"abXY",
        Standing::Broken,
    ),
];

fn is_row(alloc: Global, row: &Row) -> Result<(), Fail> {
    let mut mirror = mirror_of(alloc, &row.1, &row.2)?;
    holds(mirror.write_at(2, b"XY").is_ok() == row.3[0], row.0)?;
    holds(mirror.sync().is_ok() == row.3[1], row.0)?;
    holds(mirror.write_at(0, b"Q").is_ok() == row.3[2], row.0)?;
    holds(mirror.standing() == row.6, row.0)?;
    holds(reads_as(&mut mirror, row.4)?, row.0)?;
    let (mut first, mut second) = mirror.halves();
    holds(reads_as(&mut first, row.4)?, row.0)?;
    holds(reads_as(&mut second, row.5)?, row.0)
}

#[test]
fn each_call_goes_to_both_until_one_fails(rt: HostRuntime) -> Result<(), Fail> {
    for row in &ROWS {
        is_row(rt.alloc(), row)?;
    }
    Ok(())
}

// Which calls of the second half fail, and what a crash may leave: a moment, what fills its image, and the image of each half.
type Left = (
    &'static str,
    [u64; 1],
    u64,
    Fill,
    &'static [u8],
    &'static [u8],
);

const LEFT: [Left; 8] = [
    ("whole, 0", [9], 0, Fill::Ones, b"abc", b"abc"),
    ("whole, 1", [9], 1, Fill::Ones, b"ab\x01\x01", b"ab\x01\x01"),
    ("whole, 2", [9], 2, Fill::Ones, b"abXY", b"abXY"),
    ("whole, 3", [9], 3, Fill::Ones, b"\x01bXY", b"\x01bXY"),
    ("second, sync, 1", [2], 1, Fill::Old, b"abc", b"abc"),
    (
        "second, sync, 2",
        [2],
        2,
        Fill::Ones,
        b"abXY",
        b"ab\x01\x01",
    ),
    (
        "second, again, 3",
        [3],
        3,
        Fill::Ones,
        b"\x01bXY",
        b"\x01bXY",
    ),
    ("second, again, 3, old", [3], 3, Fill::Old, b"abXY", b"abXY"),
];

fn is_left(alloc: Global, row: &Left) -> Result<(), Fail> {
    let mut mirror = mirror_of(alloc, &[9], &row.1)?;
    let _ = mirror.write_at(2, b"XY");
    let _ = mirror.sync();
    let _ = mirror.write_at(0, b"Q");
    let mut first = mirror
        .first()
        .image(alloc, row.2, row.3)?
        .ok_or("no image")?;
    let mut second = mirror
        .second()
        .image(alloc, row.2, row.3)?
        .ok_or("no image")?;
    holds(reads_as(&mut first, row.4)?, row.0)?;
    holds(reads_as(&mut second, row.5)?, row.0)
}

#[test]
fn a_crash_leaves_of_either_half_what_it_may_leave_of_the_mirror(
    rt: HostRuntime,
) -> Result<(), Fail> {
    for row in &LEFT {
        is_left(rt.alloc(), row)?;
    }
    Ok(())
}
