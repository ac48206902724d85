//! The disk in memory. What `FileDisk` does over real files is shown by `examples/rows/files.row` and `.ci/longer`.
use chain_disk::{Disk, Fill, MemDisk};
use ports::Failed;
use std::alloc::Global;
use std::test::Fail;
use test_rows::holds;

// Whether the disk reads as these bytes.
fn reads_as<D: Disk>(disk: &mut D, want: &[u8]) -> Result<bool, Failed> {
    let mut buf = [7; 16];
    let n = disk.read_at(0, &mut buf)?;
    let len = disk.len()?;
    Ok(n <= 16 && &buf[..n] == want && len == n as u64)
}

// A moment, what fills its image, and the image.
type Image = (&'static str, u64, Fill, &'static [u8]);

const IMAGES: [Image; 12] = [
    ("0, old", 0, Fill::Old, b"abc"),
    ("0, ones", 0, Fill::Ones, b"abc"),
    ("1, old", 1, Fill::Old, b"abc"),
    ("1, new", 1, Fill::New, b"abXY"),
    ("1, zeros", 1, Fill::Zeros, b"ab\x00\x00"),
    ("1, ones", 1, Fill::Ones, b"ab\x01\x01"),
    ("2, old", 2, Fill::Old, b"abXY"),
    ("2, ones", 2, Fill::Ones, b"abXY"),
    ("3, old", 3, Fill::Old, b"abXY"),
    ("3, new", 3, Fill::New, b"abXY"),
    ("3, zeros", 3, Fill::Zeros, b"\x00bXY"),
    ("3, ones", 3, Fill::Ones, b"\x01bXY"),
];

// A disk whose third call, a write, failed.
fn faulty_disk(alloc: Global) -> Result<MemDisk, Fail> {
    let mut disk = MemDisk::new(alloc, b"abc".to_vec(alloc)?, vec![in alloc; 3]?);
    disk.write_at(2, b"XY")?;
    disk.sync()?;
    holds(disk.write_at(0, b"Q") == Err(Failed), "the third call")?;
    holds(disk.faults() == 1, "its fault")?;
    holds(reads_as(&mut disk, b"abXY")?, "the disk")?;
    Ok(disk)
}

fn is_image(alloc: Global, disk: &MemDisk, row: &Image) -> Result<(), Fail> {
    let mut image = disk.image(alloc, row.1, row.2)?.ok_or("no image")?;
    holds(reads_as(&mut image, row.3)?, row.0)
}

#[test]
fn images_are_filled_as_asked(rt: HostRuntime) -> Result<(), Fail> {
    let disk = faulty_disk(rt.alloc())?;
    for row in &IMAGES {
        is_image(rt.alloc(), &disk, row)?;
    }
    let fourth = disk.image(rt.alloc(), 4, Fill::New)?;
    holds(fourth.is_none(), "a fourth moment")
}
