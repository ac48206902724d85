//! A journal on a disk in memory: its bytes, its faults, its crashes.
ghost use Rattle.std.specs.Prelude.{◌≡◌, ◌<◌, ◌≤◌, ◌+◌, IfOk};
ghost use Rattle.journal.specs.Journal.{end_of};

use chain_disk::{Disk, MemDisk};
use frames::FrameBuf;
use journal::{
    Header, Journal, JournalFault, Lost, ReadAhead, Step, StoreFault, read_header, scan, scan_ahead,
};
use parties::Nif;
use ports::Failed;
use record_fields::Version;
use std::alloc::Global;
use std::test::Fail;
use test_rows::holds;

// Whether the disk holds exactly these bytes.
fn has_bytes<D: Disk>(disk: &mut D, want: &[u8]) -> Result<bool, Failed> {
    let mut buf = [0; 48];
    let n = disk.read_at(0, &mut buf)?;
    Ok(n <= 48 && &buf[..n] == want)
}

// A journal on a disk without bytes, whose call of this number fails.
fn create(alloc: Global, failing: u64) -> Result<Result<Journal<MemDisk>, Lost<MemDisk>>, Fail>
    ensures { IfOk result (λ created. IfOk created (λ journal. end_of journal ≡ 19)) }
{
    let disk = MemDisk::new(alloc, Vec::new(alloc), vec![in alloc; failing]?);
    match Nif::read("B12345674") {
        Ok(issuer) => Ok(Journal::create(disk, &issuer, Version::Two)),
        Err(_) => Err(Fail::from("no NIF")),
    }
}

fn created(alloc: Global, failing: u64) -> Result<Journal<MemDisk>, Fail>
    ensures { IfOk result (λ journal. end_of journal ≡ 19) }
{
    match create(alloc, failing)? {
        Ok(journal) => Ok(journal),
        Err(_) => Err(Fail::from("lost")),
    }
}

fn append(journal: &mut Journal<MemDisk>, body: &[u8; 3]) -> Result<u64, JournalFault>
    requires { end_of journal.old < 1000 }
    ensures { end_of journal.new ≤ end_of journal.old + 8 }
{
    journal.append(body)
}

// Adds the two bodies of `TWO_BODIES`.
fn append_two(journal: &mut Journal<MemDisk>) -> Result<(), Fail>
    requires { end_of journal.old ≡ 19 }
{
    holds(append(journal, b"abc") == Ok(27), "abc added")?;
    holds(append(journal, b"def") == Ok(35), "def added")?;
    holds(journal.stopped().is_none(), "it goes on")
}

#[test]
fn a_journal_is_created_and_written(rt: HostRuntime) -> Result<(), Fail> {
    let mut journal = created(rt.alloc(), 0)?;
    append_two(&mut journal)?;
    let mut disk = journal.into_disk();
    holds(has_bytes(&mut disk, TWO_BODIES)?, "the file")
}

const TWO_BODIES: &[u8] =
    b"\x01VFCHAIN1\x02B12345674\x01\x00\x00\x00\x03abc\x01\x00\x00\x00\x03def\x00";

// A place in this file, what stands there, and its body.
type StepRow = (&'static str, u32, Step, Option<&'static [u8]>);

const STEPS: [StepRow; 4] = [
    ("abc", 19, Step::Counted { next: 27 }, Some(b"abc")),
    ("def", 27, Step::Counted { next: 35 }, Some(b"def")),
    ("the end", 35, Step::Closed, None),
    ("past the end", 36, Step::Damaged, None),
];

fn is_step(disk: &mut MemDisk, body: &mut FrameBuf, row: &StepRow) -> Result<(), Fail> {
    let step = scan(disk, u64::from(row.1), body)?;
    let is_body = match row.3 {
        Some(bytes) => body.as_slice() == bytes,
        None => true,
    };
    holds(step == row.2 && is_body, row.0)
}

fn disk_of(alloc: Global, file: &[u8]) -> Result<MemDisk, Fail> {
    let file = Vec::from_slice(alloc, file)?;
    Ok(MemDisk::new(alloc, file, Vec::new(alloc)))
}

#[test]
fn a_journal_is_read(rt: HostRuntime) -> Result<(), Fail> {
    let mut disk = disk_of(rt.alloc(), TWO_BODIES)?;
    let mut body = FrameBuf::new();
    for row in &STEPS {
        is_step(&mut disk, &mut body, row)?;
    }
    Ok(())
}

// A file of twenty bodies of 4096 bytes each, longer than what is read at once.
fn long_file(alloc: Global) -> Result<MemDisk, Fail> {
    let mut file = b"\x01VFCHAIN1\x02B12345674".to_vec(alloc)?;
    for k in 0..20u8 {
        file.extend_from_slice(b"\x01\x00\x00\x10\x00")?;
        file.extend_from_slice(&[k; 4096])?;
    }
    file.push(0)?;
    Ok(MemDisk::new(alloc, file, Vec::new(alloc)))
}

fn is_filled(body: &FrameBuf, with: u8) -> bool {
    body.as_slice() == [with; 4096].as_slice()
}

#[test]
fn frames_are_found_in_what_was_read_ahead_and_past_it(rt: HostRuntime) -> Result<(), Fail> {
    let mut disk = long_file(rt.alloc())?;
    let mut ahead = ReadAhead::new();
    let mut body = FrameBuf::new();
    let first = scan_ahead(&mut disk, &mut ahead, 19, &mut body)?;
    holds(first == Step::Counted { next: 4120 }, "the first")?;
    holds(is_filled(&body, 0), "its body")?;
    let second = scan_ahead(&mut disk, &mut ahead, 4120, &mut body)?;
    holds(second == Step::Counted { next: 8221 }, "the second")?;
    holds(is_filled(&body, 1), "the second's body")?;
    // It ends past the first 65,536 bytes after the header.
    let sixteenth = scan_ahead(&mut disk, &mut ahead, 61_534, &mut body)?;
    holds(sixteenth == Step::Counted { next: 65_635 }, "the sixteenth")?;
    holds(is_filled(&body, 15), "the sixteenth's body")?;
    let end = scan_ahead(&mut disk, &mut ahead, 82_039, &mut body)?;
    holds(end == Step::Closed, "the end")?;
    let past = scan_ahead(&mut disk, &mut ahead, 82_040, &mut body)?;
    holds(past == Step::Damaged, "past it")?;
    Ok(())
}

// The header of a file of these bytes.
fn header_of(alloc: Global, file: &[u8]) -> Result<Header, Fail> {
    let mut disk = disk_of(alloc, file)?;
    Ok(read_header(&mut disk)?)
}

const HEADERS: [(&str, &[u8], Header); 12] = [
    ("no byte", b"", Header::NotBegun),
    ("one byte", b"\x01", Header::NotBegun),
    ("gate 0", b"\x00VFCHAIN1\x02B12345674\x00", Header::NotBegun),
    (
        "gate 0, more bytes",
        b"\x00VFCHAIN1\x02B12345674\x00\x00",
        Header::Damaged { at: 0 },
    ),
    ("cut in the name", b"\x01VFCHAIN", Header::Damaged { at: 8 }),
    ("no version", b"\x01VFCHAIN1", Header::Damaged { at: 9 }),
    (
        "another name",
        b"\x01VFCHAIN2\x02B12345674\x00",
        Header::Damaged { at: 1 },
    ),
    (
        "version 0",
        b"\x01VFCHAIN1\x00B12345674\x00",
        Header::Damaged { at: 9 },
    ),
    (
        "version 3",
        b"\x01VFCHAIN1\x03B12345674\x00",
        Header::Damaged { at: 9 },
    ),
    (
        "version 255",
        b"\x01VFCHAIN1\xffB12345674\x00",
        Header::Damaged { at: 9 },
    ),
    (
        "cut in the issuer",
        b"\x01VFCHAIN1\x02B1234567",
        Header::Damaged { at: 18 },
    ),
    (
        "no tax number",
        b"\x01VFCHAIN1\x02B12345675\x00",
        Header::Damaged { at: 10 },
    ),
];

fn issuer() -> Result<Nif, Fail> {
    match Nif::read("B12345674") {
        Ok(issuer) => Ok(issuer),
        Err(_) => Err(Fail::from("a tax number")),
    }
}

fn is_begun(alloc: Global, version: u8) -> Result<(), Fail> {
    let mut file = *b"\x01VFCHAIN1\x00B12345674\x00";
    file[9] = version;
    let issuer = issuer()?;
    let header = header_of(alloc, &file)?;
    holds(header == Header::Begun { issuer, version }, "a version")
}

#[test]
fn a_header_is_read_by_its_rows(rt: HostRuntime) -> Result<(), Fail> {
    is_begun(rt.alloc(), 1)?;
    is_begun(rt.alloc(), 2)?;
    for (row, file, wanted) in &HEADERS {
        holds(header_of(rt.alloc(), file)? == *wanted, row)?;
    }
    Ok(())
}

const STOPPED: JournalFault = JournalFault::Stopped { faults: 1 };

// Whether an append fails, and the journal stops by it.
fn is_stopped(journal: &mut Journal<MemDisk>) -> bool
    requires { end_of journal.old ≡ 19 }
{
    let failed = append(journal, b"abc");
    let again = append(journal, b"abc");
    let is_told = failed == Err(JournalFault::DiskFault) && again == Err(STOPPED);
    is_told && journal.stopped() == Some(1)
}

// A creation makes seven calls, and an append four. What each image of a disk reads as, whichever fails, is shown by the tests of whole runs.
#[test]
fn a_journal_stops_where_an_append_fails(rt: HostRuntime) -> Result<(), Fail> {
    let store_fault = StoreFault::from(STOPPED);
    holds(store_fault == StoreFault::Stopped { faults: 1 }, "a stop")?;
    for call in 8..=11u64 {
        let mut journal = created(rt.alloc(), call)?;
        holds(is_stopped(&mut journal), "an append")?;
    }
    Ok(())
}
