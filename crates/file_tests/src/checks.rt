//! The command `check` over a source, a sink and a file that fail.
use crate::files::disk_of;
use chain_disk::MemDisk;
use file_commands::check_cmd;
use ports::{MemSink, MemSource};
use report::Detail;
use std::alloc::Global;
use std::test::Fail;
use std::thread::Threads;
use test_rows::holds;

// What the command comes to with four workers. The source and the sink fail at the calls of these numbers, from 1.
fn checked<R: Threads + Sync>(
    rt: &R,
    alloc: Global,
    source: &[u8],
    failing: (u64, u64),
    disk: MemDisk,
) -> Result<(u8, Detail), Fail> {
    let mut source = MemSource::new(
        alloc,
        Vec::from_slice(alloc, source)?,
        Vec::from_slice(alloc, &[failing.0])?,
    );
    let mut sink = MemSink::new(alloc, Vec::from_slice(alloc, &[failing.1])?);
    let (ended, _) = check_cmd(rt, alloc, 4, &mut source, &mut sink, disk);
    if !sink.bytes().is_empty() {
        return Err(Fail::from("a text"));
    }
    Ok((ended.status, ended.detail))
}

const DAMAGED: [u8; 40] = [2; 40];

type End = (u8, Detail);

// The calls of the source and of the sink that fail, the file's bytes, its call that fails, and the end. The source comes first.
const FAULTS: [(&str, (u64, u64), &[u8], u64, End); 4] = [
    ("bytes", (0, 0), &DAMAGED, 0, (7, Detail::Damaged { at: 0 })),
    ("the file", (0, 0), &DAMAGED, 1, (6, Detail::DiskFault)),
    ("the source", (1, 0), &DAMAGED, 0, (4, Detail::ReadFault)),
    ("the sink", (0, 1), &[], 0, (5, Detail::WriteFault)),
];

#[test]
fn each_fault_has_its_status(rt: HostRuntime) -> Result<(), Fail> {
    let alloc = rt.alloc();
    for (name, calls, file, failing, end) in FAULTS {
        let disk = disk_of(alloc, file, failing)?;
        holds(checked(&rt, alloc, b"x", calls, disk)? == end, name)?;
    }
    let long = vec![in alloc; 10u8; 16_777_217]?;
    let disk = disk_of(alloc, &DAMAGED, 0)?;
    let end = checked(&rt, alloc, &long, (0, 0), disk)?;
    holds(end == (12, Detail::TooBig), "a source that is too big")
}
