//! A file and its copy, with each call of either disk failing in turn.
use crate::runs::{
    FILLS, NEXT_DAY, TEN, TWO, disk_of, file_of, holds_at, image_at, last_moment, run_in,
};
use agency_port::PracticeAgency;
use chain_disk::{Disk, Fill, MemDisk};
use ports::{CountingClock, LeapSleeper, MemSink, MemSource, OpenGate};
use std::alloc::Global;
use std::sync::Wait;
use std::test::Fail;
use std::thread::Threads;
use test_rows::holds;
use verifactu::{Outside, Post, Posts};

const FOLLOW: &str = "follow shop.chain copy.chain";

const GUARD: &str = "guard shop.chain 89890001K copy.chain";

// What a run over two disks left.
#[derive(Drop)]
struct Pair {
    status: u8,
    text: Vec<u8>,
    disk: MemDisk,
    copy: MemDisk,
}

// What is outside a run over memory.
type Devices = Outside<MemDisk, CountingClock, LeapSleeper, PracticeAgency>;

// All that is outside a run over two disks, with an agency that has processed nothing.
fn outside_of(alloc: Global, disk: MemDisk, copy: MemDisk) -> Result<Devices, Fail> {
    let mut posts = Vec::new(alloc);
    let pushed = posts.push(Post {
        disk: copy,
        clock: CountingClock::new(TEN, 0),
        sleeper: LeapSleeper::new(NEXT_DAY),
        agency: PracticeAgency::new(alloc),
    });
    let outside = Outside {
        disk,
        clock: CountingClock::new(TEN, 0),
        sleeper: LeapSleeper::new(NEXT_DAY),
        agency: PracticeAgency::new(alloc),
        more: Posts::of(posts),
    };
    pushed?;
    Ok(outside)
}

// The pair that this run left.
fn pair_of(status: u8, text: Vec<u8>, outside: Devices) -> Result<Pair, Fail> {
    let Outside { disk, more, .. } = outside;
    match more.into_vec().pop() {
        Some(Post { disk: copy, .. }) => Ok(Pair {
            status,
            text,
            disk,
            copy,
        }),
        None => Err(Fail::from("a copy")),
    }
}

// Runs the words over these devices.
fn paired_by(
    rt: &(impl AllocGlobal + Threads + Wait + Sync),
    words: &str,
    outside: Devices,
) -> Result<Pair, Fail> {
    let alloc = rt.alloc();
    let mut source = MemSource::new(alloc, Vec::new(alloc), Vec::new(alloc));
    let mut sink = MemSink::new(alloc, Vec::new(alloc));
    match run_in(rt, words, &mut source, &mut sink, outside, &OpenGate) {
        Ok((ended, outside)) => {
            let text = Vec::from_slice(alloc, sink.bytes())?;
            pair_of(ended.status, text, outside)
        }
        Err(fail) => Err(fail),
    }
}

// Runs the words over two disks.
fn paired(
    rt: &(impl AllocGlobal + Threads + Wait + Sync),
    words: &str,
    disk: MemDisk,
    copy: MemDisk,
) -> Result<Pair, Fail> {
    match outside_of(rt.alloc(), disk, copy) {
        Ok(outside) => paired_by(rt, words, outside),
        Err(fail) => Err(fail),
    }
}

// What a disk has, whose failing call may be still to come: it fails once.
fn bytes_of(alloc: Global, disk: &mut MemDisk) -> Result<Vec<u8>, Fail> {
    let mut bytes = vec![in alloc; 0u8; 1000]?;
    let count = match disk.read_at(0, &mut bytes) {
        Ok(count) => count,
        Err(_) => disk.read_at(0, &mut bytes)?,
    };
    bytes.truncate(count);
    Ok(bytes)
}

// Whether these are the bytes of a disk.
fn has(alloc: Global, disk: &mut MemDisk, wanted: &[u8]) -> Result<bool, Fail> {
    Ok(bytes_of(alloc, disk)?.as_slice() == wanted)
}

// Whether the words leave these files of disks with these bytes, and are done.
fn leads_to(
    rt: &(impl AllocGlobal + Threads + Wait + Sync),
    words: &str,
    file: &[u8],
    copy: MemDisk,
    wanted: &[u8],
) -> Result<bool, Fail> {
    let alloc = rt.alloc();
    let mut pair = paired(rt, words, disk_of(alloc, file, 0)?, copy)?;
    let is_file = pair.status == 0 && has(alloc, &mut pair.disk, wanted)?;
    Ok(is_file && has(alloc, &mut pair.copy, wanted)?)
}

fn follows_on(
    rt: &(impl AllocGlobal + Threads + Wait + Sync),
    file: &[u8],
    copy: &MemDisk,
    moment: u64,
    fill: Fill,
) -> Result<bool, Fail> {
    match image_at(rt.alloc(), copy, moment, fill)? {
        Some(image) => leads_to(rt, FOLLOW, file, image, file),
        None => Err(Fail::from("an image")),
    }
}

// Whether each image of the last moments of a copy is one that may be followed on, to the whole file. As the calls fail in turn,
// each moment is once among the last ones.
fn goes_on(
    rt: &(impl AllocGlobal + Threads + Wait + Sync),
    file: &[u8],
    copy: &MemDisk,
) -> Result<bool, Fail> {
    let last = last_moment(rt.alloc(), copy)?;
    let mut is_led = true;
    for moment in last.saturating_sub(6)..=last {
        for fill in &FILLS {
            is_led = is_led && follows_on(rt, file, copy, moment, *fill)?;
        }
    }
    Ok(is_led)
}

// Whether a disk was only read.
fn is_read_alone(alloc: Global, disk: &MemDisk) -> Result<bool, Fail> {
    Ok(image_at(alloc, disk, 1, Fill::New)?.is_none())
}

fn has_failed(pair: &Pair) -> bool {
    pair.disk.faults() > 0 || pair.copy.faults() > 0
}

// Whether the status of a run says if a disk failed, and the same again leaves both files as they would have been.
fn is_mended(
    rt: &(impl AllocGlobal + Threads + Wait + Sync),
    words: &str,
    file: &[u8],
    mut pair: Pair,
    wanted: &[u8],
) -> Result<bool, Fail> {
    let alloc = rt.alloc();
    let status = if has_failed(&pair) { 6 } else { 0 };
    let is_told = pair.status == status;
    let is_followed = words == GUARD
        || is_read_alone(alloc, &pair.disk)? && goes_on(rt, file, &pair.copy)?;
    let left = bytes_of(alloc, &mut pair.disk)?;
    let copy = disk_of(alloc, &bytes_of(alloc, &mut pair.copy)?, 0)?;
    let is_led = leads_to(rt, words, &left, copy, wanted)?;
    Ok(is_told && is_followed && is_led)
}

// The words, how many calls of a disk they make at most, and what is printed.
type Run = (&'static str, u64, &'static str);

const RUNS: [Run; 2] = [
    (FOLLOW, 29, "followed 2 entries 2\n"),
    (GUARD, 39, "cleared\nnoted 2\nchain 2 noted 2\n"),
];

// A run over this file and an empty copy, each of whose disks fails at the call of its number.
fn ran(
    rt: &(impl AllocGlobal + Threads + Wait + Sync),
    words: &str,
    file: &[u8],
    failing: (u64, u64),
) -> Result<Pair, Fail> {
    let copy = disk_of(rt.alloc(), &[], failing.1)?;
    match disk_of(rt.alloc(), file, failing.0) {
        Ok(disk) => paired(rt, words, disk, copy),
        Err(fail) => Err(fail),
    }
}

// The file that a run leaves over disks that don't fail.
fn whole(
    rt: &(impl AllocGlobal + Threads + Wait + Sync),
    run: &Run,
    file: &[u8],
) -> Result<Vec<u8>, Fail> {
    let mut pair = ran(rt, run.0, file, (0, 0))?;
    let is_text = pair.text.as_slice() == run.2.as_bytes();
    holds(is_text && pair.status == 0, run.0)?;
    bytes_of(rt.alloc(), &mut pair.disk)
}

fn fails_at(
    rt: &(impl AllocGlobal + Threads + Wait + Sync),
    run: &Run,
    file: &[u8],
    wanted: &[u8],
    failing: (u64, u64),
) -> Result<(), Fail> {
    let call = failing.0.max(failing.1);
    let pair = ran(rt, run.0, file, failing)?;
    let failed = has_failed(&pair);
    let is_due = (call > 1 || failed) && (call < run.1 || !failed);
    let is_mended = is_mended(rt, run.0, file, pair, wanted)?;
    holds_at(is_due && is_mended, run.0, call)
}

#[test]
fn each_call_of_either_disk_fails_in_turn(rt: HostRuntime) -> Result<(), Fail> {
    let file = bytes_of(rt.alloc(), &mut file_of(&rt, TWO)?)?;
    for run in &RUNS {
        let wanted = whole(&rt, run, &file)?;
        for call in 1..=run.1 {
            fails_at(&rt, run, &file, &wanted, (call, 0))?;
            fails_at(&rt, run, &file, &wanted, (0, call))?;
        }
    }
    Ok(())
}
