//! The one call that each test makes, over devices in memory. The expected Huellas of these tests are SHA-256, by another program,
//! of the field texts of their records. `run_in` has no clauses, so that those of `run` stay out of its callers' proofs.
use agency_port::{Agency, PracticeAgency};
use chain_disk::{Disk, Fill, MemDisk};
use ports::{Clock, CountingClock, Gate, LeapSleeper, MemSink, MemSource, OpenGate, Sink, Source};
use report::Ended;
use std::alloc::Global;
use std::sync::Wait;
use std::test::Fail;
use std::thread::Threads;
use test_rows::holds;
use verifactu::{Outside, Posts, posts_needed, run};

// 2025-01-01, 10:00 on the peninsular clock.
pub const TEN: u64 = 1_735_722_000;

// 2025-01-02, 07:40 on the peninsular clock.
pub const NEXT_DAY: u64 = 1_735_800_000;

pub const CHAIN: &str = "chain shop.chain 89890001K";

pub const DAY: &str = "day shop.chain 89890001K";

pub const DRAIN: &str = "drain shop.chain 89890001K";

pub const SERVE: &str = "serve shop.chain 89890001K";

pub const ONE: &str = "sale 1 1 A F2 21:10000\n";

pub const TWO: &str = "sale 1 1 A F2 21:10000\nsale 1 2 A F2 21:10000\n";

pub const FILLS: [Fill; 4] = [Fill::Old, Fill::New, Fill::Zeros, Fill::Ones];

/// Fails a test at this call of these words where what it holds of it isn't so.
pub fn holds_at(is: bool, words: &str, call: u64) -> Result<(), Fail> {
    if is {
        Ok(())
    } else {
        Err(Fail::new(format_args!("at call {call} of {words}")))
    }
}

/// What a run left.
#[derive(Drop)]
pub struct Left<G> {
    pub ended: Ended,
    pub text: String,
    pub disk: MemDisk,
    pub agency: G,
}

/// A disk that holds these bytes, and fails at the call of this number, from 1.
pub fn disk_of(alloc: Global, bytes: &[u8], failing: u64) -> Result<MemDisk, Fail> {
    let bytes = Vec::from_slice(alloc, bytes)?;
    let failing = Vec::from_slice(alloc, &[failing])?;
    Ok(MemDisk::new(alloc, bytes, failing))
}

/// The image of a moment, filled so. None where the moment is not yet.
pub fn image_at(
    alloc: Global,
    disk: &MemDisk,
    moment: u64,
    fill: Fill,
) -> Result<Option<MemDisk>, Fail> {
    Ok(disk.image(alloc, moment, fill)?)
}

/// The last moment of a disk.
pub fn last_moment(alloc: Global, disk: &MemDisk) -> Result<u64, Fail> {
    for moment in 0..200u64 {
        if image_at(alloc, disk, moment, Fill::New)?.is_none() {
            return Ok(moment.saturating_sub(1));
        }
    }
    Err(Fail::from("a last moment"))
}

/// Runs the words, which stand between single blanks.
pub fn run_in<
    S: Source,
    K: Sink,
    D: Disk + Send + Drop,
    C: Clock + Send + Drop,
    G: Agency + Send + Drop,
    T: Gate + Sync,
>(
    rt: &(impl AllocGlobal + Threads + Wait + Sync),
    words: &str,
    source: &mut S,
    sink: &mut K,
    outside: Outside<D, C, LeapSleeper, G>,
    gate: &T,
) -> Result<(Ended, Outside<D, C, LeapSleeper, G>), Fail> {
    let list = words_of(rt.alloc(), words)?;
    if outside.more.len() != usize::from(posts_needed(&list)) {
        return Err(Fail::from("another count of files"));
    }
    Ok(run(rt, rt.alloc(), &list, source, sink, outside, gate))
}

fn words_of(alloc: Global, words: &str) -> Result<Vec<String>, Fail> {
    let mut list = Vec::new(alloc);
    for word in words.split(' ') {
        list.push(String::from_str(alloc, word)?)?;
    }
    Ok(list)
}

/// Runs the words over a source of this script and a sink, each of which fails at the call of its number, from 1. The clock
/// stands at `TEN`, and the sleeper begins on the next day.
pub fn run_with<G: Agency + Send + Drop, T: Gate + Sync>(
    rt: &(impl AllocGlobal + Threads + Wait + Sync),
    words: &str,
    script: &str,
    failing: (u64, u64),
    disk: MemDisk,
    agency: G,
    gate: &T,
) -> Result<Left<G>, Fail> {
    let outside = outside_of(rt.alloc(), disk, agency);
    let mut source = source_of(rt.alloc(), script, failing.0)?;
    let mut sink = sink_of(rt.alloc(), failing.1)?;
    match run_in(rt, words, &mut source, &mut sink, outside, gate) {
        Ok((ended, outside)) => left_by(rt.alloc(), ended, outside, &sink),
        Err(fail) => Err(fail),
    }
}

// All that is outside a run over this disk and this agency.
fn outside_of<G: Agency + Send + Drop>(
    alloc: Global,
    disk: MemDisk,
    agency: G,
) -> Outside<MemDisk, CountingClock, LeapSleeper, G> {
    Outside {
        disk,
        clock: CountingClock::new(TEN, 0),
        sleeper: LeapSleeper::new(NEXT_DAY),
        agency,
        more: Posts::of(Vec::new(alloc)),
    }
}

fn source_of(alloc: Global, script: &str, failing: u64) -> Result<MemSource, Fail> {
    let bytes = Vec::from_slice(alloc, script.as_bytes())?;
    let failing = Vec::from_slice(alloc, &[failing])?;
    Ok(MemSource::new(alloc, bytes, failing))
}

fn sink_of(alloc: Global, failing: u64) -> Result<MemSink, Fail> {
    let failing = Vec::from_slice(alloc, &[failing])?;
    Ok(MemSink::new(alloc, failing))
}

fn text_of(alloc: Global, sink: &MemSink) -> Result<String, Fail> {
    match String::from_utf8(Vec::from_slice(alloc, sink.bytes())?) {
        Ok(text) => Ok(text),
        Err(_) => Err(Fail::from("a text")),
    }
}

fn left_by<G: Agency + Send + Drop>(
    alloc: Global,
    ended: Ended,
    outside: Outside<MemDisk, CountingClock, LeapSleeper, G>,
    sink: &MemSink,
) -> Result<Left<G>, Fail> {
    let text = text_of(alloc, sink)?;
    let Outside { disk, agency, .. } = outside;
    Ok(Left {
        ended,
        text,
        disk,
        agency,
    })
}

/// Runs the words over devices that don't fail, but for the disk, with an agency that has processed nothing.
pub fn ran(
    rt: &(impl AllocGlobal + Threads + Wait + Sync),
    words: &str,
    script: &str,
    disk: MemDisk,
) -> Result<Left<PracticeAgency>, Fail> {
    let agency = PracticeAgency::new(rt.alloc());
    run_with(rt, words, script, (0, 0), disk, agency, &OpenGate)
}

/// The file of these sales.
pub fn file_of(
    rt: &(impl AllocGlobal + Threads + Wait + Sync),
    script: &str,
) -> Result<MemDisk, Fail> {
    let left = ran(rt, CHAIN, script, disk_of(rt.alloc(), &[], 0)?)?;
    Ok(left.disk)
}

/// What a run without commands lists: the records of a file, and the chain line.
pub fn listing_of(
    rt: &(impl AllocGlobal + Threads + Wait + Sync),
    disk: MemDisk,
) -> Result<String, Fail> {
    let left = ran(rt, CHAIN, "", disk)?;
    if left.ended.status != 0 {
        return Err(Fail::from("a file that opens"));
    }
    Ok(left.text)
}

const MORE: &str = "sale 1 2 A F2 21:10000\nsale 1 3 A F2 21:10000\n";

const ANSWER: &str =
    "till 1 serial 2 taken 2 A-2 4DB9BA37C07D44D4DAFC79742BD454AE86D5C6A354352780573CF06FACADE438\n";

const ANSWERS: &str =
    "till 1 serial 2 taken 2 A-2 4DB9BA37C07D44D4DAFC79742BD454AE86D5C6A354352780573CF06FACADE438\ntill 1 serial 3 taken 3 A-3 8D67231369C8F2A30232EE5EBB99BB2391568F2F51A85DF05CF8129E898F6C8A\n";

// On a file of one sale: the words, what they read, the calls that fail, the status, what was printed, and the chain line of the
// file after it. A source gives all of this in one call, and the end in a second.
type Fault = (
    &'static str,
    &'static str,
    (u64, u64),
    u8,
    &'static str,
    &'static str,
);

const FAULTS: [Fault; 12] = [
    ("--help", "", (1, 1), 5, "", "\nchain 1 noted 0\n"),
    ("audit shop.chain", "", (1, 1), 5, "", "\nchain 1 noted 0\n"),
    ("generate 1", "", (1, 1), 5, "", "\nchain 1 noted 0\n"),
    (CHAIN, MORE, (1, 0), 4, "", "\nchain 1 noted 0\n"),
    (CHAIN, MORE, (2, 0), 4, "", "\nchain 1 noted 0\n"),
    (CHAIN, MORE, (0, 1), 5, "", "\nchain 3 noted 0\n"),
    (DRAIN, "", (0, 1), 5, "", "\nchain 1 noted 1\n"),
    (SERVE, MORE, (1, 0), 4, "", "\nchain 1 noted 1\n"),
    (SERVE, MORE, (2, 0), 4, ANSWERS, "\nchain 3 noted 3\n"),
    (SERVE, MORE, (0, 1), 5, "", "\nchain 2 noted 2\n"),
    (SERVE, MORE, (0, 2), 5, ANSWER, "\nchain 3 noted 3\n"),
    (SERVE, MORE, (0, 3), 5, ANSWERS, "\nchain 3 noted 3\n"),
];

// The disk that a run left. Fails where it told something else than this.
fn told_so(left: Left<PracticeAgency>, row: &Fault) -> Result<MemDisk, Fail> {
    holds(
        left.ended.status == row.3 && left.text.as_str() == row.4,
        row.0,
    )?;
    Ok(left.disk)
}

fn stands(
    rt: &(impl AllocGlobal + Threads + Wait + Sync),
    row: &Fault,
    file: MemDisk,
) -> Result<(), Fail> {
    let agency = PracticeAgency::new(rt.alloc());
    let left = run_with(rt, row.0, row.1, row.2, file, agency, &OpenGate)?;
    let listing = listing_of(rt, told_so(left, row)?)?;
    holds(listing.ends_with(row.5), row.0)
}

#[test]
fn what_was_asked_stands_where_a_source_or_a_sink_fails(rt: HostRuntime) -> Result<(), Fail> {
    for row in &FAULTS {
        stands(&rt, row, file_of(&rt, ONE)?)?;
    }
    Ok(())
}
