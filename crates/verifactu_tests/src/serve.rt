//! Devices in lockstep: a source that gives a line only once the lines before it are answered, and a disk and a clock that share
//! with the sink how many syncs were made.
ghost use Rattle.std.specs.Prelude.{◌≡◌, ◌≤◌, ◌-◌, ◌^◌, false};
ghost use Rattle.chain_disk.specs.File.{nothing_on_disk, nothing_reads};

use crate::runs::{CHAIN, DAY, NEXT_DAY, SERVE, TEN, run_in};
use agency_port::{ToldAgency, ToldAnswers};
use chain_disk::Disk;
use ports::{Clock, Failed, LeapSleeper, OpenGate, Sink, Source};
use std::alloc::Global;
use std::sync::Wait;
use std::sync::atomic::{AtomicU64, Ordering};
use std::test::Fail;
use std::thread::Threads;
use test_rows::holds;
use verifactu::{Outside, Posts};

// A disk in memory that tells nothing, and counts its syncs where others see it.
#[derive(Drop)]
struct CountedDisk<'a> {
    bytes: Vec<u8>,
    faults: u64,
    syncs: &'a AtomicU64,
    ghost few: { faults ≤ 2 ^ 64 - 1 },
}

impl<'a> CountedDisk<'a> {
    fn put(&mut self, at: usize, bytes: &[u8]) -> Option<()>
        ensures { self.new.faults ≡ self.old.faults }
    {
        let end = at.checked_add(bytes.len())?;
        if end > self.bytes.len() {
            self.bytes.resize(end, 0).ok()?;
        }
        self.bytes[at..end].copy_from_slice(bytes);
        Some(())
    }
}

impl<'a> Disk for CountedDisk<'a> {
    ghost tells = { false };

    ghost on_disk = { λ d. nothing_on_disk };

    ghost faults = { λ d. d.faults };

    ghost reads_an_image = { λ d tells. nothing_reads };

    ghost few_faults = { λ d. d.few };

    fn len(&mut self) -> Result<u64, Failed> {
        Ok(self.bytes.len() as u64)
    }

    fn read_at(&mut self, at: u64, buf: &mut [u8]) -> Result<usize, Failed> {
        let from = self.bytes.len().min(at as usize);
        let n = self.bytes.len().saturating_sub(from).min(buf.len());
        buf[..n].copy_from_slice(&self.bytes[from..from.saturating_add(n)]);
        Ok(n)
    }

    fn write_at(&mut self, at: u64, bytes: &[u8]) -> Result<(), Failed> {
        match self.put(at as usize, bytes) {
            Some(()) => Ok(()),
            None => {
                self.faults = self.faults.saturating_add(1);
                Err(Failed)
            }
        }
    }

    fn sync(&mut self) -> Result<(), Failed> {
        self.syncs.fetch_add(1, Ordering::SeqCst);
        Ok(())
    }

    fn faults(&self) -> u64 {
        self.faults
    }
}

// How many syncs there are once this many records were made: four of opening, and two a record.
fn syncs_for(records: u64) -> u64 {
    records.saturating_mul(2).saturating_add(4)
}

// A clock that sees at each reading how many syncs were made. Its first commands are sales, and this many.
#[derive(Drop)]
struct WatchingClock<'a> {
    syncs: &'a AtomicU64,
    sales: u64,
    readings: u64,
    early: u64,
}

impl<'a> Clock for WatchingClock<'a> {
    ghost use Rattle.std.specs.Prelude.{None, ⊤};

    ghost last = { λ c. 1_735_722_000 };

    ghost coming = { λ c k. None };

    ghost by_readings = { λ _ _. ⊤ };

    ghost unread = { λ _. tt };

    ghost reading_goes_on = { λ _ _ _ _ _. tt };

    fn now(&mut self) -> u64 {
        if self.syncs.load(Ordering::SeqCst) < syncs_for(self.readings.min(self.sales)) {
            self.early = self.early.saturating_add(1);
        }
        self.readings = self.readings.saturating_add(1);
        TEN
    }
}

// A source that gives one line a call, and counts the calls that came while a line that has an answer had none.
#[derive(Drop)]
struct LockstepSource<'a> {
    bytes: &'a [u8],
    answers: &'a AtomicU64,
    due: u64,
    early: u64,
}

impl<'a> LockstepSource<'a> {
    fn of(bytes: &'a [u8], answers: &'a AtomicU64) -> LockstepSource<'a> {
        LockstepSource {
            bytes,
            answers,
            due: 0,
            early: 0,
        }
    }
}

impl<'a> Source for LockstepSource<'a> {
    ghost use Rattle.std.specs.Prelude.{None, true};
    ghost use Rattle.std.proofs.Common.{rules, arith};

    ghost left = { λ s. None };

    ghost faults = { λ s. 0 };

    ghost counts = { true };

    ghost few_faults = { Prim.search (rules, arith) };

    fn read(&mut self, buf: &mut [u8]) -> Result<usize, Failed> {
        if self.answers.load(Ordering::SeqCst) < self.due {
            self.early = self.early.saturating_add(1);
        }
        let line = self.bytes.iter().position(|byte| *byte == b'\n');
        let end = line.map_or(self.bytes.len(), |at| at.saturating_add(1));
        let count = end.min(self.bytes.len()).min(buf.len());
        buf[..count].copy_from_slice(&self.bytes[..count]);
        if count > 0 && !matches!(self.bytes[0], b'#' | b'\r' | b'\n') {
            self.due = self.due.saturating_add(1);
        }
        self.bytes = &self.bytes[count..];
        Ok(count)
    }
}

// A sink that takes a few bytes a call, and notes at the end of each line how many syncs were made.
#[derive(Drop)]
struct LockstepSink<'a> {
    bytes: Vec<u8>,
    answers: &'a AtomicU64,
    syncs: &'a AtomicU64,
    at: Vec<u64>,
    lost: bool,
}

impl<'a> LockstepSink<'a> {
    fn of(alloc: Global, answers: &'a AtomicU64, syncs: &'a AtomicU64) -> LockstepSink<'a> {
        LockstepSink {
            bytes: Vec::new(alloc),
            answers,
            syncs,
            at: Vec::new(alloc),
            lost: false,
        }
    }
}

impl<'a> Sink for LockstepSink<'a> {
    ghost use Rattle.std.specs.Prelude.{None};
    ghost use Rattle.std.proofs.Common.{rules, arith};

    ghost taken = { λ s. None };

    ghost faults = { λ s. 0 };

    ghost few_faults = { Prim.search (rules, arith) };

    fn write(&mut self, bytes: &[u8]) -> Result<usize, Failed> {
        let part = &bytes[..bytes.len().min(7)];
        self.lost |= self.bytes.extend_from_slice(part).is_err();
        for byte in part {
            if *byte == b'\n' {
                self.lost |= self.at.push(self.syncs.load(Ordering::SeqCst)).is_err();
                self.answers.fetch_add(1, Ordering::SeqCst);
            }
        }
        Ok(part.len())
    }
}

// How many lines tell of a record as taken, and whether each of these was synced by then.
fn synced_in(text: &str, syncs: &[u64]) -> (u64, bool) {
    let mut taken = 0u64;
    let mut are_synced = true;
    for (line, at) in text.lines().zip(syncs.iter()) {
        if line.contains(" taken ") {
            taken = taken.saturating_add(1);
            are_synced = are_synced && *at >= syncs_for(taken);
        }
    }
    (taken, are_synced)
}

// Whether a sink took this front of a text, each of the three records synced before its line.
fn is_told(sink: &LockstepSink<'_>, text: &str) -> bool {
    match str::from_utf8(sink.bytes.as_slice()) {
        Ok(printed) => {
            let are_synced = synced_in(printed, sink.at.as_slice()) == (3, true);
            are_synced && !sink.lost && printed.starts_with(text)
        }
        Err(_) => false,
    }
}

// An agency that never answers: no line is noted, and none of the syncs is the sender's.
fn silent(alloc: Global) -> ToldAgency {
    ToldAgency::new(alloc, ToldAnswers::of(Vec::new(alloc)))
}

fn disk_of(alloc: Global, syncs: &AtomicU64) -> CountedDisk<'_> {
    CountedDisk {
        bytes: Vec::new(alloc),
        faults: 0,
        syncs,
    }
}

// All that is outside a run whose syncs are counted here.
fn outside_of(
    alloc: Global,
    syncs: &AtomicU64,
) -> Outside<CountedDisk<'_>, WatchingClock<'_>, LeapSleeper, ToldAgency> {
    Outside {
        disk: disk_of(alloc, syncs),
        clock: WatchingClock {
            syncs,
            sales: 3,
            readings: 0,
            early: 0,
        },
        sleeper: LeapSleeper::new(NEXT_DAY),
        agency: silent(alloc),
        more: Posts::of(Vec::new(alloc)),
    }
}

const SALES: &str = "sale 1 1 A F2 21:10000\nsale 1 2 A F2 21:10000\nsale 1 3 A F2 21:10000\n";

const TAKEN: &str =
    "till 1 serial 1 taken 1 A-1 D88B42F8D11C4EA2112502EC992F055A7E94F796D67095359B946A4A5B03E616\ntill 1 serial 2 taken 2 A-2 4DB9BA37C07D44D4DAFC79742BD454AE86D5C6A354352780573CF06FACADE438\ntill 1 serial 3 taken 3 A-3 8D67231369C8F2A30232EE5EBB99BB2391568F2F51A85DF05CF8129E898F6C8A\n";

const LINES: &str =
    "# a till's morning\n\r\n\ncustomer ACME B12345674 Acme SL\nsale 1 1 A F2 21:10000\nsell 1 2 A F2 21:10000\nsale 1 2 A F2 21:10000\r\n# tea\nsale 1 3 A F2 21:10000\nfix 1 9 Z-9 F2 21:100\nclock 0 0\nsale 1 1 A F2 21:500\n";

const ANSWERS: &str =
    "customer ACME\ntill 1 serial 1 taken 1 A-1 D88B42F8D11C4EA2112502EC992F055A7E94F796D67095359B946A4A5B03E616\nline 6 Verb\ntill 1 serial 2 taken 2 A-2 4DB9BA37C07D44D4DAFC79742BD454AE86D5C6A354352780573CF06FACADE438\ntill 1 serial 3 taken 3 A-3 8D67231369C8F2A30232EE5EBB99BB2391568F2F51A85DF05CF8129E898F6C8A\ntill 1 serial 9 refused unknown\nline 11 Verb\ntill 1 serial 1 again 1 A-1 D88B42F8D11C4EA2112502EC992F055A7E94F796D67095359B946A4A5B03E616\nchain 3 noted 0\n";

// The words, what they read, the front of what is printed, the readings of the clock, and the status: the agency never answers,
// which `chain` doesn't ask.
type Run = (&'static str, &'static str, &'static str, u64, u8);

const RUNS: [Run; 3] = [
    (CHAIN, SALES, TAKEN, 3, 0),
    (DAY, SALES, TAKEN, 3, 8),
    (SERVE, LINES, ANSWERS, 5, 8),
];

// Whether a clock was read as often, and never before a record was synced.
fn is_read(clock: &WatchingClock<'_>, readings: u64) -> bool {
    clock.readings == readings && clock.early == 0
}

// Fails where a record isn't synced before its answer and before the next command.
fn keeps_order(rt: &(impl AllocGlobal + Threads + Wait + Sync), row: &Run) -> Result<(), Fail> {
    let syncs = AtomicU64::new(0);
    let answers = AtomicU64::new(0);
    let mut source = LockstepSource::of(row.1.as_bytes(), &answers);
    let mut sink = LockstepSink::of(rt.alloc(), &answers, &syncs);
    let outside = outside_of(rt.alloc(), &syncs);
    match run_in(rt, row.0, &mut source, &mut sink, outside, &OpenGate) {
        Ok((ended, outside)) => {
            let is_done = ended.status == row.4 && is_read(&outside.clock, row.3);
            // The other two read their script to its end first.
            let is_lockstep = (source.early == 0) == (row.0 == SERVE);
            holds(is_done && is_lockstep && is_told(&sink, row.2), row.0)
        }
        Err(fail) => Err(fail),
    }
}

#[test]
fn each_record_is_synced_before_its_answer_and_the_next_command(
    rt: HostRuntime,
) -> Result<(), Fail> {
    for row in &RUNS {
        keeps_order(&rt, row)?;
    }
    Ok(())
}
