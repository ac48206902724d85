//! Sources, sinks, clocks and sleepers in memory.
use ports::{
    Clock, CountingClock, Failed, Gate, LeapSleeper, ListClock, MemSink, MemSource, OpenGate, Sink,
    Sleeper, Source, StdSink, StdSource, SystemClock, ThreadSleeper, reason_of,
};
use std::alloc::Global;
use std::io::ErrorKind;
use std::sync::Wait;
use std::test::Fail;
use std::time::{SystemTime, UNIX_EPOCH};
use test_rows::holds;

fn read_once<S: Source>(source: &mut S, room: usize) -> Result<([u8; 8], usize), Failed> {
    let mut buf = [b'.'; 8];
    let count = source.read(&mut buf[..room.min(8)])?;
    Ok((buf, count))
}

// How many bytes there is room for, and what is read.
type Read = (&'static str, usize, Result<([u8; 8], usize), Failed>);

const READS: [Read; 7] = [
    ("three bytes", 3, Ok((*b"abc.....", 3))),
    ("a fault", 8, Err(Failed)),
    ("no room", 0, Ok((*b"........", 0))),
    ("two after it", 2, Ok((*b"de......", 2))),
    ("the rest", 8, Ok((*b"fghijk..", 6))),
    ("another fault", 8, Err(Failed)),
    ("the end", 8, Ok((*b"........", 0))),
];

fn reads<S: Source>(source: &mut S, row: &Read) -> Result<(), Fail> {
    holds(read_once(source, row.1) == row.2, row.0)
}

fn source_of(alloc: Global, bytes: &[u8]) -> Result<MemSource, Fail> {
    let bytes = Vec::from_slice(alloc, bytes)?;
    let failing = Vec::from_slice(alloc, &[2, 6])?;
    Ok(MemSource::new(alloc, bytes, failing))
}

#[test]
fn a_source_gives_each_byte_once_and_fails_in_mid_stream(rt: HostRuntime) -> Result<(), Fail> {
    let mut source = source_of(rt.alloc(), b"abcdefghijk")?;
    for row in &READS {
        reads(&mut source, row)?;
    }
    Ok(())
}

fn write_once<K: Sink>(sink: &mut K, bytes: &[u8]) -> Result<usize, Failed> {
    sink.write(bytes)
}

// A text, what is told of its writing, and what the sink holds then.
type Write = (&'static str, Result<usize, Failed>, &'static str);

const WRITES: [Write; 4] = [
    ("ab", Ok(2), "ab"),
    ("cd", Err(Failed), "ab"),
    ("", Ok(0), "ab"),
    ("e", Ok(1), "abe"),
];

fn writes(sink: &mut MemSink, row: &Write) -> Result<(), Fail> {
    let is_told = write_once(sink, row.0.as_bytes()) == row.1;
    holds(is_told && sink.bytes() == row.2.as_bytes(), row.0)
}

#[test]
fn a_sink_takes_all_or_fails(rt: HostRuntime) -> Result<(), Fail> {
    let mut sink = MemSink::new(rt.alloc(), Vec::from_slice(rt.alloc(), &[2])?);
    for row in &WRITES {
        writes(&mut sink, row)?;
    }
    Ok(())
}

fn four_readings<C: Clock>(clock: &mut C) -> [u64; 4] {
    [clock.now(), clock.now(), clock.now(), clock.now()]
}

fn listed(alloc: Global, values: &[u64; 2]) -> Result<[u64; 4], Fail> {
    let mut values_of = Vec::new(alloc);
    values_of.push(values[0])?;
    values_of.push(values[1])?;
    Ok(four_readings(&mut ListClock::new(values_of)))
}

const MAX: u64 = 18446744073709551615;

// A clock's first reading, its step, and four readings.
type Counted = (&'static str, u64, u64, [u64; 4]);

const COUNTED: [Counted; 3] = [
    (
        "a clock at rest",
        1735722000,
        0,
        [1735722000, 1735722000, 1735722000, 1735722000],
    ),
    ("near the end", MAX - 5, 3, [MAX - 5, MAX - 2, MAX, MAX]),
    ("one step", 0, MAX, [0, MAX, MAX, MAX]),
];

fn counts(row: &Counted) -> Result<(), Fail> {
    let readings = four_readings(&mut CountingClock::new(row.1, row.2));
    holds(readings == row.3, row.0)
}

#[test]
fn clocks_stand_still_at_their_ends(rt: HostRuntime) -> Result<(), Fail> {
    for row in &COUNTED {
        counts(row)?;
    }
    let readings = listed(rt.alloc(), &[1735722000, 1735721990])?;
    let wanted = [1735722000, 1735721990, 1735721990, 1735721990];
    holds(readings == wanted, "a list")
}

// The machine's seconds since 1970, as std tells them.
fn machine_seconds(rt: &HostRuntime) -> Result<u64, Fail> {
    let Ok(now) = SystemTime::now(rt) else {
        return Err(Fail::from("the time"));
    };
    match now.duration_since(UNIX_EPOCH) {
        Ok(since) => Ok(since.as_secs()),
        Err(_) => Err(Fail::from("a time since 1970")),
    }
}

#[test]
fn the_system_clock_tells_this_machines_time(rt: HostRuntime) -> Result<(), Fail> {
    let before = machine_seconds(&rt)?;
    let readings = four_readings(&mut SystemClock::new(&rt));
    let after = machine_seconds(&rt)?;
    let are_in_order = before <= readings[0] && readings[0] <= readings[3];
    holds(are_in_order && readings[3] <= after, "the readings")
}

// Its seconds at first, after a rest, and after waiting for a second that many seconds from the first.
fn waited<Z: Sleeper, R: Wait>(sleeper: &mut Z, rt: &R, more: u64) -> [u64; 3] {
    let first = sleeper.now();
    sleeper.rest(rt);
    let rested = sleeper.now();
    sleeper.wait_until(rt, first.saturating_add(more));
    [first, rested, sleeper.now()]
}

#[test]
fn a_sleeper_reaches_the_second_that_it_waited_for(rt: HostRuntime) -> Result<(), Fail> {
    let leaps = waited(&mut LeapSleeper::new(1735722000), &rt, 86400);
    holds(leaps == [1735722000, 1735722000, 1735808400], "leaps")
}

#[test]
fn a_sleeping_thread_reaches_the_second_that_it_waited_for(rt: HostRuntime) -> Result<(), Fail> {
    let before = machine_seconds(&rt)?;
    let [first, rested, then] = waited(&mut ThreadSleeper::new(&rt), &rt, 1);
    let after = machine_seconds(&rt)?;
    let is_rested = before <= first && first <= rested;
    holds(is_rested && first < then && then <= after, "the seconds")
}

fn pass<T: Gate, R: Wait>(gate: &T, rt: &R) {
    gate.before(rt, 1, 1);
    gate.after(rt, 1, 1);
    gate.noted(rt, 1);
}

#[test]
fn an_open_gate_holds_nobody(rt: HostRuntime) {
    pass(&OpenGate, &rt);
}

const REASONS: [(ErrorKind, &str); 6] = [
    (ErrorKind::PermissionDenied, "permission denied"),
    (ErrorKind::StorageFull, "no space left"),
    (ErrorKind::BrokenPipe, "broken pipe"),
    (ErrorKind::NotFound, "no such file"),
    (ErrorKind::IsADirectory, "is a folder"),
    (ErrorKind::TimedOut, "input or output error"),
];

fn reasons_are_texts() -> Result<(), Fail> {
    for (kind, text) in &REASONS {
        holds(reason_of(*kind) == *text, text)?;
    }
    Ok(())
}

#[test]
fn an_adapter_without_a_fault_has_no_reason(rt: HostRuntime) -> Result<(), Fail> {
    let mut sink = StdSink::new(&rt);
    let is_written = write_once(&mut sink, b"") == Ok(0) && sink.reason().is_none();
    let is_fine = is_written && StdSource::new(&rt).reason().is_none();
    holds(is_fine, "no reason")?;
    reasons_are_texts()
}
