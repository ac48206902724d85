//! Lines, cut from a source that gives a few bytes at a time.
use line_reader::{LineReader, Next, bytes_have_one_list_of_lines};
use ports::{Failed, MemSource, Source};
use std::alloc::Global;
use std::sync::Wait;
use std::test::Fail;
use test_rows::holds;

const END: u8 = 4;

/// A source that gives a few bytes at a time, and counts how often it was asked. At a byte END it says that it is at its end, and
/// may have more after it, as a terminal does.
#[derive(Drop)]
pub struct Trickle<'a> {
    bytes: &'a [u8],
    room: usize,
    pub calls: u64,
}

impl Trickle<'_> {
    pub fn of(bytes: &[u8], room: usize) -> Trickle<'_> {
        Trickle {
            bytes,
            room,
            calls: 0,
        }
    }
}

impl Source for Trickle<'_> {
    ghost use Rattle.std.specs.Prelude.{None, true};
    ghost use Rattle.std.proofs.Common.{rules, arith};

    ghost left = { λ s. None };

    ghost faults = { λ s. 0 };

    ghost counts = { true };

    ghost few_faults = { Prim.search (rules, arith) };

    fn read(&mut self, buf: &mut [u8]) -> Result<usize, Failed> {
        self.calls = self.calls.saturating_add(1);
        if !self.bytes.is_empty() && self.bytes[0] == END {
            self.bytes = &self.bytes[1..];
            return Ok(0);
        }
        let ahead = self
            .bytes
            .iter()
            .position(|b| *b == END)
            .unwrap_or(self.bytes.len());
        let count = ahead.min(self.bytes.len()).min(buf.len()).min(self.room);
        buf[..count].copy_from_slice(&self.bytes[..count]);
        self.bytes = &self.bytes[count..];
        Ok(count)
    }
}

fn put_byte(told: &mut Vec<u8>, byte: u8) -> Result<(), Fail> {
    told.push(byte)?;
    Ok(())
}

fn put_size(alloc: Global, told: &mut Vec<u8>, size: usize) -> Result<(), Fail> {
    let size = format!(in alloc; "{size}")?;
    told.extend_from_slice(size.as_bytes())?;
    Ok(())
}

fn put_bytes(told: &mut Vec<u8>, bytes: &[u8]) -> Result<(), Fail> {
    told.extend_from_slice(bytes)?;
    Ok(())
}

// A line in angle brackets: itself, or its length where it has more than eight bytes.
fn put_line(alloc: Global, told: &mut Vec<u8>, line: &[u8]) -> Result<(), Fail> {
    put_byte(told, b'<')?;
    if line.len() > 8 {
        put_size(alloc, told, line.len())?;
    } else {
        put_bytes(told, line)?;
    }
    put_byte(told, b'>')
}

// What comes next: a line, ! for one that is too long, ? for a fault, and a point for the end. Whether it was the end.
fn put_next<S: Source, R: Wait>(
    rt: &R,
    alloc: Global,
    reader: &mut LineReader,
    source: &mut S,
    told: &mut Vec<u8>,
) -> Result<bool, Fail> {
    match reader.next_line(rt, source) {
        Ok(Next::Line | Next::Unended) => put_line(alloc, told, reader.line())?,
        Ok(Next::TooLong) => put_byte(told, b'!')?,
        Err(Failed) => put_byte(told, b'?')?,
        Ok(Next::End) => {
            put_byte(told, b'.')?;
            return Ok(true);
        }
    }
    Ok(false)
}

// What comes up to the end.
fn all_told<S: Source, R: Wait>(rt: &R, alloc: Global, source: &mut S) -> Result<Vec<u8>, Fail> {
    let mut reader = LineReader::new(alloc)?;
    let mut told = Vec::new(alloc);
    for _ in 0..20 {
        if put_next(rt, alloc, &mut reader, source, &mut told)? {
            break;
        }
    }
    Ok(told)
}

// Whether all that a source gives are these lines.
fn gives<S: Source, R: Wait>(
    rt: &R,
    alloc: Global,
    source: &mut S,
    lines: &str,
) -> Result<bool, Fail> {
    let told = all_told(rt, alloc, source)?;
    Ok(told.as_slice() == lines.as_bytes())
}

fn run_of(alloc: Global, count: usize, tail: &str) -> Result<Vec<u8>, Fail> {
    let mut bytes = vec![in alloc; b'a'; count]?;
    bytes.extend_from_slice(tail.as_bytes())?;
    Ok(bytes)
}

// A source of this run of bytes, whose read of this number fails, from 1.
fn source_of(alloc: Global, count: usize, tail: &str, failing: u64) -> Result<MemSource, Fail> {
    let bytes = run_of(alloc, count, tail)?;
    let failing = Vec::from_slice(alloc, &[failing])?;
    Ok(MemSource::new(alloc, bytes, failing))
}

type Cut = (&'static str, &'static str);

const CUTS: [Cut; 7] = [
    ("", "."),
    ("\n", "<>."),
    ("a", "<a>."),
    ("a\n", "<a>."),
    ("a\nb", "<a><b>."),
    ("\n\na\r\n#\n", "<><><a\r><#>."),
    ("sale 1\nfix\n", "<sale 1><fix>."),
];

const ROOMS: [usize; 4] = [1, 2, 3, 100];

fn is_cut<R: Wait>(rt: &R, alloc: Global, cut: &Cut, room: usize) -> Result<(), Fail> {
    let mut source = Trickle::of(cut.0.as_bytes(), room);
    holds(gives(rt, alloc, &mut source, cut.1)?, cut.0)
}

#[test]
fn lines_are_cut_at_each_lf_however_the_reads_fall(rt: HostRuntime) -> Result<(), Fail> {
    for cut in &CUTS {
        for room in &ROOMS {
            is_cut(&rt, rt.alloc(), cut, *room)?;
        }
        bytes_have_one_list_of_lines(cut.0.as_bytes());
    }
    Ok(())
}

// How many bytes, what comes after them, which read fails, and the lines. The second read comes in the middle of a line of 5,000
// bytes, the nineteenth where the front of a longer one was dropped.
type Run = (&'static str, usize, &'static str, u64, &'static str);

const RUNS: [Run; 12] = [
    ("65535", 65_535, "\nb", 0, "<65535><b>."),
    ("65536", 65_536, "\nb", 0, "<65536><b>."),
    ("65536 at the end", 65_536, "", 0, "<65536>."),
    ("65537", 65_537, "\nb", 0, "!<b>."),
    ("65537 at the end", 65_537, "", 0, "!."),
    ("65535 and CR", 65_535, "\r\nb", 0, "<65536><b>."),
    ("65536 and CR", 65_536, "\r\nb", 0, "!<b>."),
    ("200000", 200_000, "\n\nb\n", 0, "!<><b>."),
    ("the first read", 5_000, "\nb", 1, "?<5000><b>."),
    ("the second read", 5_000, "\nb", 2, "?<5000><b>."),
    ("the third read", 5_000, "\nb", 3, "<5000>?<b>."),
    ("the nineteenth read", 75_000, "\nb", 19, "?!<b>."),
];

fn is_run<R: Wait>(rt: &R, alloc: Global, run: &Run) -> Result<(), Fail> {
    let mut source = source_of(alloc, run.1, run.2, run.3)?;
    holds(gives(rt, alloc, &mut source, run.4)?, run.0)
}

#[test]
fn a_line_has_65536_bytes_at_most_and_goes_on_after_a_fault(rt: HostRuntime) -> Result<(), Fail> {
    for run in &RUNS {
        is_run(&rt, rt.alloc(), run)?;
    }
    Ok(())
}

// What is read next, the line at hand, and how many calls of the source there were.
type NextRow = (&'static str, Result<Next, Failed>, &'static str, u64);

const NEXT: [NextRow; 5] = [
    ("a", Ok(Next::Line), "a", 1),
    ("b", Ok(Next::Line), "b", 1),
    ("c", Ok(Next::Unended), "c", 2),
    ("the end", Ok(Next::End), "", 2),
    ("after the end", Ok(Next::End), "", 2),
];

fn is_next<R: Wait>(
    rt: &R,
    reader: &mut LineReader,
    source: &mut Trickle<'_>,
    row: &NextRow,
) -> Result<(), Fail> {
    let is_told = reader.next_line(rt, source) == row.1;
    let is_line = reader.line() == row.2.as_bytes();
    holds(is_told && is_line && source.calls == row.3, row.0)
}

#[test]
fn nothing_is_read_with_a_line_at_hand_nor_after_the_end(rt: HostRuntime) -> Result<(), Fail> {
    let mut reader = LineReader::new(rt.alloc())?;
    let mut source = Trickle::of(b"a\nb\nc\x04d\n", 100);
    for row in &NEXT {
        is_next(&rt, &mut reader, &mut source, row)?;
    }
    Ok(())
}
