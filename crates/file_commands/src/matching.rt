//! The command `matches`: compares lines of JSON with a file's history.
ghost use Rattle.std.specs.Prelude.{◌≡◌, ℕ, IfOk, MatchOption};
ghost use Rattle.chain_disk.specs.Disks.{this_disk};
ghost use Rattle.ports.specs.Sinks.{this_sink};
ghost use Rattle.ports.specs.Sources.{this_source};
ghost use Rattle.report.specs.Status.{status_of};
ghost use Rattle.file_commands.specs.Exporting.{objects_of};
ghost use Rattle.file_commands.specs.Exporting.Exported.{history, nothing};
ghost use Rattle.file_commands.specs.Lines.{lines_of};
ghost use Rattle.file_commands.specs.Matching.{AreLinesOf, Compared, ComparedWith, DifferFirst, IsCountTold, MatchesEnds};

use crate::input::{InputFault, read_input};
use crate::lines::next_line;
use crate::output::print;
use chain_disk::Disk;
use export::{is_entry_line, is_head_line};
use ports::{NoMemory, Sink, Source};
use report::{Detail, Ended, matches_text};
use shop_core::{FileRead, ReadFault, State, a_broken_file_is_damaged, read_file};
use std::alloc::Global;

/// Reads the source to its end and compares its lines with those that `export` prints of the file: each has to read as the same
/// object, in whatever form of JSON. Prints the count of the history's entries where they are the same, else tells the first line
/// that isn't, is missing or is too many: status 18. The source comes first, then the file, which is only read; to one that isn't
/// begun no lines are the same, and the count is 0.
pub fn matches_cmd<S: Source, K: Sink, D: Disk>(
    alloc: Global,
    source: &mut S,
    sink: &mut K,
    disk: D,
) -> (Ended, D)
    ensures status { result.0.status ≡ status_of result.0.detail }
    //= With 0 `matches` read as many lines as the export has objects, and each line as the object of its place;
    //= with 18 the line named is the first that differs, is missing or is one too many.
    ensures ends { MatchesEnds (this_source S.left S.faults source.old source.new)
        (this_sink K.taken K.faults sink.old sink.new)
        (this_disk D.tells D.on_disk D.faults disk result.1) result.0.detail }
    ensures same { D.on_disk result.1 ≡ D.on_disk disk }
{
    let mut disk = disk;
    let detail = compare_source(alloc, source, sink, &mut disk);
    (Ended::of(detail), disk)
}

// Reads the source, and compares its lines with the file.
fn compare_source<S: Source, K: Sink, D: Disk>(
    alloc: Global,
    source: &mut S,
    sink: &mut K,
    disk: &mut D,
) -> Detail
    ensures ends { MatchesEnds (this_source S.left S.faults source.old source.new)
        (this_sink K.taken K.faults sink.old sink.new)
        (this_disk D.tells D.on_disk D.faults disk.old disk.new) result }
    ensures same { D.on_disk disk.new ≡ D.on_disk disk.old }
{
    match read_input(alloc, source) {
        Ok(bytes) => compare_bytes(alloc, &bytes, sink, disk),
        Err(InputFault::ReadFault) => Detail::ReadFault,
        Err(InputFault::TooBig) => Detail::TooBig,
        Err(InputFault::NoMemory) => Detail::NoMemory,
    }
}

// Compares the lines of these bytes with the file.
fn compare_bytes<K: Sink, D: Disk>(
    alloc: Global,
    bytes: &[u8],
    sink: &mut K,
    disk: &mut D,
) -> Detail
    ensures ends { ComparedWith bytes.now (this_sink K.taken K.faults sink.old sink.new)
        (this_disk D.tells D.on_disk D.faults disk.old disk.new) result }
    ensures same { D.on_disk disk.new ≡ D.on_disk disk.old }
{
    a_broken_file_is_damaged();
    match read_file(alloc, disk) {
        Ok(FileRead::Sound { state, .. }) => compare_with(alloc, bytes, &state, sink),
        Ok(FileRead::NotBegun) => compare_with_nothing(alloc, bytes, sink),
        Ok(FileRead::Broken { at, .. }) => Detail::Damaged { at },
        Err(ReadFault::DiskFault) => Detail::DiskFault,
        Err(ReadFault::NoMemory) => Detail::NoMemory,
    }
}

// Compares the lines of these bytes with the history, and prints the count of its entries.
fn compare_with<K: Sink>(alloc: Global, bytes: &[u8], state: &State, sink: &mut K) -> Detail
    ensures { Compared (history state.now.version state.now.issuer state.now.entries) (lines_of bytes.now)
        (this_sink K.taken K.faults sink.old sink.new) result }
{
    match first_difference(alloc, bytes, state) {
        Ok(None) => print_count(alloc, state.entries(), sink),
        Ok(Some(line)) => Detail::Differs { line },
        Err(NoMemory) => Detail::NoMemory,
    }
}

// The same where no history is begun.
fn compare_with_nothing<K: Sink>(alloc: Global, bytes: &[u8], sink: &mut K) -> Detail
    ensures { Compared nothing (lines_of bytes.now) (this_sink K.taken K.faults sink.old sink.new) result }
{
    match next_line(bytes) {
        None => print_count(alloc, 0, sink),
        Some(_) => Detail::Differs { line: 1 },
    }
}

// The first line, from 1, that doesn't read as the history's at its place, is missing or is too many.
fn first_difference(alloc: Global, bytes: &[u8], state: &State) -> Result<Option<u64>, NoMemory>
    ensures { IfOk result (λ found. MatchOption found
        (AreLinesOf (lines_of bytes.now) (objects_of (history state.now.version state.now.issuer state.now.entries)))
        (λ line. DifferFirst (lines_of bytes.now)
        (objects_of (history state.now.version state.now.issuer state.now.entries)) line)) }
{
    let Some((line, behind)) = next_line(bytes) else {
        return Ok(Some(1));
    };
    if !is_head_line(alloc, state.issuer(), state.version(), line)? {
        return Ok(Some(1));
    }
    let mut rest = behind;
    for index in 0..state.entries() {
        let Some(entry) = state.entry(alloc, index)? else {
            unreachable!()
        };
        let Some((line, behind)) = next_line(rest) else {
            return Ok(Some(index + 2));
        };
        if !is_entry_line(alloc, &entry, line)? {
            return Ok(Some(index + 2));
        }
        rest = behind;
    }
    match next_line(rest) {
        None => Ok(None),
        Some(_) => Ok(Some(state.entries() + 2)),
    }
}

fn print_count<K: Sink>(alloc: Global, entries: u64, sink: &mut K) -> Detail
    ensures { IsCountTold entries (this_sink K.taken K.faults sink.old sink.new) result }
{
    match matches_text(alloc, entries) {
        Ok(text) => print(text.as_slice(), Detail::Done, sink),
        Err(NoMemory) => Detail::NoMemory,
    }
}
