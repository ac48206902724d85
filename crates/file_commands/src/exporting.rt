//! The command `export`: prints a file's history as lines of JSON.
ghost use Rattle.std.specs.Prelude.{◌≡◌, ◌++◌, ◌∷◌, [], IfOk, OnOk};
ghost use Rattle.chain_disk.specs.Disks.{this_disk};
ghost use Rattle.ports.specs.Sinks.{this_sink};
ghost use Rattle.report.specs.Status.{status_of};
ghost use Rattle.file_commands.specs.Exporting.{ExportEnds, LinesPrinted, lines_text, objects_of};
ghost use Rattle.file_commands.specs.Exporting.Exported.{history};

use crate::output::print;
use chain_disk::Disk;
use export::{entry_text, head_text};
use ports::{NoMemory, Sink};
use report::{Detail, Ended};
use shop_core::{FileRead, ReadFault, State, a_broken_file_is_damaged, read_file};
use std::alloc::{AllocError, Global};

/// Prints a line of JSON for the issuer and the version of the file's history, and one for each of its entries. The file is only
/// read; one that isn't begun has no lines. Lack of memory is found before anything is printed.
pub fn export_cmd<K: Sink, D: Disk>(alloc: Global, sink: &mut K, disk: D) -> (Ended, D)
    ensures status { result.0.status ≡ status_of result.0.detail }
    //= `export` prints the compact text of the object of issuer and version and of each entry's, in order, an LF
    //= after each, and nothing where the file isn't begun.
    //= No body: it is of `head_text` and `entry_text`, whose clauses refuse other lines
    ensures ends { ExportEnds (this_sink K.taken K.faults sink.old sink.new)
        (this_disk D.tells D.on_disk D.faults disk result.1) result.0.detail }
    ensures same { D.on_disk result.1 ≡ D.on_disk disk }
{
    let mut disk = disk;
    let detail = exported(alloc, sink, &mut disk);
    (Ended::of(detail), disk)
}

// Reads the history and prints its lines.
fn exported<K: Sink, D: Disk>(alloc: Global, sink: &mut K, disk: &mut D) -> Detail
    ensures ends { ExportEnds (this_sink K.taken K.faults sink.old sink.new)
        (this_disk D.tells D.on_disk D.faults disk.old disk.new) result }
    ensures same { D.on_disk disk.new ≡ D.on_disk disk.old }
{
    a_broken_file_is_damaged();
    match read_file(alloc, disk) {
        Ok(FileRead::Sound { state, .. }) => print_lines(alloc, &state, sink),
        Ok(FileRead::NotBegun) => Detail::Done,
        Ok(FileRead::Broken { at, .. }) => Detail::Damaged { at },
        Err(ReadFault::DiskFault) => Detail::DiskFault,
        Err(ReadFault::NoMemory) => Detail::NoMemory,
    }
}

fn print_lines<K: Sink>(alloc: Global, state: &State, sink: &mut K) -> Detail
    ensures { LinesPrinted (history state.now.version state.now.issuer state.now.entries)
        (this_sink K.taken K.faults sink.old sink.new) result }
{
    match history_text(alloc, state) {
        Ok(text) => print(&text, Detail::Done, sink),
        Err(NoMemory) => Detail::NoMemory,
    }
}

// All lines of a history, in one text.
fn history_text(alloc: Global, state: &State) -> Result<Vec<u8>, NoMemory>
    ensures { IfOk result (λ text. text.items
        ≡ lines_text (objects_of (history state.now.version state.now.issuer state.now.entries))) }
{
    let mut text = Vec::new(alloc);
    let head = head_text(alloc, state.issuer(), state.version())?;
    put_line(&mut text, head.as_slice())?;
    for index in 0..state.entries() {
        let Some(entry) = state.entry(alloc, index)? else {
            unreachable!()
        };
        let line = entry_text(alloc, &entry)?;
        put_line(&mut text, line.as_slice())?;
    }
    Ok(text)
}

// Adds a line and its LF. Room is made by an eighth of the text at a time, where a `Vec` would double it.
fn put_line(text: &mut Vec<u8>, line: &[u8]) -> Result<(), AllocError>
    ensures { OnOk result (text.new.items ≡ text.old.items ++ (line.now ++ 10 ∷ [])) }
{
    if text.capacity() - text.len() <= line.len() {
        text.reserve_exact(line.len() + 1 + text.len() / 8)?;
    }
    text.extend_from_slice(line)?;
    text.extend_from_slice(b"\n")
}
