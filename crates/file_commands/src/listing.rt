//! The command `list`: prints the listing of chosen records.
ghost use Rattle.std.specs.Prelude.{◌≡◌, []};
ghost use Rattle.chain_disk.specs.Disks.{this_disk};
ghost use Rattle.ports.specs.Sinks.{this_sink};
ghost use Rattle.report.specs.Status.{status_of};
ghost use Rattle.file_commands.specs.Listing.{ListEnds, ListPrinted};

use crate::output::print;
use chain_disk::Disk;
use ports::{NoMemory, Sink};
use report::{Choice, Detail, Ended, chain_text, chosen_text};
use shop_core::{FileRead, ReadFault, State, a_broken_file_is_damaged, read_file};
use std::alloc::Global;

/// Prints a line for each of the chosen records, and the chain line of the whole chain. The file is only read; one that isn't
/// there has no record and is left missing.
pub fn list_cmd<K: Sink, D: Disk>(
    alloc: Global,
    choice: Choice,
    sink: &mut K,
    disk: D,
) -> (Ended, D)
    ensures status { result.0.status ≡ status_of result.0.detail }
    //= `list` prints the listing of the chosen records of the history that the file stands for, the empty one where
    //= it isn't begun, and its chain line.
    ensures ends { ListEnds choice (this_sink K.taken K.faults sink.old sink.new)
        (this_disk D.tells D.on_disk D.faults disk result.1) result.0.detail }
    ensures same { D.on_disk result.1 ≡ D.on_disk disk }
{
    let mut disk = disk;
    let detail = listed(alloc, choice, sink, &mut disk);
    (Ended::of(detail), disk)
}

// Reads the history and prints the listing.
fn listed<K: Sink, D: Disk>(alloc: Global, choice: Choice, sink: &mut K, disk: &mut D) -> Detail
    ensures ends { ListEnds choice (this_sink K.taken K.faults sink.old sink.new)
        (this_disk D.tells D.on_disk D.faults disk.old disk.new) result }
    ensures same { D.on_disk disk.new ≡ D.on_disk disk.old }
{
    a_broken_file_is_damaged();
    match read_file(alloc, disk) {
        Ok(FileRead::Sound { state, .. }) => list_records(alloc, choice, &state, sink),
        Ok(FileRead::NotBegun) => list_nothing(alloc, choice, sink),
        Ok(FileRead::Broken { at, .. }) => Detail::Damaged { at },
        Err(ReadFault::DiskFault) => Detail::DiskFault,
        Err(ReadFault::NoMemory) => Detail::NoMemory,
    }
}

fn list_records<K: Sink>(alloc: Global, choice: Choice, state: &State, sink: &mut K) -> Detail
    ensures { ListPrinted state.now.entries choice (this_sink K.taken K.faults sink.old sink.new) result }
{
    match chosen_text(alloc, choice, state) {
        Ok(text) => print(text.as_slice(), Detail::Done, sink),
        Err(NoMemory) => Detail::NoMemory,
    }
}

// Prints the listing of no record.
fn list_nothing<K: Sink>(alloc: Global, choice: Choice, sink: &mut K) -> Detail
    ensures { ListPrinted [] choice (this_sink K.taken K.faults sink.old sink.new) result }
{
    match chain_text(alloc, 0, 0) {
        Ok(text) => print(text.as_slice(), Detail::Done, sink),
        Err(NoMemory) => Detail::NoMemory,
    }
}
