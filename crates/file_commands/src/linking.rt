//! The command `link`: prints the verification link of an invoice.
ghost use Rattle.std.specs.Prelude.{◌≡◌};
ghost use Rattle.chain_disk.specs.Disks.{this_disk};
ghost use Rattle.ports.specs.Sinks.{this_sink};
ghost use Rattle.report.specs.Status.{status_of};
ghost use Rattle.file_commands.specs.Linking.{LinkEnds, LinkedFrom};

use crate::output::print_line;
use chain_disk::Disk;
use ports::{NoMemory, Sink};
use record_fields::Record;
use report::{Detail, Ended};
use series::NumSerie;
use shop_core::{FileRead, ReadFault, State, a_broken_file_is_damaged, read_file};
use std::alloc::Global;
use verify_link::{Host, link_of};

/// Prints the link of the last alta of this number, refused or not, at this host: status 14 where the chain has none. The
/// file is only read; one that isn't there has no invoice and is left missing.
pub fn link_cmd<K: Sink, D: Disk>(
    alloc: Global,
    num: &NumSerie,
    host: Host,
    sink: &mut K,
    disk: D,
) -> (Ended, D)
    ensures status { result.0.status ≡ status_of result.0.detail }
    //= `link` prints the link of the last alta of that number; 14 where the chain has none, 7 where the file is
    //= damaged at this byte.
    //= No body: it is of `link_of` and of the index of numbers
    ensures ends { LinkEnds num.now host (this_sink K.taken K.faults sink.old sink.new)
        (this_disk D.tells D.on_disk D.faults disk result.1) result.0.detail }
    ensures same { D.on_disk result.1 ≡ D.on_disk disk }
{
    let mut disk = disk;
    let detail = linked(alloc, num, host, sink, &mut disk);
    (Ended::of(detail), disk)
}

// Reads the history and prints the link.
fn linked<K: Sink, D: Disk>(
    alloc: Global,
    num: &NumSerie,
    host: Host,
    sink: &mut K,
    disk: &mut D,
) -> Detail
    ensures ends { LinkEnds num.now host (this_sink K.taken K.faults sink.old sink.new)
        (this_disk D.tells D.on_disk D.faults disk.old disk.new) result }
    ensures same { D.on_disk disk.new ≡ D.on_disk disk.old }
{
    a_broken_file_is_damaged();
    match read_file(alloc, disk) {
        Ok(FileRead::Sound { state, .. }) => link_in(alloc, &state, num, host, sink),
        Ok(FileRead::NotBegun) => Detail::Unknown,
        Ok(FileRead::Broken { at, .. }) => Detail::Damaged { at },
        Err(ReadFault::DiskFault) => Detail::DiskFault,
        Err(ReadFault::NoMemory) => Detail::NoMemory,
    }
}

// Prints the link of the last alta of this number in the history.
fn link_in<K: Sink>(
    alloc: Global,
    state: &State,
    num: &NumSerie,
    host: Host,
    sink: &mut K,
) -> Detail
    ensures { LinkedFrom state.now.entries num.now host (this_sink K.taken K.faults sink.old sink.new) result }
{
    let sealed = match state.last_alta(alloc, num) {
        Ok(Some(sealed)) => sealed,
        Ok(None) => return Detail::Unknown,
        Err(NoMemory) => return Detail::NoMemory,
    };
    let Record::Alta(alta) = &sealed.body else {
        unreachable!()
    };
    match link_of(alloc, alta, host) {
        Ok(text) => print_line(text.as_slice(), sink),
        Err(_) => Detail::NoMemory,
    }
}
