//! The command `migrate`: moves a file of version One to a second one, of version Two.
ghost use Rattle.std.specs.Prelude.{◌≡◌};
ghost use Rattle.chain_disk.specs.Disks.{this_disk};
ghost use Rattle.ports.specs.Sinks.{this_sink};
ghost use Rattle.report.specs.Status.{status_of};
ghost use Rattle.shop_commands.specs.Migrate.{MigrateEnds, OnlyMoved};
ghost use Rattle.shop_commands.specs.Migrate as spec;

use chain_disk::Disk;
use file_commands::print;
use ports::Sink;
use recovery::{MoveCause, migrate_counted};
use report::{Detail, Ended, migrated_text};
use std::alloc::Global;

/// Moves the chain of the old file to the new one, and prints how many records and noted lines it has. The old file is only read;
/// the new one isn't begun or is what an earlier call left unfinished, else it is left as it is.
pub fn migrate_cmd<K: Sink, D: Disk>(alloc: Global, sink: &mut K, old: D, new: D) -> (Ended, D, D)
    ensures status { result.0.status ≡ status_of result.0.detail }
    //= `migrate` ends with 0 where the old file could be moved onto the new one and that stands for its history in
    //= version Two; 7, 15 and 16 say why not.
    //= No body: it is of `migrate_counted`: `recovery/MovedOnto.reads`
    ensures ends { MigrateEnds (this_sink K.taken K.faults sink.old sink.new)
        (this_disk D.tells D.on_disk D.faults old result.1) (this_disk D.tells D.on_disk D.faults new result.2) result.0.detail }
    //= Each crash since the start of `migrate` leaves of the new file what a migration may leave; one that can't be
    //= moved onto is synced at most.
    ensures moves { OnlyMoved (this_disk D.tells D.on_disk D.faults old result.1) (this_disk D.tells D.on_disk D.faults new result.2) }
    //= The file that is moved is only read.
    //= No body: it is of `migrate_counted`, which reads it alone
    ensures same { D.on_disk result.1 ≡ D.on_disk old }
{
    let mut old = old;
    let (detail, new) = move_file(alloc, sink, &mut old, new);
    (Ended::of(detail), old, new)
}

// Moves the chain and prints its counts.
fn move_file<K: Sink, D: Disk>(alloc: Global, sink: &mut K, old: &mut D, new: D) -> (Detail, D)
    ensures ends { MigrateEnds (this_sink K.taken K.faults sink.old sink.new)
        (this_disk D.tells D.on_disk D.faults old.old old.new) (this_disk D.tells D.on_disk D.faults new result.1) result.0 }
    ensures moves { OnlyMoved (this_disk D.tells D.on_disk D.faults old.old old.new)
        (this_disk D.tells D.on_disk D.faults new result.1) }
    ensures same { D.on_disk old.new ≡ D.on_disk old.old }
{
    match migrate_counted(alloc, old, new) {
        Err(fault) => (move_end(fault.cause), fault.new),
        Ok(moved) => match migrated_text(alloc, moved.records, moved.noted) {
            Ok(text) => (print(text.as_slice(), Detail::Done, sink), moved.new),
            Err(_) => (Detail::NoMemory, moved.new),
        },
    }
}

// The end that a cause comes to.
fn move_end(cause: MoveCause) -> Detail
    ensures { result ≡ spec.move_end cause }
{
    match cause {
        MoveCause::Damaged { at } => Detail::Damaged { at },
        MoveCause::NotOld { held } => Detail::NotOld { held },
        MoveCause::Occupied { length } => Detail::Occupied { length },
        MoveCause::OldFault | MoveCause::NewFault => Detail::DiskFault,
        MoveCause::NoMemory => Detail::NoMemory,
    }
}
