//! The command `follow`: brings a copy on a second file up to the first one.
ghost use Rattle.std.specs.Prelude.{◌≡◌, IsTrue};
ghost use Rattle.chain_disk.specs.Disks.{Disks, this_disk};
ghost use Rattle.chain_disk.specs.OnDisk.{LeavesOnly};
ghost use Rattle.chain_store.specs.Losing.{NeverLoses};
ghost use Rattle.ports.specs.Sinks.{this_sink};
ghost use Rattle.report.specs.Status.{status_of};
ghost use Rattle.shop_core.specs.File.Files.{StandsFor};
ghost use Rattle.journal.specs.File.{IsNotBegun};
ghost use Rattle.shop_commands.specs.Follow.{BringsUp, FollowEnds, IsFollowImage, LeftOrFollowed, OnlyFollowed};
ghost use Rattle.shop_commands.specs.Follow as spec;

use chain_disk::Disk;
use chain_store::{LoadFault, Loaded, load};
use command_ends::store_end;
use file_commands::print;
use ports::Sink;
use report::{Detail, Ended, followed_text};
use shop_core::{State, a_file_has_one_meaning};
use standby::{Standby, StandbyCause, catch_up, first_apart};
use std::alloc::Global;

/// Brings the copy on the second file up to the first one, entry by entry, and prints how many it was given and has. The first
/// file is only read; the copy is begun where it isn't begun, and is left as it is where it isn't of the first file.
pub fn follow_cmd<K: Sink, D: Disk>(
    alloc: Global,
    sink: &mut K,
    shop: D,
    standby: D,
) -> (Ended, D, D)
    ensures status { result.0.status ≡ status_of result.0.detail }
    //= `follow` ends with 0 where the copy stands for the file's history; 7 where one of the two is damaged, the
    //= file first; 17 where the copy isn't of the file.
    //= No body: it is of `catch_up`, over `standby/Standby::arrive.arrives`
    ensures ends { FollowEnds (this_sink K.taken K.faults sink.old sink.new)
        (this_disk D.tells D.on_disk D.faults shop result.1) (this_disk D.tells D.on_disk D.faults standby result.2) result.0.detail }
    //= Each crash since the start of `follow` leaves of the copy what it was, or a front of the file's history that
    //= begins with what it was; where the file isn't begun nothing is written.
    ensures follows { OnlyFollowed (this_disk D.tells D.on_disk D.faults shop result.1)
        (this_disk D.tells D.on_disk D.faults standby result.2) }
    //= The file that is followed is only read.
    //= No body: the command calls no write of it
    ensures same { D.on_disk result.1 ≡ D.on_disk shop }
{
    let mut shop = shop;
    let (detail, standby) = follow_file(alloc, sink, &mut shop, standby);
    (Ended::of(detail), shop, standby)
}

// Loads the file, and brings the copy up to it.
fn follow_file<K: Sink, D: Disk>(alloc: Global, sink: &mut K, shop: &mut D, copy: D) -> (Detail, D)
    ensures ends { FollowEnds (this_sink K.taken K.faults sink.old sink.new)
        (this_disk D.tells D.on_disk D.faults shop.old shop.new) (this_disk D.tells D.on_disk D.faults copy result.1) result.0 }
    ensures follows { OnlyFollowed (this_disk D.tells D.on_disk D.faults shop.old shop.new)
        (this_disk D.tells D.on_disk D.faults copy result.1) }
    ensures same { D.on_disk shop.new ≡ D.on_disk shop.old }
{
    a_file_has_one_meaning();
    match load(alloc, shop) {
        Err(fault) => (load_end(fault), copy),
        Ok(Loaded::NotBegun) => follow_nothing(alloc, sink, copy),
        Ok(Loaded::Begun { state, .. }) => follow_state(alloc, sink, &state, copy),
    }
}

// Why a file can't be loaded, as an end.
fn load_end(fault: LoadFault) -> Detail
    ensures { result ≡ spec.load_end fault }
{
    match fault {
        LoadFault::DiskFault => Detail::DiskFault,
        LoadFault::Damaged { at } => Detail::Damaged { at },
        LoadFault::NoMemory => Detail::NoMemory,
    }
}

// Why a copy can't be opened, as an end.
pub fn start_end(cause: StandbyCause) -> Detail
    ensures { result ≡ spec.start_end cause }
{
    match cause {
        StandbyCause::DiskFault => Detail::DiskFault,
        StandbyCause::Damaged { at } => Detail::Damaged { at },
        StandbyCause::OtherIssuer { .. } | StandbyCause::OtherVersion { .. } => {
            Detail::Parted { entry: 0 }
        }
        StandbyCause::NoMemory => Detail::NoMemory,
    }
}

fn print_counts<K: Sink>(alloc: Global, sink: &mut K, kept: u64, entries: u64) -> Detail
    ensures { spec.CountsPrinted kept entries (this_sink K.taken K.faults sink.old sink.new) result }
{
    match followed_text(alloc, kept, entries) {
        Ok(text) => print(text.as_slice(), Detail::Done, sink),
        Err(_) => Detail::NoMemory,
    }
}

// Next to a file that isn't begun a copy has no entry. It is only read.
fn follow_nothing<K: Sink, D: Disk>(alloc: Global, sink: &mut K, copy: D) -> (Detail, D)
    ensures ends { (file : Disks D) → (IsTrue file.tells → IsNotBegun (file.on_disk file.disk).content) →
        FollowEnds (this_sink K.taken K.faults sink.old sink.new) file (this_disk D.tells D.on_disk D.faults copy result.1) result.0 }
    ensures same { D.on_disk result.1 ≡ D.on_disk copy }
{
    let mut copy = copy;
    match load(alloc, &mut copy) {
        Err(fault) => (load_end(fault), copy),
        Ok(Loaded::NotBegun) => (print_counts(alloc, sink, 0, 0), copy),
        Ok(Loaded::Begun { state, .. }) => (beside_nothing(alloc, sink, &state), copy),
    }
}

// A copy of this history next to a file that isn't begun.
fn beside_nothing<K: Sink>(alloc: Global, sink: &mut K, state: &State) -> Detail
    ensures { spec.BesideNothing state.now.entries (this_sink K.taken K.faults sink.old sink.new) result }
{
    let held = state.entries();
    if held > 0 {
        return Detail::Parted { entry: 1 };
    }
    print_counts(alloc, sink, 0, 0)
}

// Brings the copy up to this history.
fn follow_state<K: Sink, D: Disk>(
    alloc: Global,
    sink: &mut K,
    state: &State,
    copy: D,
) -> (Detail, D)
    ensures ends { (file : Disks D) →
        (IsTrue file.tells → StandsFor state.now.version state.now.issuer state.now.entries (file.on_disk file.disk).content) →
        FollowEnds (this_sink K.taken K.faults sink.old sink.new) file (this_disk D.tells D.on_disk D.faults copy result.1) result.0 }
    ensures images { IsTrue D.tells → LeavesOnly (D.on_disk copy) (D.on_disk result.1)
        (IsFollowImage state.now.version state.now.issuer state.now.entries (D.on_disk copy)) }
    ensures never_loses { IsTrue D.tells → NeverLoses (D.on_disk copy) (D.on_disk result.1) }
{
    a_file_has_one_meaning();
    match Standby::start(alloc, copy, state.issuer(), state.version()) {
        Err(fault) => (start_end(fault.cause), fault.disk),
        Ok(standby) => {
            let (told, copy) = bring_up(alloc, state, standby);
            match told {
                Ok(kept) => (print_counts(alloc, sink, kept, state.entries()), copy),
                Err(end) => (end, copy),
            }
        }
    }
}

// Lets the entries arrive that the standby doesn't have, if it is one of this history, and gives its disk back.
fn bring_up<D: Disk>(alloc: Global, state: &State, standby: Standby<D>) -> (Result<u64, Detail>, D)
    requires issuer { standby.history.issuer ≡ state.now.issuer }
    requires version { standby.history.version ≡ state.now.version }
    requires going_on { standby.stopped ≡ None }
    ensures brings { BringsUp D.tells D.on_disk D.faults state.now.version state.now.issuer state.now.entries standby result.1
        result.0 }
    ensures images { LeftOrFollowed D.tells D.on_disk state.now.entries standby result.1 }
{
    let mut standby = standby;
    standby.is_sound();
    match first_apart(alloc, state, standby.state()) {
        Err(_) => (Err(Detail::NoMemory), standby.into_disk()),
        Ok(Some(index)) => (
            Err(Detail::Parted { entry: index + 1 }),
            standby.into_disk(),
        ),
        Ok(None) => match catch_up(alloc, state, &mut standby) {
            Ok(kept) => (Ok(kept), standby.into_disk()),
            Err(fault) => (Err(store_end(fault)), standby.into_disk()),
        },
    }
}
