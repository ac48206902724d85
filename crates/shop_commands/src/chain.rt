//! The command `chain`: reads a script, opens the file, runs the commands on its history, and prints the replies and the chain.
ghost use Rattle.std.specs.Prelude.{◌≡◌, ◌≤◌, [], None, List, length, vec_capacity};
ghost use Rattle.ports.specs.Sinks.{this_sink};
ghost use Rattle.ports.specs.Sources.{this_source};
ghost use Rattle.chain_disk.specs.Disks.{this_disk};
ghost use Rattle.journal.specs.Journal.{disk_of, stopped_of};
ghost use Rattle.record_codec.specs.declared.entry.Entry.{Entry};
ghost use Rattle.chain_store.specs.Store.{Ready, clock_of, journal_of, state_of};
ghost use Rattle.report.specs.Status.{status_of};
ghost use Rattle.shop_commands.specs.Chain.{ChainEnds, ScriptEnds, StoreEnds};
ghost use Rattle.chain_store.specs.Runs.{this_store};
ghost use Rattle.chain_store.specs.Clocks.{this_clock};
ghost use Rattle.chain_store.specs.Readings.{IsAsked, LeavesClock, readings, readings_of};

use chain_disk::Disk;
use chain_store::{Store, run_commands};
use command_ends::{read_source, run_end, told_of};
use file_commands::write_texts;
use journal::StoreFault;
use parties::Nif;
use ports::{Clock, CountingClock, Sink, Source};
use recovery::open_store;
use report::{Detail, Ended};
use script::{Form, Script};
use shop_core::{Ask, Reply, a_file_has_one_meaning};
use shop_drain::opening_end;
use std::alloc::Global;

/// Reads a script from the source, opens the disk for this issuer, runs the commands on the history that it holds, keeps each
/// entry on the disk before the next command, and prints the replies and the chain to the sink. The clock is asked once a
/// command, where the script has no clock line, and no more once the disk has failed.
pub fn chain_cmd<S: Source, K: Sink, D: Disk, C: Clock>(
    alloc: Global,
    issuer: &Nif,
    source: &mut S,
    sink: &mut K,
    disk: D,
    clock: C,
) -> (Ended, D, C)
    ensures status { result.0.status ≡ status_of result.0.detail }
    //= `chain` reads a script, opens the file, takes each command, and prints answers, listing and chain line: each
    //= end comes exactly with its cause.
    //= No body: it is of `read_source`, `open`, `Store::take`, `told_of` and `run_end`, each with its own
    ensures ends { ChainEnds issuer.now (record {
      source = this_source S.left S.faults source.old source.new;
      sink = this_sink K.taken K.faults sink.old sink.new;
      disk = this_disk D.tells D.on_disk D.faults disk result.1;
      clock = this_clock C.coming clock result.2;
    }) result.0.detail }
{
    match read_source(alloc, source, Form::Full) {
        Err(fault) => (Ended::of(fault.detail()), disk, clock),
        Ok(script) => {
            let (detail, disk, clock) = run_script(alloc, issuer, &script, sink, disk, clock);
            (Ended::of(detail), disk, clock)
        }
    }
}

fn run_script<K: Sink, D: Disk, C: Clock>(
    alloc: Global,
    issuer: &Nif,
    script: &Script,
    sink: &mut K,
    disk: D,
    clock: C,
) -> (Detail, D, C)
    ensures { ScriptEnds issuer.now script.now.asks (readings_of script.now.clock (C.coming clock))
        (LeavesClock (this_clock C.coming clock result.2) script.now.clock)
        (this_sink K.taken K.faults sink.old sink.new) (this_disk D.tells D.on_disk D.faults disk result.1) result.0 }
{
    match script.clock {
        Some((start, step)) => {
            let own = CountingClock::new(start, step);
            let (detail, disk, _) = run_asks(
                alloc,
                issuer,
                script.asks.as_slice(),
                sink,
                disk,
                own,
            );
            (detail, disk, clock)
        }
        None => run_asks(alloc, issuer, script.asks.as_slice(), sink, disk, clock),
    }
}

// Opens the file and runs the commands. The room for the replies is made first.
fn run_asks<K: Sink, D: Disk, C: Clock>(
    alloc: Global,
    issuer: &Nif,
    asks: &[Ask],
    sink: &mut K,
    disk: D,
    clock: C,
) -> (Detail, D, C)
    ensures { ScriptEnds issuer.now asks.now (C.coming clock)
        (λ replies. IsAsked (this_clock C.coming clock result.2) (readings replies))
        (this_sink K.taken K.faults sink.old sink.new) (this_disk D.tells D.on_disk D.faults disk result.1) result.0 }
{
    let mut replies = Vec::new(alloc);
    if replies.reserve(asks.len()).is_err() {
        return (Detail::NoMemory, disk, clock);
    }
    a_file_has_one_meaning();
    match open_store(alloc, disk, clock, issuer) {
        Err(fault) => (opening_end(&fault.cause), fault.disk, fault.clock),
        Ok(store) => run_opened(alloc, asks, sink, store, replies),
    }
}

// Runs the commands on an opened file, and gives its disk and the clock back.
fn run_opened<K: Sink, D: Disk, C: Clock>(
    alloc: Global,
    asks: &[Ask],
    sink: &mut K,
    store: Store<D, C>,
    replies: Vec<Result<Reply, StoreFault>>,
) -> (Detail, D, C)
    requires ready { Ready D.tells D.on_disk store }
    requires going_on { stopped_of (journal_of store) ≡ None }
    requires none { replies.items ≡ [] }
    requires room { length asks.now ≤ vec_capacity replies }
    ensures { (end : List Entry) × StoreEnds asks.now (record {
      issuer = (state_of store).issuer;
      version = (state_of store).version;
      start = (state_of store).entries;
      end = end;
      tells = D.tells;
      since = D.on_disk (disk_of (journal_of store));
      now = D.on_disk result.1;
      faults = D.faults (disk_of (journal_of store));
      faults_after = D.faults result.1;
      disk = this_disk D.tells D.on_disk D.faults (disk_of (journal_of store)) result.1;
      clock = this_clock C.coming (clock_of store) result.2;
    }) (this_sink K.taken K.faults sink.old sink.new) result.0 }
{
    let mut store = store;
    let detail = play(alloc, asks, sink, &mut store, replies);
    let (disk, clock) = devices_of(store);
    (detail, disk, clock)
}

fn devices_of<D: Disk, C: Clock>(store: Store<D, C>) -> (D, C)
    ensures { (result.0 ≡ disk_of (journal_of store)) × (result.1 ≡ clock_of store) }
{
    let (_, disk, clock) = store.into_parts();
    (disk, clock)
}

// Runs the commands on a store, and prints the replies and the history.
fn play<K: Sink, D: Disk, C: Clock>(
    alloc: Global,
    asks: &[Ask],
    sink: &mut K,
    store: &mut Store<D, C>,
    replies: Vec<Result<Reply, StoreFault>>,
) -> Detail
    requires ready { Ready D.tells D.on_disk store.old }
    requires going_on { stopped_of (journal_of store.old) ≡ None }
    requires none { replies.items ≡ [] }
    requires room { length asks.now ≤ vec_capacity replies }
    ensures issuer { (state_of store.new).issuer ≡ (state_of store.old).issuer }
    ensures end { StoreEnds asks.now (this_store D.tells D.on_disk D.faults C.coming store.old store.new)
        (this_sink K.taken K.faults sink.old sink.new) result }
{
    let mut replies = replies;
    run_commands(alloc, store, asks, &mut replies);
    let Ok(told) = told_of(alloc, asks, &replies, store.state()) else {
        return Detail::NoMemory;
    };
    let written = write_texts(sink, told.answers.as_slice(), told.listing.as_slice());
    run_end(&replies, written)
}
