//! The command `drain`: reads a script without commands, opens the file, sends the records that wait to the agency, and prints a
//! line a turn and the chain line.
ghost use Rattle.std.specs.Prelude.{◌≡◌};
ghost use Rattle.ports.specs.Sinks.{this_sink};
ghost use Rattle.ports.specs.Sources.{this_source};
ghost use Rattle.report.specs.Status.{status_of};
ghost use Rattle.shop_drain.specs.Devices.{agency_in, clock_in, disk_in, sleeper_in, this_call};
ghost use Rattle.shop_commands.specs.Drain.{DrainEnds, FileDrainEnds, ScriptDrainEnds};
ghost use Rattle.command_ends.specs.DrainEnds.{DrainRunEnds};
ghost use Rattle.shop_commands.specs.Drain.{drain_text};

use agency_port::{Agency, Turns};
use agency_rules::Plan;
use chain_disk::Disk;
use command_ends::{end_by, read_source};
use file_commands::write_texts;
use parties::Nif;
use ports::{Clock, Sink, Sleeper, Source};
use report::{Detail, Ended, turns_text};
use script::{Form, Script};
use sender::DrainFault;
use shop_core::State;
use shop_drain::{DrainEnd, Post, close, drain_opened, open, opening_end};
use std::alloc::Global;
use std::sync::Wait;

/// Prints the lines of a drain's turns, and the chain line of the history that the file has.
pub(crate) fn print_turns<K: Sink>(
    alloc: Global,
    answer: &Result<(), DrainFault>,
    turns: &Turns,
    state: &State,
    sink: &mut K,
) -> Detail
    ensures { DrainRunEnds answer.now (drain_text turns.now state.now.entries)
        (this_sink K.taken K.faults sink.old sink.new) result }
{
    match turns_text(alloc, turns, state.records(), state.noted()) {
        Err(_) => Detail::NoMemory,
        Ok(text) => end_by(answer, write_texts(sink, text.as_slice(), b"")),
    }
}

// Opens the file and drains it. All parts come back.
fn drain_file<K, D, C, Z, G, R>(
    rt: &R,
    alloc: Global,
    issuer: &Nif,
    plan: &Plan,
    sink: &mut K,
    post: Post<D, C, Z, G>,
) -> (Detail, Post<D, C, Z, G>)
where
    K: Sink,
    D: Disk,
    C: Clock,
    Z: Sleeper,
    G: Agency,
    R: Wait,
    ensures { FileDrainEnds issuer.now plan.now (this_sink K.taken K.faults sink.old sink.new)
        (disk_in D.Disk post result.1) (clock_in C.Clock post result.1) (sleeper_in Z.Sleeper post result.1)
        (agency_in G.Agency post result.1) result.0 }
{
    match open(alloc, issuer, post) {
        Err(unopened) => (opening_end(&unopened.why), unopened.post),
        Ok(opened) => {
            let DrainEnd {
                answer,
                turns,
                opened,
            } = drain_opened(rt, alloc, plan, opened);
            let detail = print_turns(alloc, &answer, &turns, opened.store.state(), sink);
            (detail, close(opened))
        }
    }
}

// A clock line replaces clock and sleeper.
fn drain_script<K, D, C, Z, G, R>(
    rt: &R,
    alloc: Global,
    issuer: &Nif,
    script: &Script,
    sink: &mut K,
    post: Post<D, C, Z, G>,
) -> (Detail, Post<D, C, Z, G>)
where
    K: Sink,
    D: Disk,
    C: Clock,
    Z: Sleeper,
    G: Agency,
    R: Wait,
    ensures { ScriptDrainEnds issuer.now script.now (this_sink K.taken K.faults sink.old sink.new)
        (disk_in D.Disk post result.1) (clock_in C.Clock post result.1) (sleeper_in Z.Sleeper post result.1)
        (agency_in G.Agency post result.1) result.0 }
{
    let Some((start, step)) = script.clock else {
        return drain_file(rt, alloc, issuer, &script.plan, sink, post);
    };
    let (own, clock, sleeper) = post.with_own_time(start, step);
    let (detail, own) = drain_file(rt, alloc, issuer, &script.plan, sink, own);
    (detail, own.with_time(clock, sleeper))
}

/// Reads a script without commands from the source, opens the disk for this issuer, opens the agency's session once with the
/// script's plan and the pairs noted in the file, and sends the records that wait until none is left. It prints a line a turn
/// and the chain line. A clock line of the script replaces clock and sleeper. All parts come back.
pub fn drain_cmd<S, K, D, C, Z, G, R>(
    rt: &R,
    alloc: Global,
    issuer: &Nif,
    source: &mut S,
    sink: &mut K,
    post: Post<D, C, Z, G>,
) -> (Ended, Post<D, C, Z, G>)
where
    S: Source,
    K: Sink,
    D: Disk,
    C: Clock,
    Z: Sleeper,
    G: Agency,
    R: Wait,
    ensures status { result.0.status ≡ status_of result.0.detail }
    //= `drain` reads a script without commands, opens the file and the session, and drains: each end comes exactly
    //= with its cause.
    //= No body: it is of `read_source`, `open`, `drain_opened` and `end_by`, each with its own
    ensures ends { DrainEnds issuer.now (this_call (this_source S.left S.faults source.old source.new)
        (this_sink K.taken K.faults sink.old sink.new) D.Disk C.Clock Z.Sleeper G.Agency post result.1) result.0.detail }
{
    match read_source(alloc, source, Form::NoCommands) {
        Err(fault) => (Ended::of(fault.detail()), post),
        Ok(script) => {
            let (detail, post) = drain_script(rt, alloc, issuer, &script, sink, post);
            (Ended::of(detail), post)
        }
    }
}
