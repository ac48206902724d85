//! The command `guard`: as `drain`, and each line is noted in a copy of the file too.
ghost use Rattle.std.specs.Prelude.{◌≡◌, ◌≤◌, IfOk, IfErr, Err, None, length};
ghost use Rattle.chain_disk.specs.Disks.{this_disk};
ghost use Rattle.ports.specs.Sinks.{this_sink};
ghost use Rattle.ports.specs.Sources.{this_source};
ghost use Rattle.report.specs.Status.{status_of};
ghost use Rattle.shop_core.specs.Prefix.{IsPrefix};
ghost use Rattle.standby.specs.Following.{IsFollowing};
ghost use Rattle.shop_drain.specs.Devices.{agency_in, clock_in, disk_in, sleeper_in, this_call};
ghost use Rattle.shop_commands.specs.Further.{further, own_post};
ghost use Rattle.shop_commands.specs.Follow.{BringsUp, LeftOrFollowed};
ghost use Rattle.shop_commands.specs.Guard.{FileGuardEnds, GuardEnds, GuardRan, IsCopied, LeftUncopied, ScriptGuardEnds};

use crate::drain::print_turns;
use crate::follow::start_end;
use crate::outside::{Outside, put_further, take_further};
use agency_port::Agency;
use agency_rules::Plan;
use chain_disk::Disk;
use command_ends::{read_source, store_end};
use parties::Nif;
use ports::{Clock, Sink, Sleeper, Source};
use report::{Detail, Ended};
use script::{Form, Script};
use shop_core::{State, a_file_has_one_meaning};
use shop_drain::{GuardEnd, Post, close, guard_opened, open, opening_end};
use standby::{Standby, StandbyFault, catch_up, first_apart};
use std::alloc::Global;
use std::sync::Wait;

/// A copy that wasn't brought up to its file: how that ended, and its disk.
#[derive(Drop)]
struct Uncopied<D> {
    end: Detail,
    disk: D,
}

fn give_back<D: Disk>(end: Detail, standby: Standby<D>) -> Uncopied<D>
    ensures { (result.end ≡ end) × (result.disk ≡ standby.disk) }
{
    Uncopied {
        end,
        disk: standby.into_disk(),
    }
}

// Lets the entries of this history arrive that the standby doesn't have, if it is one of it.
fn bring_copy<D: Disk>(
    alloc: Global,
    state: &State,
    standby: Standby<D>,
) -> Result<Standby<D>, Uncopied<D>>
    requires issuer { standby.history.issuer ≡ state.now.issuer }
    requires version { standby.history.version ≡ state.now.version }
    requires going_on { standby.stopped ≡ None }
    ensures front { IfOk result (λ s. IsPrefix standby.history.entries state.now.entries) }
    ensures entries { IfOk result (λ s. s.history.entries ≡ state.now.entries) }
    ensures going_on { IfOk result (λ s. s.stopped ≡ None) }
    ensures follows { IfOk result (λ s. IsFollowing D.tells D.on_disk standby s state.now.entries) }
    ensures later { IfOk result (λ s. D.faults standby.disk ≤ D.faults s.disk) }

    // Why it wasn't brought up to it, and what crashes leave of it.
    ensures why { IfErr result (λ u. BringsUp D.tells D.on_disk D.faults state.now.version state.now.issuer state.now.entries standby
        u.disk (Err u.end)) }
    ensures images { IfErr result (λ u. LeftOrFollowed D.tells D.on_disk state.now.entries standby u.disk) }
    ensures later_err { IfErr result (λ u. D.faults standby.disk ≤ D.faults u.disk) }
{
    let mut standby = standby;
    standby.is_sound();
    match first_apart(alloc, state, standby.state()) {
        Err(_) => Err(give_back(Detail::NoMemory, standby)),
        Ok(Some(index)) => Err(give_back(Detail::Parted { entry: index + 1 }, standby)),
        Ok(None) => match catch_up(alloc, state, &mut standby) {
            Ok(_) => Ok(standby),
            Err(fault) => Err(give_back(store_end(fault), standby)),
        },
    }
}

// Opens the copy of this history, and brings it up to it.
fn copy_of<D: Disk>(alloc: Global, state: &State, disk: D) -> Result<Standby<D>, Uncopied<D>>
    ensures copied { IfOk result (λ standby. IsCopied D.tells D.on_disk D.faults state.now.version state.now.issuer
        state.now.entries disk standby) }
    ensures uncopied { IfErr result (λ u. LeftUncopied state.now.version state.now.issuer state.now.entries
        (this_disk D.tells D.on_disk D.faults disk u.disk) u.end) }
{
    a_file_has_one_meaning();
    match Standby::start(alloc, disk, state.issuer(), state.version()) {
        Err(StandbyFault { cause, disk }) => Err(Uncopied {
            end: start_end(cause),
            disk,
        }),
        Ok(standby) => bring_copy(alloc, state, standby),
    }
}

// Opens the file, brings its copy up to it and drains both. All parts come back.
fn guard_file<K, D, C, Z, G, R>(
    rt: &R,
    alloc: Global,
    issuer: &Nif,
    plan: &Plan,
    sink: &mut K,
    post: Post<D, C, Z, G>,
    copy: D,
) -> (Detail, Post<D, C, Z, G>, D)
where
    K: Sink,
    D: Disk,
    C: Clock,
    Z: Sleeper,
    G: Agency,
    R: Wait,
    ensures { FileGuardEnds issuer.now plan.now (this_sink K.taken K.faults sink.old sink.new)
        (disk_in D.Disk post result.1) (this_disk D.tells D.on_disk D.faults copy result.2) (clock_in C.Clock post result.1)
        (sleeper_in Z.Sleeper post result.1) (agency_in G.Agency post result.1) result.0 }
{
    match open(alloc, issuer, post) {
        Err(unopened) => (opening_end(&unopened.why), unopened.post, copy),
        Ok(opened) => match copy_of(alloc, opened.store.state(), copy) {
            Err(Uncopied { end, disk }) => (end, close(opened), disk),
            Ok(standby) => {
                let GuardEnd {
                    answer,
                    turns,
                    opened,
                    standby,
                } = guard_opened(rt, alloc, plan, opened, standby);
                let detail = print_turns(alloc, &answer, &turns, opened.store.state(), sink);
                (detail, close(opened), standby.into_disk())
            }
        },
    }
}

// A clock line replaces clock and sleeper.
fn guard_script<K, D, C, Z, G, R>(
    rt: &R,
    alloc: Global,
    issuer: &Nif,
    script: &Script,
    sink: &mut K,
    post: Post<D, C, Z, G>,
    copy: D,
) -> (Detail, Post<D, C, Z, G>, D)
where
    K: Sink,
    D: Disk,
    C: Clock,
    Z: Sleeper,
    G: Agency,
    R: Wait,
    ensures { ScriptGuardEnds issuer.now script.now (this_sink K.taken K.faults sink.old sink.new)
        (disk_in D.Disk post result.1) (this_disk D.tells D.on_disk D.faults copy result.2) (clock_in C.Clock post result.1)
        (sleeper_in Z.Sleeper post result.1) (agency_in G.Agency post result.1) result.0 }
{
    let Some((start, step)) = script.clock else {
        return guard_file(rt, alloc, issuer, &script.plan, sink, post, copy);
    };
    let (own, clock, sleeper) = post.with_own_time(start, step);
    let (detail, own, copy) = guard_file(rt, alloc, issuer, &script.plan, sink, own, copy);
    (detail, own.with_time(clock, sleeper), copy)
}

// Reads the script, and does what it says with a file and its copy.
fn guard_source<S, K, D, C, Z, G, R>(
    rt: &R,
    alloc: Global,
    issuer: &Nif,
    source: &mut S,
    sink: &mut K,
    post: Post<D, C, Z, G>,
    copy: D,
) -> (Ended, Post<D, C, Z, G>, D)
where
    S: Source,
    K: Sink,
    D: Disk,
    C: Clock,
    Z: Sleeper,
    G: Agency,
    R: Wait,
    ensures status { result.0.status ≡ status_of result.0.detail }
    ensures ends { GuardEnds issuer.now (this_call (this_source S.left S.faults source.old source.new)
        (this_sink K.taken K.faults sink.old sink.new) D.Disk C.Clock Z.Sleeper G.Agency post result.1)
        (this_disk D.tells D.on_disk D.faults copy result.2) result.0.detail }
{
    match read_source(alloc, source, Form::NoCommands) {
        Err(fault) => (Ended::of(fault.detail()), post, copy),
        Ok(script) => {
            let (detail, post, copy) = guard_script(rt, alloc, issuer, &script, sink, post, copy);
            (Ended::of(detail), post, copy)
        }
    }
}

/// As `drain_cmd`, with a copy on the disk of the one further post: it is opened after the file and brought up to it, as `follow`
/// does, and each line is noted in the file and then in the copy. So all that was handed over stands in both, up to the first
/// fault of a disk, which ends it. All parts come back.
pub fn guard_cmd<S, K, D, C, Z, G, R>(
    rt: &R,
    alloc: Global,
    issuer: &Nif,
    source: &mut S,
    sink: &mut K,
    outside: Outside<D, C, Z, G>,
) -> (Ended, Outside<D, C, Z, G>)
where
    S: Source,
    K: Sink,
    D: Disk + Drop,
    C: Clock + Drop,
    Z: Sleeper + Drop,
    G: Agency + Drop,
    R: Wait,
    requires { length outside.more ≡ 1 }
    ensures status { result.0.status ≡ status_of result.0.detail }
    //= `guard` opens the file, brings NEW up to it, and drains both: each end comes exactly with its cause.
    //= No body: it is of `open`, `catch_up`, `guard_opened` and `end_by`, each with its own
    ensures ends { GuardRan issuer.now (this_call (this_source S.left S.faults source.old source.new)
        (this_sink K.taken K.faults sink.old sink.new) D.Disk C.Clock Z.Sleeper G.Agency (own_post outside) (own_post result.1))
        (further outside result.1) result.0.detail }
{
    let Outside {
        disk,
        clock,
        sleeper,
        agency,
        more,
    } = outside;
    let post = Post {
        disk,
        clock,
        sleeper,
        agency,
    };
    let (other, room) = take_further(more);
    let (ended, post, copy) = guard_source(rt, alloc, issuer, source, sink, post, other.disk);
    let more = put_further(
        Post {
            disk: copy,
            ..other
        },
        room,
    );
    let Post {
        disk,
        clock,
        sleeper,
        agency,
    } = post;
    (
        ended,
        Outside {
            disk,
            clock,
            sleeper,
            agency,
            more,
        },
    )
}
