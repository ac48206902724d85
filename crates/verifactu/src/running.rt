//! The program: one call does all that it does. `obey_first` only takes the outside apart and puts it together again:
//! so `run` has one arm, with one clause to prove, for all commands of the first file.
ghost use Rattle.std.specs.Prelude.{◌≡◌, IsTrue, length, map, string_bytes};
ghost use Rattle.ports.specs.Sinks.{this_sink};
ghost use Rattle.ports.specs.Sources.{this_source};
ghost use Rattle.shop_drain.specs.Devices.{disk_in, this_call};
ghost use Rattle.shop_commands.specs.Further.{further, own_post};
ghost use Rattle.report.specs.Status.{status_of};
ghost use Rattle.report.specs.declared.status.Detail.TheVariants as detail;
ghost use Rattle.file_commands.specs.Output.{PrintEnds};
ghost use Rattle.verifactu.specs.Promise.{Promise};
ghost use Rattle.shop_commands.specs.Follow.{FollowsPost};
ghost use Rattle.shop_commands.specs.Migrate.{MovesPost};
ghost use Rattle.verifactu.specs.Running.{CommandEnds, CommandReads, EndsAs, OwnEnds, ReadsOnce};
ghost use Rattle.verifactu.specs.CommandLine.{IsForIssuerOrOneFile, IsGuarding, IsOfOneFile, IsWithin, posts_needed};

use crate::command_line::{Command, command_of};
use crate::help::{help_text, version_text};
use crate::helps::help_on;
use crate::installation::run_issuers;
use agency_port::Agency;
use chain_disk::Disk;
use file_commands::{
    audit_cmd, check_cmd, export_cmd, generate_cmd, link_cmd, list_cmd, matches_cmd, print,
    statement_cmd,
};
use ports::{Clock, Gate, Sink, Sleeper, Source};
use report::{Detail, Ended};
use shop_commands::{
    Outside, chain_cmd, day_cmd, drain_cmd, follow_cmd, guard_cmd, migrate_cmd, put_further,
    serve_cmd, take_further,
};
use shop_core::{a_file_has_one_meaning, a_history_notes_its_records, legal_is_chained};
use shop_drain::{Post, what_a_disk_reads_is_an_image, who_keeps_the_rules_tells};
use std::alloc::Global;
use std::sync::Wait;
use std::thread::Threads;

/// Runs the command that the words are, over the parts that it needs (docs/COMMANDS.md, Calls, has the table), and
/// gives all parts back. FILE is the caller's, who names the disk by it, and so are the further posts, as many as
/// `posts_needed` says of the words. How each command ends is in `ends`; what every run keeps of the file, of its tills
/// and of the agency, in `promise`.
pub fn run<S, K, D, C, Z, G, T, R>(
    rt: &R,
    alloc: Global,
    words: &[String],
    source: &mut S,
    sink: &mut K,
    outside: Outside<D, C, Z, G>,
    gate: &T,
) -> (Ended, Outside<D, C, Z, G>)
where
    S: Source,
    K: Sink,
    D: Disk + Send + Drop,
    C: Clock + Send + Drop,
    Z: Sleeper + Send + Drop,
    G: Agency + Send + Drop,
    T: Gate + Sync,
    R: Threads + Wait + Sync,
    requires { length outside.more ≡ posts_needed (map string_bytes words.now) }
    //= Each command ends with its status by its cause, and leaves, prints and sends what its own definition says.
    ensures ends { EndsAs D.Disk C.Clock Z.Sleeper G.Agency (map string_bytes words.now) (this_call (this_source S.left S.faults source.old source.new)
        (this_sink K.taken K.faults sink.old sink.new) D.Disk C.Clock Z.Sleeper G.Agency (own_post outside) (own_post result.1))
        (further outside result.1) result.0 }
    //= Every run keeps of the file, of its tills, of the agency and of further files what the promise says, whatever
    //= it ran and however it ended.
    ensures promise { Promise D.Disk C.Clock Z.Sleeper G.Agency (map string_bytes words.now) (this_call (this_source S.left S.faults source.old source.new)
        (this_sink K.taken K.faults sink.old sink.new) D.Disk C.Clock Z.Sleeper G.Agency (own_post outside) (own_post result.1))
        (further outside result.1) }
    //= A dialogue ends at the first read that fails, and reads on after none.
    //= No body: it is of `next_line` of `line_reader`, whose clause `once` refuses a read that is tried again
    ensures once { IsTrue S.counts →
        ReadsOnce (map string_bytes words.now) (S.faults source.old) (S.faults source.new) result.0.detail }
{
    a_file_has_one_meaning();
    a_history_notes_its_records();
    legal_is_chained();
    who_keeps_the_rules_tells::<G>();
    what_a_disk_reads_is_an_image::<D>();
    match command_of(words) {
        None => (Ended::of(Detail::Usage), outside),
        Some(Command::Migrate) => move_to_further(alloc, sink, outside),
        Some(Command::Follow) => follow_by_further(alloc, sink, outside),
        Some(Command::Many(issuers)) => {
            run_issuers(rt, alloc, issuers.as_slice(), source, sink, outside)
        }
        Some(command) => obey_first(rt, alloc, command, source, sink, outside, gate),
    }
}

// A command that isn't `migrate`, `follow` or `many`.
fn obey_first<S, K, D, C, Z, G, T, R>(
    rt: &R,
    alloc: Global,
    command: Command,
    source: &mut S,
    sink: &mut K,
    outside: Outside<D, C, Z, G>,
    gate: &T,
) -> (Ended, Outside<D, C, Z, G>)
where
    S: Source,
    K: Sink,
    D: Disk + Send + Drop,
    C: Clock + Send + Drop,
    Z: Sleeper + Send + Drop,
    G: Agency + Send + Drop,
    T: Gate + Sync,
    R: Threads + Wait + Sync,
    requires within { IsWithin command }
    requires first { IsForIssuerOrOneFile command }
    requires further { IsGuarding command → length outside.more ≡ 1 }
    ensures status { result.0.status ≡ status_of result.0.detail }
    ensures ends { CommandEnds D.Disk C.Clock Z.Sleeper G.Agency command (this_call (this_source S.left S.faults source.old source.new)
        (this_sink K.taken K.faults sink.old sink.new) D.Disk C.Clock Z.Sleeper G.Agency (own_post outside) (own_post result.1))
        (further outside result.1) result.0.detail }
    ensures once { IsTrue S.counts → CommandReads command (S.faults source.old) (S.faults source.new) result.0.detail }
{
    if let Command::Guard(issuer) = command {
        return guard_cmd(rt, alloc, &issuer, source, sink, outside);
    }
    let Outside {
        disk,
        clock,
        sleeper,
        agency,
        more,
    } = outside;
    let post = Post {
        disk,
        clock,
        sleeper,
        agency,
    };
    let (ended, post) = run_command(rt, alloc, command, source, sink, post, gate);
    let Post {
        disk,
        clock,
        sleeper,
        agency,
    } = post;
    (
        ended,
        Outside {
            disk,
            clock,
            sleeper,
            agency,
            more,
        },
    )
}

// Moves the first file to the one further file.
fn move_to_further<K: Sink, D: Disk + Drop, C: Drop, Z: Drop, G: Drop>(
    alloc: Global,
    sink: &mut K,
    outside: Outside<D, C, Z, G>,
) -> (Ended, Outside<D, C, Z, G>)
    requires { length outside.more ≡ 1 }
    ensures status { result.0.status ≡ status_of result.0.detail }
    ensures moves { MovesPost (this_sink K.taken K.faults sink.old sink.new) (disk_in D.Disk (own_post outside) (own_post result.1))
        (further outside result.1) result.0.detail }
    ensures same { D.on_disk result.1.disk ≡ D.on_disk outside.disk }
    ensures rest { (result.1.clock ≡ outside.clock) × (result.1.sleeper ≡ outside.sleeper) × (result.1.agency ≡ outside.agency) }
{
    let (other, room) = take_further(outside.more);
    let (ended, disk, new) = migrate_cmd(alloc, sink, outside.disk, other.disk);
    let more = put_further(Post { disk: new, ..other }, room);
    (
        ended,
        Outside {
            disk,
            more,
            ..outside
        },
    )
}

// Brings the one further file up to the first one.
fn follow_by_further<K: Sink, D: Disk + Drop, C: Drop, Z: Drop, G: Drop>(
    alloc: Global,
    sink: &mut K,
    outside: Outside<D, C, Z, G>,
) -> (Ended, Outside<D, C, Z, G>)
    requires { length outside.more ≡ 1 }
    ensures status { result.0.status ≡ status_of result.0.detail }
    ensures follows { FollowsPost (this_sink K.taken K.faults sink.old sink.new)
        (disk_in D.Disk (own_post outside) (own_post result.1)) (further outside result.1) result.0.detail }
    ensures same { D.on_disk result.1.disk ≡ D.on_disk outside.disk }
    ensures rest { (result.1.clock ≡ outside.clock) × (result.1.sleeper ≡ outside.sleeper) × (result.1.agency ≡ outside.agency) }
{
    let (other, room) = take_further(outside.more);
    let (ended, disk, copy) = follow_cmd(alloc, sink, outside.disk, other.disk);
    let more = put_further(
        Post {
            disk: copy,
            ..other
        },
        room,
    );
    (
        ended,
        Outside {
            disk,
            more,
            ..outside
        },
    )
}

fn run_command<S, K, D, C, Z, G, T, R>(
    rt: &R,
    alloc: Global,
    command: Command,
    source: &mut S,
    sink: &mut K,
    post: Post<D, C, Z, G>,
    gate: &T,
) -> (Ended, Post<D, C, Z, G>)
where
    S: Source,
    K: Sink,
    D: Disk + Send + Drop,
    C: Clock + Send + Drop,
    Z: Sleeper + Send + Drop,
    G: Agency + Send + Drop,
    T: Gate + Sync,
    R: Threads + Wait + Sync,
    requires within { IsWithin command }
    requires one { IsOfOneFile command }
    ensures status { result.0.status ≡ status_of result.0.detail }
    ensures ends { OwnEnds command (this_call (this_source S.left S.faults source.old source.new)
        (this_sink K.taken K.faults sink.old sink.new) D.Disk C.Clock Z.Sleeper G.Agency post result.1) result.0.detail }
    ensures once { IsTrue S.counts → CommandReads command (S.faults source.old) (S.faults source.new) result.0.detail }
{
    match command {
        Command::Chain(issuer) => {
            let (ended, disk, clock) = chain_cmd(
                alloc, &issuer, source, sink, post.disk, post.clock,
            );
            (
                ended,
                Post {
                    disk,
                    clock,
                    ..post
                },
            )
        }
        Command::Day(issuer) => day_cmd(rt, alloc, &issuer, source, sink, post, gate),
        Command::Drain(issuer) => drain_cmd(rt, alloc, &issuer, source, sink, post),
        Command::Serve(issuer) => serve_cmd(rt, alloc, &issuer, source, sink, post, gate),
        Command::Audit => {
            let (ended, disk) = audit_cmd(alloc, sink, post.disk);
            (ended, Post { disk, ..post })
        }
        Command::Link(num, host) => {
            let (ended, disk) = link_cmd(alloc, &num, host, sink, post.disk);
            (ended, Post { disk, ..post })
        }
        Command::Listing(choice) => {
            let (ended, disk) = list_cmd(alloc, choice, sink, post.disk);
            (ended, Post { disk, ..post })
        }
        Command::Check(workers) => {
            let (ended, disk) = check_cmd(rt, alloc, workers, source, sink, post.disk);
            (ended, Post { disk, ..post })
        }
        Command::Migrate | Command::Follow | Command::Guard(_) | Command::Many(_) => unreachable!(),
        Command::Statement(period) => {
            let (ended, disk) = statement_cmd(alloc, period, sink, post.disk);
            (ended, Post { disk, ..post })
        }
        Command::Export => {
            let (ended, disk) = export_cmd(alloc, sink, post.disk);
            (ended, Post { disk, ..post })
        }
        Command::Matches => {
            let (ended, disk) = matches_cmd(alloc, source, sink, post.disk);
            (ended, Post { disk, ..post })
        }
        Command::Generate(n) => (generate_cmd(alloc, n, sink), post),
        Command::Help => (print_text(help_text(), sink), post),
        Command::HelpOn(topic) => (print_text(help_on(topic), sink), post),
        Command::Version => (print_text(version_text(), sink), post),
    }
}

fn print_text<K: Sink>(text: &[u8], sink: &mut K) -> Ended
    ensures status { result.status ≡ status_of result.detail }
    ensures ends { PrintEnds text.now detail.Done (this_sink K.taken K.faults sink.old sink.new) result.detail }
{
    Ended::of(print(text, Detail::Done, sink))
}
