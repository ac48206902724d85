//! The command `many`: several issuers in one installation, each with its own part of the script and its own file.
ghost use Rattle.std.specs.Prelude.{◌≡◌, ◌≤◌, [], ℕ, All, IfOk, length, option_map, vec_capacity};
ghost use Rattle.ports.specs.Sinks.{this_sink};
ghost use Rattle.ports.specs.Sources.{this_source};
ghost use Rattle.chain_store.specs.Readings.{readings_of};
ghost use Rattle.issuers.specs.Office.{AreOwn};
ghost use Rattle.issuers.specs.Parts.{HasLines};
ghost use Rattle.parties.specs.declared.limits.TheConstants.{MAX_ISSUERS};
ghost use Rattle.report.specs.Status.{status_of};
ghost use Rattle.many_issuers.specs.Ends.{ManyEnds, PartsRun};
ghost use Rattle.many_issuers.specs.Times.{AreOwnPosts, HasRoomForAll, IsGivenBack};
ghost use Rattle.many_issuers.specs.OwnClock.{coming_of, given_of, replaced_of};
ghost use Rattle.many_issuers.specs.Pairwise.{Both};

use crate::opening::turned;
use crate::own_clock::OwnClock;
use crate::reading::read_parts;
use crate::running::{RunRoom, run_posts};
use agency_port::Agency;
use chain_disk::Disk;
use issuers::{Part, Parts};
use parties::Nif;
use ports::{Clock, NoMemory, Sink, Sleeper, Source};
use report::{Detail, Ended};
use shop_drain::{Post, Posts};
use std::alloc::Global;
use std::sync::Wait;
use std::thread::Threads;

// A post by the clock of a script with this clock line.
fn own_post<D, C: Clock, Z, G>(
    line: Option<(u64, u64)>,
    post: Post<D, C, Z, G>,
) -> Post<D, OwnClock<C>, Z, G>
    ensures coming { (k : ℕ) → coming_of C.coming result.clock k ≡ readings_of line (C.coming post.clock) k }
    ensures given { given_of result.clock ≡ post.clock }
    ensures replaced { replaced_of result.clock ≡ option_map (λ _. post.clock) line }
    ensures rest { (result.disk ≡ post.disk) × (result.sleeper ≡ post.sleeper) × (result.agency ≡ post.agency) }
{
    let Post {
        disk,
        clock,
        sleeper,
        agency,
    } = post;
    Post {
        disk,
        clock: OwnClock::of(line, clock),
        sleeper,
        agency,
    }
}

// Each post by its own clock, or by that of the clock line of its part.
fn own_posts<D: Drop, C: Clock + Drop, Z: Drop, G: Drop>(
    parts: &[Part],
    posts: Vec<Post<D, C, Z, G>>,
    own: Vec<Post<D, OwnClock<C>, Z, G>>,
) -> Vec<Post<D, OwnClock<C>, Z, G>>
    requires one_each { length parts.now ≡ length posts.items }
    requires none { own.items ≡ [] }
    requires room { length posts.items ≤ vec_capacity own }
    ensures { AreOwnPosts C.coming parts.now posts.items result.items }
{
    let mut posts = posts;
    let mut own = own;
    while let Some(post) = posts.pop() {
        let line = parts[posts.len()].script.clock;
        own.push_reserved(own_post(line, post));
    }
    turned(own)
}

// The post by the clock that it had.
fn given_post<D, C: Clock, Z, G>(own: Post<D, OwnClock<C>, Z, G>) -> Post<D, C, Z, G>
    ensures { IsGivenBack own result }
{
    let Post {
        disk,
        clock,
        sleeper,
        agency,
    } = own;
    Post {
        disk,
        clock: clock.given(),
        sleeper,
        agency,
    }
}

fn given_posts<D: Drop, C: Clock + Drop, Z: Drop, G: Drop>(
    own: Vec<Post<D, OwnClock<C>, Z, G>>,
    posts: Vec<Post<D, C, Z, G>>,
) -> Vec<Post<D, C, Z, G>>
    requires none { posts.items ≡ [] }
    requires room { length own.items ≤ vec_capacity posts }
    ensures { Both IsGivenBack own.items result.items }
{
    let mut own = own;
    let mut posts = posts;
    while let Some(post) = own.pop() {
        posts.push_reserved(given_post(post));
    }
    turned(posts)
}

// The room of the command.
#[derive(Drop)]
struct CommandRoom<D: Disk, C: Clock, Z, G> {
    room: RunRoom<D, OwnClock<C>, Z, G>,
    own: Vec<Post<D, OwnClock<C>, Z, G>>,
    given: Vec<Post<D, C, Z, G>>,
}

fn command_room_for<D: Disk + Drop, C: Clock + Drop, Z: Drop, G: Drop>(
    alloc: Global,
    count: usize,
) -> Result<CommandRoom<D, C, Z, G>, NoMemory>
    ensures { IfOk result (HasRoomForAll count) }
{
    let room = RunRoom::for_issuers(alloc, count)?;
    let own = Vec::with_capacity(alloc, count)?;
    let given = Vec::with_capacity(alloc, count)?;
    Ok(CommandRoom { room, own, given })
}

// Runs the parts, each by its own clock. The room is made first.
fn run_parts<K, D, C, Z, G, R>(
    rt: &R,
    alloc: Global,
    issuers: &[Nif],
    parts: Parts,
    sink: &mut K,
    posts: Posts<D, C, Z, G>,
) -> (Detail, Posts<D, C, Z, G>)
where
    K: Sink,
    D: Disk + Send + Drop,
    C: Clock + Send + Drop,
    Z: Sleeper + Send + Drop,
    G: Agency + Send + Drop,
    R: Threads + Wait + Sync,
    requires few { length issuers.now ≤ MAX_ISSUERS }
    requires distinct { AreOwn issuers.now }
    requires one_each { length posts ≡ length issuers.now }
    requires each { length parts ≡ length issuers.now }
    requires lines { All HasLines parts }
    ensures { PartsRun D.Disk C.Clock Z.Sleeper G.Agency issuers.now parts posts result.1
        (this_sink K.taken K.faults sink.old sink.new) result.0 }
{
    let Ok(command_room) = command_room_for(alloc, issuers.len()) else {
        return (Detail::NoMemory, posts);
    };
    let CommandRoom { room, own, given } = command_room;
    let parts = parts.into_vec();
    let own = own_posts(&parts, posts.into_vec(), own);
    let (end, own) = run_posts(rt, alloc, issuers, parts, sink, own, room);
    (end, Posts::of(given_posts(own, given)))
}

/// Reads a script for these issuers from the source, opens the file of each post for its issuer, answers the commands of each
/// issuer's part from its own history, and at the same time opens the agencies' sessions and drains the files. It prints a block an
/// issuer, in their order. A clock line of a part replaces clock and sleeper of its post. All posts come back.
pub fn many_cmd<S, K, D, C, Z, G, R>(
    rt: &R,
    alloc: Global,
    issuers: &[Nif],
    source: &mut S,
    sink: &mut K,
    posts: Posts<D, C, Z, G>,
) -> (Ended, Posts<D, C, Z, G>)
where
    S: Source,
    K: Sink,
    D: Disk + Send + Drop,
    C: Clock + Send + Drop,
    Z: Sleeper + Send + Drop,
    G: Agency + Send + Drop,
    R: Threads + Wait + Sync,
    requires few { length issuers.now ≤ MAX_ISSUERS }
    requires distinct { AreOwn issuers.now }
    requires one_each { length posts ≡ length issuers.now }
    ensures status { result.0.status ≡ status_of result.0.detail }
    //= The source is read to its end as the parts of a script for these issuers, whose parts are then run, each for
    //= itself; where it is none, or memory runs out before the first file is opened, nothing is printed and all posts
    //= stay as they were.
    //= No body: `Works` has bodies, for each of its parts
    ensures ends { ManyEnds D.Disk C.Clock Z.Sleeper G.Agency issuers.now (this_source S.left S.faults source.old source.new)
        (this_sink K.taken K.faults sink.old sink.new) posts result.1 result.0.detail }
{
    match read_parts(alloc, issuers, source) {
        Err(fault) => (Ended::of(fault.detail()), posts),
        Ok(parts) => {
            let (detail, posts) = run_parts(rt, alloc, issuers, parts, sink, posts);
            (Ended::of(detail), posts)
        }
    }
}
