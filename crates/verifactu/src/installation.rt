//! The run of several issuers: the first one's post is the outside's own, and those of the others are the further ones.
ghost use Rattle.std.specs.Prelude.{◌≡◌, ◌<◌, ◌≤◌, ◌+◌, ◌∷◌, length, vec_capacity, vec_len};
ghost use Rattle.ports.specs.Sinks.{this_sink};
ghost use Rattle.ports.specs.Sources.{this_source};
ghost use Rattle.issuers.specs.Office.{AreOwn};
ghost use Rattle.parties.specs.declared.limits.TheConstants.{MAX_ISSUERS};
ghost use Rattle.many_issuers.specs.Ends.{ManyEnds};
ghost use Rattle.shop_drain.specs.Devices.{this_call};
ghost use Rattle.report.specs.Status.{status_of};
ghost use Rattle.shop_commands.specs.Further.{further, own_post};
ghost use Rattle.verifactu.specs.Running.{ManyRan};

use agency_port::Agency;
use chain_disk::Disk;
use many_issuers::many_cmd;
use parties::Nif;
use ports::{Clock, Sink, Sleeper, Source};
use report::{Detail, Ended};
use shop_commands::Outside;
use shop_drain::{Post, Posts};
use std::alloc::Global;
use std::sync::Wait;
use std::thread::Threads;

// An outside of this post and these further ones.
fn outside_of<D, C, Z, G>(
    first: Post<D, C, Z, G>,
    more: Vec<Post<D, C, Z, G>>,
) -> Outside<D, C, Z, G>
    ensures { (own_post result ≡ first) × (result.more ≡ more.items) }
{
    let Post {
        disk,
        clock,
        sleeper,
        agency,
    } = first;
    Outside {
        disk,
        clock,
        sleeper,
        agency,
        more: Posts::of(more),
    }
}

// An outside of these posts.
fn outside_from<D, C, Z, G>(mut posts: Vec<Post<D, C, Z, G>>) -> Outside<D, C, Z, G>
    requires { 0 < vec_len posts }
    ensures { own_post result ∷ result.more ≡ posts.items }
{
    let first = posts.remove(0);
    outside_of(first, posts)
}

// This post and those after it, in their room.
fn in_front<D: Drop, C: Drop, Z: Drop, G: Drop>(
    first: Post<D, C, Z, G>,
    mut more: Vec<Post<D, C, Z, G>>,
) -> Vec<Post<D, C, Z, G>>
    requires { vec_len more < vec_capacity more }
    ensures { result.items ≡ first ∷ more.items }
{
    let Ok(()) = more.insert(0, first) else {
        unreachable!()
    };
    more
}

/// Runs these issuers over the posts of an outside, which come back.
pub fn run_issuers<S, K, D, C, Z, G, R>(
    rt: &R,
    alloc: Global,
    issuers: &[Nif],
    source: &mut S,
    sink: &mut K,
    outside: Outside<D, C, Z, G>,
) -> (Ended, Outside<D, C, Z, G>)
where
    S: Source,
    K: Sink,
    D: Disk + Send + Drop,
    C: Clock + Send + Drop,
    Z: Sleeper + Send + Drop,
    G: Agency + Send + Drop,
    R: Threads + Wait + Sync,
    requires few { length issuers.now ≤ MAX_ISSUERS }
    requires distinct { AreOwn issuers.now }
    requires one_each { length outside.more + 1 ≡ length issuers.now }
    ensures status { result.0.status ≡ status_of result.0.detail }
    ensures ends { ManyRan D.Disk C.Clock Z.Sleeper G.Agency issuers.now
        (this_call (this_source S.left S.faults source.old source.new) (this_sink K.taken K.faults sink.old sink.new)
        D.Disk C.Clock Z.Sleeper G.Agency (own_post outside) (own_post result.1)) (further outside result.1) result.0.detail }
{
    let Outside {
        disk,
        clock,
        sleeper,
        agency,
        more,
    } = outside;
    let first = Post {
        disk,
        clock,
        sleeper,
        agency,
    };
    let mut more = more.into_vec();
    let Ok(()) = more.reserve(1) else {
        return (Ended::of(Detail::NoMemory), outside_of(first, more));
    };
    let posts = Posts::of(in_front(first, more));
    let (ended, posts) = many_cmd(rt, alloc, issuers, source, sink, posts);
    (ended, outside_from(posts.into_vec()))
}
