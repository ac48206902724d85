//! The run of several issuers, each by its own clock.
ghost use Rattle.std.specs.Prelude.{◌≡◌, ◌≤◌, [], All, IfOk, List, length, vec_capacity, vec_len};
ghost use Rattle.ports.specs.Sinks.{this_sink};
ghost use Rattle.issuers.specs.Office.{AreOwn};
ghost use Rattle.issuers.specs.Parts.{HasLines};
ghost use Rattle.parties.specs.declared.limits.TheConstants.{MAX_ISSUERS};
ghost use Rattle.many_issuers.specs.Pairwise.{Both};
ghost use Rattle.many_issuers.specs.IssuerFiles.{AreOpened, Start};
ghost use Rattle.many_issuers.specs.IssuerTasks.{HasRoomFor, Installed, IsTasked};
ghost use Rattle.many_issuers.specs.Work.{IsWaiting};
ghost use Rattle.many_issuers.specs.Ends.{IssuersRun, OwnRowEnds};

use crate::joining::jobs_of;
use crate::opening::{Installation, open_all};
use crate::printing::{dones_of, give_back, print_blocks};
use crate::serving::{Served, serve_stores};
use crate::working::{Done, IssuerJob, work_all};
use agency_port::Agency;
use chain_disk::Disk;
use issuers::{Part, Parts};
use parties::Nif;
use ports::{Clock, NoMemory, Sink, Sleeper};
use report::Detail;
use shop_core::a_history_notes_its_records;
use shop_drain::{Post, who_keeps_the_rules_tells};
use std::alloc::Global;
use std::sync::Wait;
use std::thread::Threads;

/// The room of a run, which is made before it begins.
#[derive(Drop)]
pub(crate) struct RunRoom<D: Disk, C: Clock, Z, G> {
    pub(crate) installation: Installation<D, C, Z, G>,
    pub(crate) jobs: Vec<IssuerJob<D, C, Z, G>>,
    pub(crate) dones: Vec<Done<D, C, Z, G>>,
}

impl<D: Disk + Drop, C: Clock + Drop, Z: Drop, G: Drop> RunRoom<D, C, Z, G> {
    /// The room for this many issuers.
    pub(crate) fn for_issuers(alloc: Global, count: usize) -> Result<RunRoom<D, C, Z, G>, NoMemory>
        ensures { IfOk result (HasRoomFor count) }
    {
        let installation = Installation::with_room(alloc, count)?;
        let jobs = Vec::with_capacity(alloc, count)?;
        let dones = Vec::with_capacity(alloc, count)?;
        Ok(RunRoom {
            installation,
            jobs,
            dones,
        })
    }
}

// Answers the commands of the issuers whose files were opened, and gives each issuer its job.
fn serve_installation<D: Disk + Drop, C: Clock + Drop, Z: Drop, G: Drop>(
    alloc: Global,
    installation: Installation<D, C, Z, G>,
    jobs: Vec<IssuerJob<D, C, Z, G>>,
) -> Vec<IssuerJob<D, C, Z, G>>
    requires installed { Installed D.Disk C.Clock installation }
    requires none { jobs.items ≡ [] }
    requires room { vec_len installation.issuer_files ≤ vec_capacity jobs }
    ensures waiting { All (IsWaiting D.tells D.on_disk) result.items }
    ensures tasked { (starts : List (Start D C Z G)) →
        AreOpened D.Disk C.Clock starts installation.issuer_files.items installation.stores.items installation.parts.items →
        Both (IsTasked D.Disk C.Clock) starts result.items }
{
    let Installation {
        issuer_files,
        stores,
        parts,
    } = installation;
    let parts = Parts::of(parts);
    let Served {
        stores,
        answers,
        all,
    } = serve_stores(alloc, stores, &parts);
    jobs_of(
        alloc,
        issuer_files,
        stores,
        parts.into_vec(),
        &answers,
        all,
        jobs,
    )
}

/// Opens the file of each issuer, answers the commands of those that opened, and does at the same time what comes after them; then
/// prints the blocks. The posts come back in their order.
pub(crate) fn run_posts<K, D, C, Z, G, R>(
    rt: &R,
    alloc: Global,
    issuers: &[Nif],
    parts: Vec<Part>,
    sink: &mut K,
    posts: Vec<Post<D, C, Z, G>>,
    room: RunRoom<D, C, Z, G>,
) -> (Detail, Vec<Post<D, C, Z, G>>)
where
    K: Sink,
    D: Disk + Send + Drop,
    C: Clock + Send + Drop,
    Z: Sleeper + Send + Drop,
    G: Agency + Send + Drop,
    R: Threads + Wait + Sync,
    requires few { length issuers.now ≤ MAX_ISSUERS }
    requires distinct { AreOwn issuers.now }
    requires one_each { length posts.items ≡ length issuers.now }
    requires each { length parts.items ≡ length issuers.now }
    requires lines { All HasLines parts.items }
    requires room { HasRoomFor (length issuers.now) room }
    ensures { IssuersRun (OwnRowEnds D.Disk C.coming C.by_readings Z.Sleeper G.Agency) issuers.now parts.items posts.items result.1.items
        (this_sink K.taken K.faults sink.old sink.new) result.0 }
{
    a_history_notes_its_records();
    who_keeps_the_rules_tells::<G>();
    let RunRoom {
        installation,
        jobs,
        dones,
    } = room;
    let mut posts = posts;
    let installation = open_all(alloc, issuers, parts, &mut posts, installation);
    let jobs = serve_installation(alloc, installation, jobs);
    let jobs = work_all(rt, alloc, jobs);
    let dones = dones_of(jobs, dones);
    let end = print_blocks(alloc, &dones, sink);
    (end, give_back(dones, posts))
}
