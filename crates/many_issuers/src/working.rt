//! What is done of each issuer after the commands: its agency's session, the drain, its end and its block.
ghost use Rattle.std.specs.Prelude.{◌≡◌, All, IsSome, None, Some};
ghost use Rattle.chain_store.specs.Store.{Ready, clock_of, journal_of};
ghost use Rattle.journal.specs.Journal.{stopped_of};
ghost use Rattle.many_issuers.specs.Pairwise.{Both};
ghost use Rattle.many_issuers.specs.Work.{BeginsOnly, DoesClosed, DoesOpen, DoesTask, Drained, EndsTold, IsBehind, IsReadyTask};
ghost use Rattle.many_issuers.specs.Work.{IsWaiting, WorksJob};

use crate::ending::{answered_block, closed_block, issuer_end};
use agency_port::{Agency, Turns};
use agency_rules::Plan;
use chain_disk::Disk;
use issuers::Part;
use journal::StoreFault;
use parties::Nif;
use ports::{Clock, LeapSleeper, NoMemory, Sleeper};
use record_fields::Text;
use report::Detail;
use script::Script;
use sender::DrainFault;
use shop_core::Reply;
use shop_drain::{
    DrainEnd, Opened, Post, Unopened, begin_session, close, drain_opened, opening_end,
};
use std::alloc::Global;
use std::sync::Wait;
use std::thread::{Threads, for_each_mut};

/// What is still to be done of an issuer.
#[derive(Drop)]
pub(crate) enum IssuerTask<D: Disk, C: Clock, Z, G> {
    /// Its file wasn't opened.
    Closed {
        issuer: Nif,
        unopened: Unopened<D, C, Z, G>,
    },
    /// Its commands were answered, with these replies where there was memory for them.
    Open {
        issuer: Nif,
        part: Part,
        replies: Result<Vec<Result<Reply, StoreFault>>, NoMemory>,
        opened: Opened<D, C, Z, G>,
    },
}

/// An issuer of which all is done: its post, how it ended, and its block, where there was memory for it.
#[derive(Drop)]
pub(crate) struct Done<D, C, Z, G> {
    pub(crate) post: Post<D, C, Z, G>,
    pub(crate) end: Detail,
    pub(crate) block: Result<Text, NoMemory>,
}

/// An issuer at work.
#[derive(Drop)]
pub(crate) struct IssuerJob<D: Disk, C: Clock, Z, G> {
    pub(crate) task: Option<IssuerTask<D, C, Z, G>>,
    pub(crate) done: Option<Done<D, C, Z, G>>,
}

// Drains an opened file with this script's plan. The clock line of the script replaces the sleeper.
fn drain_timed<D: Disk, C: Clock, Z: Sleeper, G: Agency, R: Wait>(
    rt: &R,
    alloc: Global,
    script: &Script,
    opened: Opened<D, C, Z, G>,
) -> DrainEnd<D, C, Z, G>
    requires going_on { stopped_of (journal_of opened.store) ≡ None }
    requires ready { Ready D.tells D.on_disk opened.store }
    ensures drained { Drained D.Disk Z.Sleeper G.Agency script.now opened result }
    ensures clock { clock_of result.opened.store ≡ clock_of opened.store }
    ensures replaced { IsSome script.now.clock → result.opened.sleeper ≡ opened.sleeper }
{
    let Some((start, _)) = script.clock else {
        return drain_opened(rt, alloc, &script.plan, opened);
    };
    let Opened {
        store,
        sleeper,
        agency,
    } = opened;
    let own = Opened {
        store,
        sleeper: LeapSleeper::new(start),
        agency,
    };
    let DrainEnd {
        answer,
        turns,
        opened,
    } = drain_opened(rt, alloc, &script.plan, own);
    let Opened { store, agency, .. } = opened;
    DrainEnd {
        answer,
        turns,
        opened: Opened {
            store,
            sleeper,
            agency,
        },
    }
}

// Opens the agency's session over a file whose disk has failed, and drains nothing.
fn begin_only<D: Disk, C: Clock, Z, G: Agency>(
    alloc: Global,
    plan: &Plan,
    faults: u64,
    opened: Opened<D, C, Z, G>,
) -> DrainEnd<D, C, Z, G>
    requires stopped { stopped_of (journal_of opened.store) ≡ Some faults }
    ensures { BeginsOnly G.Agency plan.now opened result }
{
    let Opened {
        store,
        sleeper,
        mut agency,
    } = opened;
    let turns = Turns::new(alloc);
    match begin_session(alloc, plan, store.state(), &mut agency) {
        Ok(()) => DrainEnd {
            answer: Err(DrainFault::Store(StoreFault::Stopped { faults })),
            turns,
            opened: Opened {
                store,
                sleeper,
                agency,
            },
        },
        Err(_) => DrainEnd {
            answer: Err(DrainFault::NoMemory),
            turns,
            opened: Opened {
                store,
                sleeper,
                agency,
            },
        },
    }
}

// What comes after an issuer's commands: its file is drained where its journal goes on.
fn go_on<D: Disk, C: Clock, Z: Sleeper, G: Agency, R: Wait>(
    rt: &R,
    alloc: Global,
    script: &Script,
    opened: Opened<D, C, Z, G>,
) -> DrainEnd<D, C, Z, G>
    requires { Ready D.tells D.on_disk opened.store }
    ensures behind { IsBehind D.Disk Z.Sleeper G.Agency script.now opened result }
    ensures clock { clock_of result.opened.store ≡ clock_of opened.store }
    ensures replaced { IsSome script.now.clock → result.opened.sleeper ≡ opened.sleeper }
{
    match opened.store.stopped() {
        None => drain_timed(rt, alloc, script, opened),
        Some(faults) => begin_only(alloc, &script.plan, faults, opened),
    }
}

fn finish_closed<D, C, Z, G>(
    alloc: Global,
    issuer: &Nif,
    unopened: Unopened<D, C, Z, G>,
) -> Done<D, C, Z, G>
    ensures { DoesClosed issuer.now unopened result }
{
    let Unopened { why, post } = unopened;
    Done {
        post,
        end: opening_end(&why),
        block: closed_block(alloc, issuer, &why),
    }
}

// How an issuer ends, and its block.
fn told_end<D: Disk, C: Clock, Z, G>(
    alloc: Global,
    issuer: &Nif,
    part: &Part,
    replies: &Result<Vec<Result<Reply, StoreFault>>, NoMemory>,
    end: &DrainEnd<D, C, Z, G>,
) -> (Detail, Result<Text, NoMemory>)
    ensures { EndsTold issuer.now part.now.script replies.now end.now result.0 result.1 }
{
    match replies {
        Err(_) => (Detail::NoMemory, Err(NoMemory)),
        Ok(replies) => {
            let how = issuer_end(replies, &end.answer);
            let asks = part.script.asks.as_slice();
            let state = end.opened.store.state();
            (
                how,
                answered_block(alloc, issuer, asks, replies, state, &how),
            )
        }
    }
}

fn finish_open<D: Disk, C: Clock, Z: Sleeper, G: Agency, R: Wait>(
    rt: &R,
    alloc: Global,
    issuer: &Nif,
    part: &Part,
    replies: &Result<Vec<Result<Reply, StoreFault>>, NoMemory>,
    opened: Opened<D, C, Z, G>,
) -> Done<D, C, Z, G>
    requires { Ready D.tells D.on_disk opened.store }
    ensures { DoesOpen D.Disk Z.Sleeper G.Agency issuer.now part.now.script replies.now opened result }
{
    let last = go_on(rt, alloc, &part.script, opened);
    let (end, block) = told_end(alloc, issuer, part, replies, &last);
    let DrainEnd { opened, .. } = last;
    Done {
        post: close(opened),
        end,
        block,
    }
}

fn finish<D: Disk, C: Clock, Z: Sleeper, G: Agency, R: Wait>(
    rt: &R,
    alloc: Global,
    task: IssuerTask<D, C, Z, G>,
) -> Done<D, C, Z, G>
    requires { IsReadyTask D.tells D.on_disk task }
    ensures { DoesTask D.Disk Z.Sleeper G.Agency task result }
{
    match task {
        IssuerTask::Closed { issuer, unopened } => finish_closed(alloc, &issuer, unopened),
        IssuerTask::Open {
            issuer,
            part,
            replies,
            opened,
        } => finish_open(rt, alloc, &issuer, &part, &replies, opened),
    }
}

fn work<D: Disk + Drop, C: Clock + Drop, Z: Sleeper + Drop, G: Agency + Drop, R: Wait>(
    rt: &R,
    alloc: Global,
    job: &mut IssuerJob<D, C, Z, G>,
)
    requires { IsWaiting D.tells D.on_disk job.old }
    ensures { WorksJob D.Disk Z.Sleeper G.Agency job.old job.new }
{
    if let Some(task) = job.task.take() {
        job.done = Some(finish(rt, alloc, task));
    }
}

/// Does all jobs at the same time.
pub(crate) fn work_all<
    D: Disk + Send + Drop,
    C: Clock + Send + Drop,
    Z: Sleeper + Send + Drop,
    G: Agency + Send + Drop,
    R: Threads + Wait + Sync,
>(rt: &R, alloc: Global, mut jobs: Vec<IssuerJob<D, C, Z, G>>) -> Vec<IssuerJob<D, C, Z, G>>
    requires { All (IsWaiting D.tells D.on_disk) jobs.items }
    ensures { Both (WorksJob D.Disk Z.Sleeper G.Agency) jobs.items result.items }
{
    let threads = jobs.len().max(1);
    for_each_mut(rt, &mut jobs, threads, &move |_, job| work(rt, alloc, job));
    jobs
}
