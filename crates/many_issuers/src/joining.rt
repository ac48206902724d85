//! Each issuer's file, its store and its part, together again.
ghost use Rattle.std.specs.Prelude.{◌≡◌, ◌≤◌, ◌<◌, ◌+◌, ◌∷◌, [], ℕ, List, length, reverse, vec_capacity, vec_len};
ghost use Rattle.chain_store.specs.declared.store.Store.{Store as AnyStore};
ghost use Rattle.parties.specs.declared.limits.TheConstants.{MAX_ISSUERS};
ghost use Rattle.issuers.specs.declared.parts.Part.{Part as AnyPart};
ghost use Rattle.many_issuers.specs.IssuerJobs.{AreJobs, IsJob, TellsIf, open_files};
ghost use Rattle.many_issuers.specs.declared.opening.IssuerFile.{IssuerFile as AnyIssuerFile};

use crate::opening::{IssuerFile, turned};
use crate::serving::replies_of;
use crate::working::{IssuerJob, IssuerTask};
use chain_disk::Disk;
use chain_store::Store;
use issuers::{OfficeAnswers, Part};
use journal::StoreFault;
use ports::{Clock, NoMemory};
use shop_core::Reply;
use shop_drain::Opened;
use std::alloc::Global;

// The replies to the issuer of this index, where there was memory for all answers.
fn told_to(
    alloc: Global,
    answers: &OfficeAnswers,
    all: Result<(), NoMemory>,
    index: usize,
) -> Result<Vec<Result<Reply, StoreFault>>, NoMemory>
    requires { index < MAX_ISSUERS }
    ensures { TellsIf answers.now all index result }
{
    all?;
    replies_of(alloc, answers.as_slice(), index as u16)
}

// The task of the last issuer that is left.
fn next_task<D: Disk, C: Clock, Z, G>(
    alloc: Global,
    issuer_file: IssuerFile<D, C, Z, G>,
    stores: &mut Vec<Store<D, C>>,
    parts: &mut Vec<Part>,
    answers: &OfficeAnswers,
    all: Result<(), NoMemory>,
) -> IssuerTask<D, C, Z, G>
    requires stores { open_files (issuer_file ∷ []) ≤ length stores.old.items }
    requires parts { length parts.old.items ≡ length stores.old.items }
    requires few { length stores.old.items ≤ MAX_ISSUERS }
    ensures left { length stores.new.items + open_files (issuer_file ∷ []) ≡ length stores.old.items }
    ensures parts { length parts.new.items ≡ length stores.new.items }
    ensures job { IsJob answers.now all issuer_file stores.old.items parts.old.items stores.new.items parts.new.items result }
{
    match issuer_file {
        IssuerFile::Closed { issuer, unopened } => IssuerTask::Closed { issuer, unopened },
        IssuerFile::Open {
            issuer,
            sleeper,
            agency,
        } => {
            let Some(store) = stores.pop() else {
                unreachable!()
            };
            let Some(part) = parts.pop() else {
                unreachable!()
            };
            let replies = told_to(alloc, answers, all, stores.len());
            IssuerTask::Open {
                issuer,
                part,
                replies,
                opened: Opened {
                    store,
                    sleeper,
                    agency,
                },
            }
        }
    }
}

/// A job for each issuer.
pub(crate) fn jobs_of<D: Disk + Drop, C: Clock + Drop, Z: Drop, G: Drop>(
    alloc: Global,
    issuer_files: Vec<IssuerFile<D, C, Z, G>>,
    stores: Vec<Store<D, C>>,
    parts: Vec<Part>,
    answers: &OfficeAnswers,
    all: Result<(), NoMemory>,
    jobs: Vec<IssuerJob<D, C, Z, G>>,
) -> Vec<IssuerJob<D, C, Z, G>>
    requires stores { open_files issuer_files.items ≡ length stores.items }
    requires parts { length parts.items ≡ length stores.items }
    requires few { length stores.items ≤ MAX_ISSUERS }
    requires none { jobs.items ≡ [] }
    requires room { vec_len issuer_files ≤ vec_capacity jobs }
    ensures { AreJobs answers.now all 0 issuer_files.items stores.items parts.items result.items }
{
    let mut issuer_files = issuer_files;
    let mut stores = stores;
    let mut parts = parts;
    let mut jobs = jobs;
    while let Some(issuer_file) = issuer_files.pop() {
        let task = next_task(alloc, issuer_file, &mut stores, &mut parts, answers, all);
        jobs.push_reserved(IssuerJob {
            task: Some(task),
            done: None,
        });
    }
    turned(jobs)
}
