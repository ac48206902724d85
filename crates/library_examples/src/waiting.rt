//! The records that wait, and the agency's lines for them.
ghost use Rattle.std.specs.Prelude.{◌≡◌, ◌≤◌, ◌++◌, ◌∷◌, [], ℕ, IfOk, IsErrOf, IsTrue, OnErr, OnOk, Some, length, take};
ghost use Rattle.std.specs.Int.{IsInRange};
ghost use Rattle.chain_disk.specs.OnDisk.{LeavesNow};
ghost use Rattle.chain_store.specs.Ready.{noted_next};
ghost use Rattle.chain_store.specs.Store.{Ready, journal_of, state_of};
ghost use Rattle.journal.specs.Journal.{disk_of, stopped_of};
ghost use Rattle.ports.specs.Causes.{Rose};
ghost use Rattle.pacing.specs.declared.pace.TheConstants.{MAX_BATCH};
ghost use Rattle.record_codec.specs.declared.entry.TheConstants.{MAX_NOTES};
ghost use Rattle.shop_core.specs.File.Files.{StandsFor};
ghost use Rattle.shop_core.specs.History.{waiting};

use chain_disk::Disk;
use chain_store::Store;
use journal::StoreFault;
use pacing::MAX_BATCH;
use ports::{Clock, NoMemory};
use record_codec::MAX_NOTES;
use record_fields::{Line, SealedList};
use std::alloc::Global;

/// The first records that wait for a line of the agency, in their order: a batch to hand over.
pub fn first_waiting<D: Disk, C: Clock>(
    alloc: Global,
    store: &Store<D, C>,
) -> Result<SealedList, NoMemory>
    //= The first 1000 records without a line are given.
    //= No body: it is `State::waiting_records`
    ensures { IfOk result (λ list. list ≡ take MAX_BATCH (waiting (state_of store.now).entries)) }
{
    Ok(store.waiting(alloc, MAX_BATCH)?.list)
}

/// Why lines were not noted.
#[derive(Clone, Copy, Debug, PartialEq, Eq)]
pub enum NotNoted {
    /// There is no line, there are more than `MAX_NOTES`, or fewer records wait.
    Count,
    Store(StoreFault),
}

/// Notes the agency's lines for the first records that wait: one line each, in their order.
pub fn note_lines<D: Disk, C: Clock>(
    alloc: Global,
    store: &mut Store<D, C>,
    lines: &[Line],
) -> Result<(), NotNoted>
    requires { Ready D.tells D.on_disk store.old }
    ensures ready { Ready D.tells D.on_disk store.new }
    //= Lines that are noted are added after the history.
    //= No body: it is `Store::note`
    ensures noted { OnOk result ((state_of store.new).entries
        ≡ (state_of store.old).entries ++ noted_next (state_of store.old).entries lines.now ∷ []) }
    ensures same { OnErr result ((state_of store.new).entries ≡ (state_of store.old).entries) }
    ensures kept { OnOk result (IsTrue D.tells → LeavesNow (D.on_disk (disk_of (journal_of store.new)))
        (StandsFor (state_of store.new).version (state_of store.new).issuer (state_of store.new).entries)) }

    // Why lines were not noted.
    //= `Count` comes only where there is no line, more than 1000, or fewer records wait.
    //= No body: it is answered ahead of `Store::note`
    ensures count { IsErrOf result NotNoted.Count → IsInRange 1 MAX_NOTES (length lines.now) →
        length lines.now ≤ length (waiting (state_of store.old).entries) → ⊥ }
    ensures fault { IsErrOf result (NotNoted.Store StoreFault.DiskFault) →
        Rose (D.faults (disk_of (journal_of store.old))) (D.faults (disk_of (journal_of store.new))) }
    ensures stopped { (faults : ℕ) → IsErrOf result (NotNoted.Store (StoreFault.Stopped faults)) →
        stopped_of (journal_of store.old) ≡ Some faults }
{
    let count = lines.len();
    if count < 1 || count > MAX_NOTES as usize {
        return Err(NotNoted::Count);
    }
    let state = store.state();
    if state.noted() as usize + count > state.records() as usize {
        return Err(NotNoted::Count);
    }
    match store.note(alloc, lines) {
        Ok(()) => Ok(()),
        Err(fault) => Err(NotNoted::Store(fault)),
    }
}
