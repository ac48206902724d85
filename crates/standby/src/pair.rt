//! A store and its standby, which note together.
ghost use Rattle.std.specs.Prelude.{◌≡◌, ◌≤◌, ◌↔◌, ℕ, length, IfOk, OnOk, OnErr, IsErrOf, None, Some};
ghost use Rattle.chain_store.specs.Ready.{noted_next};
ghost use Rattle.chain_store.specs.Store.{Ready, clock_of, journal_of, state_of};
ghost use Rattle.journal.specs.Journal.{stopped_of};
ghost use Rattle.record_codec.specs.Writing.{entry_bytes};
ghost use Rattle.record_codec.specs.declared.entry.Entry.TheVariants.{Notes};
ghost use Rattle.record_codec.specs.declared.entry.TheConstants.{MAX_NOTES};
ghost use Rattle.shop_core.specs.History.{noted, waiting};
ghost use Rattle.shop_core.specs.Legal.{AreNext, Continues};
ghost use Rattle.standby.specs.Arriving.{KeepsEntry};
ghost use Rattle.standby.specs.Chains.{IsRoomy, IsSoundChain, chain_of};
ghost use Rattle.standby.specs.Pairs.{IsPair, KeepsBoth, NotesBoth, both_of, stop_of};

use crate::standby::Standby;
use chain_disk::Disk;
use chain_store::Store;
use journal::StoreFault;
use once_world::Outbox;
use ports::{Clock, NoMemory};
use record_codec::Entry;
use record_fields::{Bytes, Line, Lines, SealedList};
use shop_core::{Waiting, a_history_notes_its_records, a_legal_history_goes_on};
use std::alloc::Global;
use std::marker::Model;
use std::snapshot::Snapshot;
use std::sync::Wait;

/// A store and its standby with equal histories, which note together: each batch of lines goes to the store's disk and then to
/// the standby's. It is an outbox: what a sender hands over and notes by it stands on both disks, up to the first fault of
/// either, which stops the pair for good.
#[derive(Drop)]
pub struct Pair<D: Disk, C: Clock, M: Disk> {
    store: Store<D, C>,
    standby: Standby<M>,
    // Both as they were at the start.
    first: Snapshot<Store<D, C>>,
    second: Snapshot<Standby<M>>,
}

impl<D: Disk, C: Clock, M: Disk> Model for Pair<D, C, M> {
    ghost use Rattle.standby.specs.Pairs.{IsPair, Paired, both_of};

    ghost Value = { Paired D C M };

    ghost view = { λ p. record { start = both_of p.first.value p.second.value; present = both_of p.store p.standby } };

    ghost invariant = { λ p. IsPair D.tells D.on_disk D.faults M.tells M.on_disk M.faults (both_of p.first.value p.second.value)
        (both_of p.store p.standby) };
}

/// What no note changes of a pair, as contracts see it: both as they were at the start. No value of it is made.
pub struct PairMark<D: Disk, C: Clock, M: Disk> {
    first: Snapshot<Store<D, C>>,
    second: Snapshot<Standby<M>>,
}

impl<D: Disk, C: Clock, M: Disk> Model for PairMark<D, C, M> {
    ghost use Rattle.standby.specs.Pairs.{Both, both_of};

    ghost Value = { Both D C M };

    ghost view = { λ m. both_of m.first.value m.second.value };
}

// An entry twice, with its bytes: one for the store and one for the standby.
#[derive(Drop)]
struct Twice {
    entry: Entry,
    copy: Entry,
    bytes: Bytes,
}

// These lines as the next ones after this many.
fn notes_of(alloc: Global, first: u32, lines: &[Line]) -> Result<Entry, NoMemory>
    ensures { IfOk result (λ entry. entry ≡ Notes first lines.now) }
{
    Ok(Entry::Notes {
        first,
        lines: Lines::of(Vec::from_slice(alloc, lines)?),
    })
}

// Makes room for an entry in both. No disk is called.
fn room_in_both<D: Disk, C: Clock, M: Disk>(
    alloc: Global,
    store: &mut Store<D, C>,
    standby: &mut Standby<M>,
    entry: &Entry,
) -> Result<Bytes, NoMemory>
    requires ready { Ready D.tells D.on_disk store.old }
    requires continues { Continues (state_of store.old).version (state_of store.old).issuer (state_of store.old).entries entry.now }
    ensures ready { Ready D.tells D.on_disk store.new }
    ensures shop { IsRoomy (chain_of store.old) (chain_of store.new) }
    ensures clock { clock_of store.new ≡ clock_of store.old }
    ensures standby { IsRoomy standby.old standby.new }
    ensures bytes { IfOk result (λ bytes. bytes ≡ entry_bytes (state_of store.old).version entry.now) }
    ensures room { OnOk result (((state_of store.new).room ≡ Some entry.now) × (standby.new.history.room ≡ Some entry.now)) }
{
    let bytes = store.prepare(alloc, entry)?;
    standby.reserve(entry)?;
    Ok(bytes)
}

// Prepares a note of these lines in both. No disk is called.
fn prepare_both<D: Disk, C: Clock, M: Disk>(
    alloc: Global,
    store: &mut Store<D, C>,
    standby: &mut Standby<M>,
    lines: &[Line],
) -> Result<Twice, NoMemory>
    requires ready { Ready D.tells D.on_disk store.old }
    requires next { AreNext (state_of store.old).entries (length (noted (state_of store.old).entries)) lines.now }
    ensures ready { Ready D.tells D.on_disk store.new }
    ensures shop { IsRoomy (chain_of store.old) (chain_of store.new) }
    ensures clock { clock_of store.new ≡ clock_of store.old }
    ensures standby { IsRoomy standby.old standby.new }
    ensures entry { IfOk result (λ twice. (twice.entry ≡ noted_next (state_of store.old).entries lines.now)
        × (twice.copy ≡ twice.entry) × (twice.bytes ≡ entry_bytes (state_of store.old).version twice.entry)) }
    ensures room { IfOk result (λ twice. ((state_of store.new).room ≡ Some twice.entry)
        × (standby.new.history.room ≡ Some twice.entry)) }
{
    let first = store.state().noted();
    let entry = notes_of(alloc, first, lines)?;
    let copy = notes_of(alloc, first, lines)?;
    let bytes = room_in_both(alloc, store, standby, &entry)?;
    Ok(Twice { entry, copy, bytes })
}

// Keeps an entry in a store, in the room that was made for it.
fn keep_in_store<D: Disk, C: Clock>(
    store: &mut Store<D, C>,
    entry: Entry,
    bytes: &[u8],
) -> Result<(), StoreFault>
    requires sound { IsSoundChain D.tells D.on_disk D.faults (chain_of store.old) }
    requires going_on { stopped_of (journal_of store.old) ≡ None }
    requires continues { Continues (state_of store.old).version (state_of store.old).issuer (state_of store.old).entries entry }
    requires room { (state_of store.old).room ≡ Some entry }
    requires encoding { bytes.now ≡ entry_bytes (state_of store.old).version entry }
    ensures sound { IsSoundChain D.tells D.on_disk D.faults (chain_of store.new) }
    ensures keeps { KeepsEntry D.tells D.on_disk D.faults (chain_of store.old) (chain_of store.new) entry result }
    ensures clock { clock_of store.new ≡ clock_of store.old }
    ensures cause { OnErr result (IsErrOf result StoreFault.DiskFault) }
{
    a_legal_history_goes_on();
    store.keep(entry, bytes)
}

// Keeps an entry in both, in the store first, in the room that was made for it.
fn keep_both<D: Disk, C: Clock, M: Disk>(
    store: &mut Store<D, C>,
    standby: &mut Standby<M>,
    twice: Twice,
) -> Result<(), StoreFault>
    requires sound { IsSoundChain D.tells D.on_disk D.faults (chain_of store.old) }
    requires going_on { (stopped_of (journal_of store.old) ≡ None) × (standby.old.stopped ≡ None) }
    requires continues { Continues (state_of store.old).version (state_of store.old).issuer (state_of store.old).entries twice.entry }
    requires standby_continues { Continues standby.old.history.version standby.old.history.issuer standby.old.history.entries twice.entry }
    requires version { standby.old.history.version ≡ (state_of store.old).version }
    requires room { ((state_of store.old).room ≡ Some twice.entry) × (standby.old.history.room ≡ Some twice.entry) }
    requires copy { (twice.copy ≡ twice.entry) × (twice.bytes ≡ entry_bytes (state_of store.old).version twice.entry) }
    ensures sound { IsSoundChain D.tells D.on_disk D.faults (chain_of store.new) }
    ensures standby_sound { IsSoundChain M.tells M.on_disk M.faults standby.new }
    ensures clock { clock_of store.new ≡ clock_of store.old }
    ensures keeps { KeepsBoth D.tells D.on_disk D.faults M.tells M.on_disk M.faults (both_of store.old standby.old)
        (both_of store.new standby.new) twice.entry result }
{
    let Twice { entry, copy, bytes } = twice;
    standby.is_sound();
    match keep_in_store(store, entry, bytes.as_slice()) {
        Err(fault) => Err(fault),
        Ok(()) => {
            let told = standby.keep(copy, bytes.as_slice());
            standby.is_sound();
            told
        }
    }
}

impl<D: Disk, C: Clock, M: Disk> Pair<D, C, M> {
    /// A store and a standby that go on, of one issuer and with equal histories.
    pub fn of(store: Store<D, C>, standby: Standby<M>) -> Pair<D, C, M>
        requires ready { Ready D.tells D.on_disk store }
        requires going_on { (stopped_of (journal_of store) ≡ None) × (standby.stopped ≡ None) }
        requires issuer { standby.history.issuer ≡ (state_of store).issuer }
        requires version { standby.history.version ≡ (state_of store).version }
        requires entries { standby.history.entries ≡ (state_of store).entries }
        ensures { result ≡ record { start = both_of store standby; present = both_of store standby } }
    {
        store.state().is_legal();
        standby.is_sound();
        let first = Snapshot::of(&store);
        let second = Snapshot::of(&standby);
        Pair {
            store,
            standby,
            first,
            second,
        }
    }

    /// The count of faults of the disk that stopped the pair. None where it goes on.
    pub fn stopped(&self) -> Option<u64>
        ensures { result ≡ stop_of self.now.present }
    {
        match self.store.stopped() {
            Some(faults) => Some(faults),
            None => self.standby.stopped(),
        }
    }

    /// Gives both, stopped or not.
    pub fn into_parts(self) -> (Store<D, C>, Standby<M>)
        ensures parts { both_of result.0 result.1 ≡ self.present }

        // Both are sound, and come from those at the start by notes alone. Where neither has stopped their histories are equal;
        // else they are equal too, or the standby's is the store's without its last notes.
        ensures pair { IsPair D.tells D.on_disk D.faults M.tells M.on_disk M.faults self.start (both_of result.0 result.1) }
    {
        let Pair {
            store,
            standby,
            first: _,
            second: _,
        } = self;
        (store, standby)
    }

    // Notes lines in both: what needs memory first, then the store's disk, then the standby's.
    fn note_both(&mut self, alloc: Global, lines: &[Line]) -> Result<(), StoreFault>
        requires some { 1 ≤ length lines.now }
        requires few { length lines.now ≤ MAX_NOTES }
        requires fits { length lines.now ≤ length (waiting self.old.present.standby.history.entries) }
        ensures start { self.new.start ≡ self.old.start }
        ensures notes { NotesBoth D.faults M.faults self.old.present self.new.present lines.now result }
        ensures pair { IsPair D.tells D.on_disk D.faults M.tells M.on_disk M.faults self.old.start self.old.present }
        ensures after { IsPair D.tells D.on_disk D.faults M.tells M.on_disk M.faults self.old.start self.new.present }
    {
        if let Some(faults) = self.store.stopped() {
            return Err(StoreFault::Stopped { faults });
        }
        if let Some(faults) = self.standby.stopped() {
            return Err(StoreFault::Stopped { faults });
        }
        match prepare_both(alloc, &mut self.store, &mut self.standby, lines) {
            Err(_) => Err(StoreFault::NoMemory),
            Ok(twice) => keep_both(&mut self.store, &mut self.standby, twice),
        }
    }
}

impl<D: Disk, C: Clock, M: Disk> Outbox for Pair<D, C, M> {
    type Fixed = PairMark<D, C, M>;

    ghost use Rattle.once_world.specs.Outbox.{Grows, HasStopped, NotedBy, OwnWithin, history_of};
    ghost use Rattle.standby.specs.Pairs.{Paired, items_in, sight_of};

    ghost fixed = { λ p. p.start };

    ghost sight = { λ p. sight_of p };

    ghost least = { λ p. length (items_in p.present) };

    fn waiting<R: Wait>(&mut self, _rt: &R, alloc: Global, max: u16) -> Result<Waiting, NoMemory> {
        let state = self.standby.state();
        let list = state.waiting_records(alloc, max)?;
        Ok(Waiting {
            noted: state.noted(),
            records: state.records(),
            list: SealedList::of(list),
        })
    }

    // Besides what an outbox says: lack of memory leaves both as they were, and a fault of either disk stops the pair at its
    // count, which rose.
    fn note<R: Wait>(&mut self, _rt: &R, alloc: Global, lines: &[Line]) -> Result<(), StoreFault>
        requires some { 1 ≤ length lines.now }
        requires few { length lines.now ≤ MAX_NOTES }
        requires fits { length lines.now ≤ length (waiting (history_of (sight_of self.old))) }
        ensures fixed { self.new.start ≡ self.old.start }
        ensures grows { Grows (sight_of self.old) (sight_of self.new) }
        ensures within { OwnWithin (sight_of self.new) }
        ensures noted { NotedBy (sight_of self.old) (sight_of self.new) lines.now result }
        ensures stopped { (faults : ℕ) →
            IsErrOf result (StoreFault.Stopped faults) ↔ HasStopped (sight_of self.old) (sight_of self.new) faults }
        //= A pair notes in the store and then in the copy, and a fault of either disk stops it at that disk's count.
        ensures both { NotesBoth D.faults M.faults self.old.present self.new.present lines.now result }
        ensures pair { IsPair D.tells D.on_disk D.faults M.tells M.on_disk M.faults self.old.start self.new.present }
    {
        a_history_notes_its_records();
        self.note_both(alloc, lines)
    }
}
