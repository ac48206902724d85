//! A history on disk: the state, the journal that keeps it, and the clock that dates its records. `keep` lends state
//! and journal, apart, to that of `keeping`, to which a standby lends its own; it notes what was torn.
ghost use Rattle.std.specs.Prelude.{◌≡◌, ◌≤◌, ◌+◌, ◌++◌, ◌∷◌, [], ◌↔◌, true, ℕ, length, take, drop};
ghost use Rattle.std.specs.Prelude.{IsTrue, IfOk, OnOk, OnErr, IsErrOf, IsSome, None, Some};
ghost use Rattle.record_codec.specs.Writing.{entry_bytes};
ghost use Rattle.chain_disk.specs.OnDisk.{LeavesOnly};
ghost use Rattle.shop_core.specs.History.{recs, noted, is_record};
ghost use Rattle.shop_core.specs.Answer.Replies.{IsTaken};
ghost use Rattle.std.specs.Int.{IsInRange};
ghost use Rattle.shop_core.specs.Legal.{Continues};
ghost use Rattle.shop_core.specs.File.Files.{StandsBeforeOrWith};
ghost use Rattle.chain_store.specs.Ready.{IsReady, TearsLines, noted_next};
ghost use Rattle.record_codec.specs.declared.entry.TheConstants.{MAX_NOTES};

use crate::keeping::{keep, prepare};
use chain_disk::Disk;
use journal::{Journal, StoreFault};
use ports::{Clock, NoMemory};
use record_codec::Entry;
use record_fields::{Bytes, Line, Lines, SealedList};
use shop_core::{
    Ask, Asking, Planned, Reply, State, Waiting, plan_asking, taken, what_is_made_is_a_record,
};
use std::alloc::Global;
use std::snapshot::Snapshot;

/// An issuer's history, in memory and on its disk.
#[derive(Drop)]
pub struct Store<D: Disk, C: Clock> {
    state: State,
    journal: Journal<D>,
    clock: C,
    // The entry whose append failed. It may be on the disk.
    torn: Option<Snapshot<Entry>>,
}

impl<D: Disk, C: Clock> Store<D, C> {
    ghost use Rattle.journal.specs.Journal.{disk_of, end_of, stopped_of};
    ghost use Rattle.chain_store.specs.Took.{Took, read_at};
    ghost use Rattle.chain_store.specs.Store.{Acknowledged, Adds, GoesOn, IsAppended, IsLater, IsStoppedByFault, LosesNothing, Ready};
    ghost use Rattle.chain_store.specs.Store.{Writes};
    ghost use Rattle.chain_store.specs.Store.{clock_of, journal_of, state_of, this_call, torn_of};

    /// The store of a journal that goes on and keeps this history.
    pub fn of(state: State, journal: Journal<D>, clock: C) -> Store<D, C>
        requires going_on { stopped_of journal ≡ None }
        requires ready { IsReady D.tells state None (end_of journal) (D.on_disk (disk_of journal)) }
        ensures parts { (result.state ≡ state) × (result.journal ≡ journal) × (result.clock ≡ clock) }
        ensures no_torn { torn_of result ≡ None }
    {
        Store {
            state,
            journal,
            clock,
            torn: None,
        }
    }

    pub fn state(&self) -> &State
        ensures { result.now ≡ self.now.state }
    {
        &self.state
    }

    /// The disk's count of faults when an append failed. None where the journal goes on.
    pub fn stopped(&self) -> Option<u64>
        ensures { result ≡ stopped_of self.now.journal }
    {
        self.journal.stopped()
    }

    pub fn into_parts(self) -> (State, D, C)
        ensures { (result.0 ≡ self.state) × (result.1 ≡ disk_of self.journal) × (result.2 ≡ self.clock) }
    {
        let Store {
            state,
            journal,
            clock,
            torn: _,
        } = self;
        (state, journal.into_disk(), clock)
    }

    /// The same store by another clock, and the clock that it had.
    pub fn with_clock<B: Clock>(self, clock: B) -> (Store<D, B>, C)
        ensures same { (state_of result.0 ≡ state_of self) × (journal_of result.0 ≡ journal_of self)
            × (torn_of result.0 ≡ torn_of self) }
        ensures clocks { (clock_of result.0 ≡ clock) × (result.1 ≡ clock_of self) }
    {
        let Store {
            state,
            journal,
            clock: before,
            torn,
        } = self;
        let store = Store {
            state,
            journal,
            clock,
            torn,
        };
        (store, before)
    }

    /// Answers an ask at the history and one reading of the clock, and keeps the record that is made, in the journal first.
    /// A journal that stopped answers so before the clock is read. Lack of memory comes before the first call of the disk.
    pub fn take(&mut self, alloc: Global, ask: &Ask) -> Result<Reply, StoreFault>
        requires { Ready D.tells D.on_disk self.old }
        ensures { Took D.Disk C.Clock self.old self.new ask.now result }
    {
        self.take_asking(alloc, &ask.borrowed())
    }

    /// The same for an ask whose request stays with who asks.
    pub fn take_asking(&mut self, alloc: Global, ask: &Asking) -> Result<Reply, StoreFault>
        requires { Ready D.tells D.on_disk self.old }
        ensures { Took D.Disk C.Clock self.old self.new ask.now result }
    {
        if let Some(faults) = self.journal.stopped() {
            return Err(StoreFault::Stopped { faults });
        }
        let seconds = self.clock.now();
        self.take_at(alloc, ask, seconds)
    }

    /// The same at a reading that is given. The store's own clock stays as it is.
    pub fn take_at(
        &mut self,
        alloc: Global,
        ask: &Asking,
        seconds: u64,
    ) -> Result<Reply, StoreFault>
        requires { Ready D.tells D.on_disk self.old }
        //= An ask at a reading that is given is answered at that one, and the store's own clock stays as it is.
        ensures taken { Took D.Disk (read_at seconds) self.old self.new ask.now result }
    {
        if let Some(faults) = self.journal.stopped() {
            return Err(StoreFault::Stopped { faults });
        }
        what_is_made_is_a_record();
        self.state.is_legal();
        match plan_asking(alloc, &self.state, ask, seconds) {
            Err(_) => Err(StoreFault::NoMemory),
            Ok(Planned::Again(receipt)) => Ok(Reply::Again(receipt)),
            Ok(Planned::Refused(why)) => Ok(Reply::Refused(why)),
            Ok(Planned::Made(entry)) => self.take_made(alloc, entry),
        }
    }

    // Keeps the record that an answer made.
    fn take_made(&mut self, alloc: Global, entry: Entry) -> Result<Reply, StoreFault>
        requires going_on { stopped_of self.old.journal ≡ None }
        requires ready { IsReady D.tells self.old.state None (end_of self.old.journal) (D.on_disk (disk_of self.old.journal)) }
        requires continues { Continues self.old.state.version self.old.state.issuer self.old.state.entries entry }
        requires of_record { is_record entry ≡ true }
        ensures adds { Adds D.tells D.on_disk D.faults self.old self.new entry result }
        ensures reply { IfOk result (λ reply. IsTaken self.old.state.entries entry reply) }
    {
        let reply = taken(self.state.records() + 1, &entry);
        match self.add(alloc, entry) {
            Ok(()) => {
                self.state.is_legal();
                Ok(reply)
            }
            Err(fault) => Err(fault),
        }
    }

    /// Keeps the agency's lines for the first records that have none: 1 to `MAX_NOTES` lines, and no more than such records.
    pub fn note(&mut self, alloc: Global, lines: &[Line]) -> Result<(), StoreFault>
        requires ready { Ready D.tells D.on_disk self.old }
        requires count { IsInRange 1 MAX_NOTES (length lines.now) }
        requires within { length (noted self.old.state.entries) + length lines.now ≤ length (recs self.old.state.entries) }
        ensures ready { Ready D.tells D.on_disk self.new }
        ensures issuer { self.new.state.issuer ≡ self.old.state.issuer }
        ensures version { self.new.state.version ≡ self.old.state.version }
        //= The agency's lines are added as one entry.
        //= No body: it is `keep`, whose body is that of `take`
        ensures noted { OnOk result (self.new.state.entries
            ≡ self.old.state.entries ++ noted_next self.old.state.entries lines.now ∷ []) }
        ensures same { OnErr result (self.new.state.entries ≡ self.old.state.entries) }
        ensures clock { self.new.clock ≡ self.old.clock }

        // A crash at any moment of the call leaves the history before it, or that with these lines.
        ensures any_moment { stopped_of self.old.journal ≡ None → IsTrue D.tells →
            LeavesOnly (D.on_disk (disk_of self.old.journal)) (D.on_disk (disk_of self.new.journal))
            (StandsBeforeOrWith self.old.state.version self.old.state.issuer self.old.state.entries
            (noted_next self.old.state.entries lines.now)) }

        // What was made sure of at any moment of the call stays.
        ensures never_loses { LosesNothing D.tells D.on_disk self.old self.new }

        // The bytes before the closing gate stay, and the frame of these lines is all that is written.
        ensures appended { IsAppended D.tells D.on_disk self.old self.new }
        ensures content { OnOk result (Writes D.tells D.on_disk self.old self.new (noted_next self.old.state.entries lines.now)) }
        ensures acknowledged { OnOk result (Acknowledged D.tells D.on_disk self.new) }
        ensures going_on { OnOk result (GoesOn self.old self.new) }
        ensures no_memory { IsErrOf result StoreFault.NoMemory → self.new.journal ≡ self.old.journal }
        ensures fault { IsErrOf result StoreFault.DiskFault → IsStoppedByFault D.faults self.old self.new }
        ensures torn { IsErrOf result StoreFault.DiskFault →
            TearsLines (this_call D.tells D.on_disk C.coming self.old self.new) lines.now (torn_of self.new) }
        ensures stopped { (faults : ℕ) →
            IsErrOf result (StoreFault.Stopped faults) ↔ (stopped_of self.old.journal ≡ Some faults) }
        ensures untouched { IsSome (stopped_of self.old.journal) → self.new ≡ self.old }
        ensures later { IsLater D.faults self.old self.new }
    {
        if let Some(faults) = self.journal.stopped() {
            return Err(StoreFault::Stopped { faults });
        }
        self.state.is_legal();
        let first = self.state.noted();
        let Ok(copy) = Vec::from_slice(alloc, lines) else {
            return Err(StoreFault::NoMemory);
        };
        self.add(
            alloc,
            Entry::Notes {
                first,
                lines: Lines::of(copy),
            },
        )
    }

    /// The counts of the history, and at most this many of the first records that have no noted line.
    pub fn waiting(&self, alloc: Global, max: u16) -> Result<Waiting, NoMemory>
        ensures { IfOk result (λ waiting. (waiting.noted ≡ length (noted self.now.state.entries))
            × (waiting.records ≡ length (recs self.now.state.entries))
            × (waiting.list ≡ take max (drop (length (noted self.now.state.entries)) (recs self.now.state.entries)))) }
    {
        let records = self.state.waiting_records(alloc, max)?;
        Ok(Waiting {
            noted: self.state.noted(),
            records: self.state.records(),
            list: SealedList::of(records),
        })
    }

    /// Makes room for an entry that continues the history, and gives its bytes. Then `keep` takes no memory. Neither the disk
    /// nor the clock is called.
    pub fn prepare(&mut self, alloc: Global, entry: &Entry) -> Result<Bytes, NoMemory>
        requires ready { Ready D.tells D.on_disk self.old }
        requires continues { Continues self.old.state.version self.old.state.issuer self.old.state.entries entry.now }
        ensures ready { Ready D.tells D.on_disk self.new }
        ensures bytes { IfOk result (λ bytes. bytes ≡ entry_bytes self.old.state.version entry.now) }
        ensures room { OnOk result (self.new.state ≡ record {
          issuer = self.old.state.issuer;
          version = self.old.state.version;
          entries = self.old.state.entries;
          room = Some entry.now;
        }) }
        //= Where bytes and room for an entry can't be made, the history is as it was.
        //= No body: it holds no call of the journal
        ensures err { OnErr result (self.new.state ≡ self.old.state) }
        ensures same { (self.new.journal ≡ self.old.journal) × (self.new.clock ≡ self.old.clock)
            × (self.new.torn ≡ self.old.torn) }
    {
        prepare(alloc, &mut self.state, entry)
    }

    /// Keeps an entry that continues the history, in the journal and then in the state, in the room that was made for it. The
    /// bytes are its encoding. It takes no memory.
    pub fn keep(&mut self, entry: Entry, bytes: &[u8]) -> Result<(), StoreFault>
        requires going_on { stopped_of self.old.journal ≡ None }
        requires ready { Ready D.tells D.on_disk self.old }
        requires continues { Continues self.old.state.version self.old.state.issuer self.old.state.entries entry }
        requires room { self.old.state.room ≡ Some entry }
        requires encoding { bytes.now ≡ entry_bytes self.old.state.version entry }
        ensures adds { Adds D.tells D.on_disk D.faults self.old self.new entry result }
        ensures memory { IsErrOf result StoreFault.NoMemory → ⊥ }
    {
        let torn = Snapshot::of(&entry);
        match keep(&mut self.state, &mut self.journal, entry, bytes) {
            Ok(()) => Ok(()),
            Err(_) => {
                self.torn = Some(torn);
                Err(StoreFault::DiskFault)
            }
        }
    }

    // Adds an entry that continues the history, to the journal and then to the state. What needs memory is done before the
    // first call of the disk.
    fn add(&mut self, alloc: Global, entry: Entry) -> Result<(), StoreFault>
        requires going_on { stopped_of self.old.journal ≡ None }
        requires ready { IsReady D.tells self.old.state None (end_of self.old.journal) (D.on_disk (disk_of self.old.journal)) }
        requires continues { Continues self.old.state.version self.old.state.issuer self.old.state.entries entry }
        ensures { Adds D.tells D.on_disk D.faults self.old self.new entry result }
    {
        self.state.is_legal();
        let Ok(bytes) = self.prepare(alloc, &entry) else {
            return Err(StoreFault::NoMemory);
        };
        self.keep(entry, bytes.as_slice())
    }
}
