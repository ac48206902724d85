//! A copy of a shop's file on a second disk.
ghost use Rattle.std.specs.Prelude.{◌≡◌, ◌≤◌, ◌≢◌, ◌↔◌, ◌∷◌, [], ℕ, IsTrue, MatchBool, IfOk, IfErr, OnOk, OnErr, IsErrOf, IsSome, None, Some};
ghost use Rattle.ports.specs.Causes.{Rose};
ghost use Rattle.huella.specs.Linked.{Linked};
ghost use Rattle.chain_disk.specs.OnDisk.{LeavesNow, LeavesOnly, synced};
ghost use Rattle.chain_store.specs.Losing.{NeverLoses};
ghost use Rattle.chain_store.specs.Opening.{IsAtMostSynced, IsCreation, IsFound, IsLeftUnopened, IsOnlySynced};
ghost use Rattle.chain_store.specs.Ready.{IsReady};
ghost use Rattle.chain_store.specs.Store.{Ready, clock_of, journal_of, state_of, torn_of};
ghost use Rattle.journal.specs.File.{IsNotBegun};
ghost use Rattle.journal.specs.Journal.{disk_of, end_of, stopped_of};
ghost use Rattle.record_codec.specs.Writing.{entry_bytes};
ghost use Rattle.shop_core.specs.File.Files.{StandsFor};
ghost use Rattle.shop_core.specs.History.{recs};
ghost use Rattle.shop_core.specs.Legal.{Continues, Legal};
ghost use Rattle.standby.specs.Arriving.{AddsEntry, Arrives, KeepsEntry, Received, ReceivesUpTo};
ghost use Rattle.standby.specs.Chains.{ChainOnDisk, GoesTo, IsAppended, IsSoundChain, chain_of};
ghost use Rattle.standby.specs.Following.{Follows};
ghost use Rattle.standby.specs.Starting.{IsLeftUnstarted};
ghost use Rattle.chain_store.specs.declared.causes.OpenCause.TheVariants as opening;
ghost use Rattle.standby.specs.declared.causes.StandbyCause.TheVariants as cause;

use crate::arriving::{Arrived, Looked, kept_by, look};
use crate::causes::StandbyCause;
use crate::pieces::Piece;
use chain_disk::Disk;
use chain_store::{NotOpened, Opened, Store, keep, open_journal};
use journal::{Journal, StoreFault, a_file_not_begun_is_no_chain};
use parties::Nif;
use ports::{Clock, NoMemory};
use record_codec::{BadEntry, Entry, Version, encodings_are_apart};
use shop_core::{State, a_file_has_one_meaning, a_legal_history_goes_on, legal_is_chained};
use std::alloc::Global;
use std::marker::Model;
use std::snapshot::Snapshot;

/// A front of a shop's history, in memory and on a disk of its own.
#[derive(Drop)]
pub struct Standby<D: Disk> {
    state: State,
    journal: Journal<D>,
    // The entry whose append failed. It may be on the disk.
    torn: Option<Snapshot<Entry>>,
}

/// Why a standby could not start, with its disk.
#[derive(Drop)]
pub struct StandbyFault<D: Disk> {
    pub cause: StandbyCause,
    pub disk: D,
}

impl<D: Disk> Model for Standby<D> {
    ghost use Rattle.std.specs.Prelude.{option_map};
    ghost use Rattle.standby.specs.Chains.{ChainOnDisk, IsSoundChain, chain_by};

    ghost Value = { ChainOnDisk D };

    ghost view = { λ s. chain_by s.state s.journal (option_map (λ t. t.value) s.torn) };

    ghost invariant = { λ s. IsSoundChain D.tells D.on_disk D.faults
        (chain_by s.state s.journal (option_map (λ t. t.value) s.torn)) };
}

// Whether two versions are one.
fn is_same(held: Version, version: Version) -> bool
    ensures { MatchBool result (held ≡ version) (held ≡ version → ⊥) }
{
    held == version
}

impl<D: Disk> Standby<D> {
    // The standby of a journal that goes on and keeps this history.
    fn of(state: State, journal: Journal<D>) -> Standby<D>
        requires going_on { stopped_of journal ≡ None }
        requires ready { IsReady D.tells state None (end_of journal) (D.on_disk (disk_of journal)) }
        ensures { result ≡ record { history = state; disk = disk_of journal; gate = end_of journal; stopped = None; torn = None } }
    {
        state.is_legal();
        Standby {
            state,
            journal,
            torn: None,
        }
    }

    // The standby of a file that was opened. Of one of another version the disk is given back.
    fn of_opened(opened: Opened<D>, version: Version) -> Result<Standby<D>, StandbyFault<D>>
        requires going_on { stopped_of opened.journal ≡ None }
        requires ready { IsReady D.tells opened.state None (end_of opened.journal) (D.on_disk (disk_of opened.journal)) }
        ensures same { IfOk result (λ standby. (opened.state.version ≡ version) × (standby ≡ record {
          history = opened.state;
          disk = disk_of opened.journal;
          gate = end_of opened.journal;
          stopped = None;
          torn = None;
        })) }
        ensures sound { IfOk result (λ standby. IsSoundChain D.tells D.on_disk D.faults standby) }
        ensures other { IfErr result (λ fault. (fault.cause ≡ cause.OtherVersion opened.state.version)
            × (opened.state.version ≢ version) × (fault.disk ≡ disk_of opened.journal)) }
    {
        let Opened { state, journal } = opened;
        let held = state.version();
        if !is_same(held, version) {
            return Err(StandbyFault {
                cause: StandbyCause::OtherVersion { held },
                disk: journal.into_disk(),
            });
        }
        let standby = Standby::of(state, journal);
        standby.is_sound();
        Ok(standby)
    }

    /// Opens a disk of this issuer's chain, of either version, and begins it in this one where it isn't begun. First it is synced, so
    /// that a crash leaves what is read. A damaged file and one of another issuer are left as they are.
    pub fn open(
        alloc: Global,
        disk: D,
        issuer: &Nif,
        created: Version,
    ) -> Result<Standby<D>, NotOpened<D>>
        ensures sound { IfOk result (λ standby. IsSoundChain D.tells D.on_disk D.faults standby) }
        ensures going_on { IfOk result (λ standby. standby.stopped ≡ None) }
        ensures issuer { IfOk result (λ standby. standby.history.issuer ≡ issuer.now) }
        ensures found { IfOk result (λ standby. IsTrue D.tells →
            IsFound created standby.history.version issuer.now standby.history.entries (D.on_disk disk).content) }

        // From its first sync on, a crash at any moment of the call leaves what was found.
        ensures any_moment { IfOk result (λ standby. IsTrue D.tells →
            LeavesOnly (synced (D.on_disk disk)) (D.on_disk standby.disk)
            (IsFound created standby.history.version issuer.now standby.history.entries)) }

        // What was made sure of at any moment of the call stays, also as the disk was handed in.
        ensures never_loses { IfOk result (λ standby. IsTrue D.tells → NeverLoses (D.on_disk disk) (D.on_disk standby.disk)) }
        ensures never_loses_err { IfErr result (λ fault. IsTrue D.tells → NeverLoses (D.on_disk disk) (D.on_disk fault.disk)) }
        ensures unwritten { IfOk result (λ standby. IsTrue D.tells → IsOnlySynced (D.on_disk disk) (D.on_disk standby.disk)) }
        ensures unwritten_err { IfErr result (λ fault. IsTrue D.tells → IsAtMostSynced (D.on_disk disk) (D.on_disk fault.disk)) }
        ensures later { IfOk result (λ standby. D.faults disk ≤ D.faults standby.disk) }
        ensures left { IfErr result (λ fault. IsTrue D.tells →
            IsLeftUnopened created issuer.now fault.cause (D.on_disk disk) (D.on_disk fault.disk)) }
        ensures disk_fault { IfErr result (λ fault. fault.cause ≡ opening.DiskFault → Rose (D.faults disk) (D.faults fault.disk)) }
        ensures later_err { IfErr result (λ fault. D.faults disk ≤ D.faults fault.disk) }
    {
        let Opened { state, journal } = open_journal(alloc, disk, issuer, created)?;
        let standby = Standby::of(state, journal);
        standby.is_sound();
        Ok(standby)
    }

    /// Opens the standby's disk for this issuer and version, and begins it where it isn't begun. First it is synced, so that a
    /// crash leaves what is read. A damaged file, one of another issuer and one of another version are left as they are.
    pub fn start(
        alloc: Global,
        disk: D,
        issuer: &Nif,
        version: Version,
    ) -> Result<Standby<D>, StandbyFault<D>>
        ensures sound { IfOk result (λ standby. IsSoundChain D.tells D.on_disk D.faults standby) }
        ensures going_on { IfOk result (λ standby. standby.stopped ≡ None) }
        ensures issuer { IfOk result (λ standby. standby.history.issuer ≡ issuer.now) }
        ensures version { IfOk result (λ standby. standby.history.version ≡ version) }
        //= A copy is opened as a shop's file is, of this issuer and version, or begun.
        //= No body: it is `open_journal`, whose bodies are in `chain_store`
        ensures found { IfOk result (λ standby. IsTrue D.tells →
            IsFound version version issuer.now standby.history.entries (D.on_disk disk).content) }

        // From its first sync on, a crash at any moment of the call leaves what was found.
        ensures any_moment { IfOk result (λ standby. IsTrue D.tells →
            LeavesOnly (synced (D.on_disk disk)) (D.on_disk standby.disk)
            (IsFound version version issuer.now standby.history.entries)) }

        // What was made sure of at any moment of the call stays, also as the disk was handed in.
        ensures never_loses { IfOk result (λ standby. IsTrue D.tells → NeverLoses (D.on_disk disk) (D.on_disk standby.disk)) }
        ensures never_loses_err { IfErr result (λ fault. IsTrue D.tells → NeverLoses (D.on_disk disk) (D.on_disk fault.disk)) }

        // Nothing is written but a file's creation: of a file that is begun already the sync is all that is told.
        ensures unwritten { IfOk result (λ standby. IsTrue D.tells → IsOnlySynced (D.on_disk disk) (D.on_disk standby.disk)) }
        //= A copy's file that wasn't begun has its twenty bytes.
        //= No body: it is `open_journal`
        ensures created { IfOk result (λ standby. IsTrue D.tells → IsNotBegun (D.on_disk disk).content →
            IsCreation version issuer.now (synced (D.on_disk disk)) (D.on_disk standby.disk)) }
        ensures unwritten_err { IfErr result (λ fault. IsTrue D.tells → IsAtMostSynced (D.on_disk disk) (D.on_disk fault.disk)) }
        ensures later { IfOk result (λ standby. D.faults disk ≤ D.faults standby.disk) }

        // What the file is, by the cause, and what the calls of the disk left of it.
        //= Another issuer's file, one of another version and a damaged one are synced at most.
        //= No body: it is `open_journal`
        ensures left { IfErr result (λ fault. IsTrue D.tells →
            IsLeftUnstarted version issuer.now fault.cause (D.on_disk disk) (D.on_disk fault.disk)) }
        ensures disk_fault { IfErr result (λ fault. fault.cause ≡ cause.DiskFault →
            Rose (D.faults disk) (D.faults fault.disk)) }
        ensures later_err { IfErr result (λ fault. D.faults disk ≤ D.faults fault.disk) }
    {
        a_file_not_begun_is_no_chain();
        match open_journal(alloc, disk, issuer, version) {
            Ok(opened) => Standby::of_opened(opened, version),
            Err(NotOpened { cause, disk }) => Err(StandbyFault {
                cause: StandbyCause::from(cause),
                disk,
            }),
        }
    }

    /// Its history is legal, and is what a crash leaves of its disk. It gives nothing and costs nothing: for proofs of callers.
    pub fn is_sound(&self)
        ensures { IsSoundChain D.tells D.on_disk D.faults self.now }
    {
        let _ = &self.state;
    }

    /// Its history.
    pub fn state(&self) -> &State
        ensures { result.now ≡ self.now.history }
    {
        &self.state
    }

    /// The place of its file's closing gate.
    pub fn gate(&self) -> u64
        ensures { result ≡ self.now.gate }
    {
        self.journal.end()
    }

    /// The disk's count of faults when it stopped. None where it goes on.
    pub fn stopped(&self) -> Option<u64>
        ensures { result ≡ self.now.stopped }
    {
        self.journal.stopped()
    }

    // Makes room for an entry. No disk is called.
    pub(crate) fn reserve(&mut self, entry: &Entry) -> Result<(), NoMemory>
        ensures room { OnOk result (self.new ≡ record self.old {
          history = record {
            issuer = self.old.history.issuer;
            version = self.old.history.version;
            entries = self.old.history.entries;
            room = Some entry.now;
          };
        }) }
        ensures err { OnErr result (self.new ≡ self.old) }
    {
        self.state.reserve(entry)
    }

    // Keeps an entry that continues the history, in the room that was made for it. The bytes are its encoding. It takes no
    // memory.
    pub(crate) fn keep(&mut self, entry: Entry, bytes: &[u8]) -> Result<(), StoreFault>
        requires going_on { self.old.stopped ≡ None }
        requires continues { Continues self.old.history.version self.old.history.issuer self.old.history.entries entry }
        requires room { self.old.history.room ≡ Some entry }
        requires encoding { bytes.now ≡ entry_bytes self.old.history.version entry }
        ensures keeps { KeepsEntry D.tells D.on_disk D.faults self.old self.new entry result }
        ensures cause { OnErr result (IsErrOf result StoreFault.DiskFault) }
    {
        a_legal_history_goes_on();
        let torn = Snapshot::of(&entry);
        match keep(&mut self.state, &mut self.journal, entry, bytes) {
            Ok(()) => Ok(()),
            Err(_) => {
                self.torn = Some(torn);
                Err(StoreFault::DiskFault)
            }
        }
    }

    // Keeps the entry that a piece brings, which is the next one.
    fn add(&mut self, entry: Entry, bytes: &[u8]) -> Result<(), StoreFault>
        requires going_on { self.old.stopped ≡ None }
        requires continues { Continues self.old.history.version self.old.history.issuer self.old.history.entries entry }
        requires encoding { bytes.now ≡ entry_bytes self.old.history.version entry }
        ensures { AddsEntry D.tells D.on_disk D.faults self.old self.new entry result }
    {
        if self.reserve(&entry).is_err() {
            return Err(StoreFault::NoMemory);
        }
        self.keep(entry, bytes)
    }

    // Takes a piece. A standby that stopped answers so before the piece is looked at.
    fn meet(&mut self, alloc: Global, piece: &Piece) -> Result<Arrived, StoreFault>
        ensures arrives { self.old.stopped ≡ None → Arrives D.tells D.on_disk D.faults self.old self.new piece.now result }
        ensures stopped { (faults : ℕ) → IsErrOf result (StoreFault.Stopped faults) ↔ (self.old.stopped ≡ Some faults) }
        ensures untouched { IsSome self.old.stopped → self.new ≡ self.old }
    {
        if let Some(faults) = self.journal.stopped() {
            return Err(StoreFault::Stopped { faults });
        }
        match look(alloc, &self.state, piece) {
            Err(_) => Err(StoreFault::NoMemory),
            Ok(Looked::Old) => Ok(Arrived::Old),
            Ok(Looked::Gap { next }) => Ok(Arrived::Gap { next }),
            Ok(Looked::Bad { at }) => Ok(Arrived::Bad(BadEntry::At { at })),
            Ok(Looked::Foreign(why)) => Ok(Arrived::Foreign(why)),
            Ok(Looked::Next(entry)) => match self.add(entry, piece.body.as_slice()) {
                Ok(()) => Ok(Arrived::Kept),
                Err(fault) => Err(fault),
            },
        }
    }

    /// Takes a piece of the shop's history: it is kept where it is the next one and continues the history. What needs memory
    /// is done before the first call of the disk.
    pub fn arrive(&mut self, alloc: Global, piece: &Piece) -> Result<Arrived, StoreFault>
        //= A piece is old below the copy's count, a gap above it; at the next index it is bad, foreign with the first
        //= thing that is wrong, or kept: the entry is added, and each crash from then on leaves it.
        ensures arrives { self.old.stopped ≡ None → Arrives D.tells D.on_disk D.faults self.old self.new piece.now result }
        ensures stopped { (faults : ℕ) → IsErrOf result (StoreFault.Stopped faults) ↔ (self.old.stopped ≡ Some faults) }
        ensures untouched { IsSome self.old.stopped → self.new ≡ self.old }
        ensures sound { IsSoundChain D.tells D.on_disk D.faults self.new }
        ensures goes { GoesTo D.tells D.on_disk D.faults self.old self.new }

        // The bytes before its closing gate stay, in the copy and in each file that a crash leaves.
        //= The bytes of a copy before its closing gate stay, in the copy and in each file that a crash leaves.
        //= No body: it is of `Journal::append`, whose clauses refuse others
        ensures appended { IsAppended D.tells D.on_disk self.old self.new }

        // Of whatever history the piece is, the standby stays a front of it, and so does each file that a crash may leave.
        //= Of whatever legal history the pieces are, in whatever order and number, the copy stays a front of it that
        //= begins with what it was, and so does each file that a crash leaves.
        //= No body: it follows from `arrives`
        ensures follows { Follows D.tells D.on_disk self.old self.new (piece.now ∷ []) }
    {
        a_file_has_one_meaning();
        encodings_are_apart();
        self.is_sound();
        let told = self.meet(alloc, piece);
        self.is_sound();
        told
    }

    /// Takes pieces in their order, up to the first fault, and says how many were kept.
    pub fn receive(&mut self, alloc: Global, pieces: &[Piece]) -> Result<u64, StoreFault>
        //= A run of pieces is one piece after another, up to the first fault.
        //= No body: it is `arrive`, whose bodies are above
        ensures received { IfOk result (λ kept.
            Received self.old.history.version self.old.history.issuer self.old.history.entries pieces.now
            self.new.history.entries kept) }
        ensures up_to { IfErr result (λ fault. ReceivesUpTo D.faults self.old self.new pieces.now fault) }
        ensures going_on { OnOk result (self.new.stopped ≡ self.old.stopped) }

        // One that has stopped answers so to the first piece.
        //= A run of pieces answers `Stopped` exactly where the copy had stopped and there is a piece.
        ensures stopped { (faults : ℕ) → IsErrOf result (StoreFault.Stopped faults) ↔
            ((self.old.stopped ≡ Some faults) × (pieces.now ≢ [])) }
        ensures untouched { IsSome self.old.stopped → self.new ≡ self.old }
        ensures sound { IsSoundChain D.tells D.on_disk D.faults self.new }
        ensures goes { GoesTo D.tells D.on_disk D.faults self.old self.new }

        // The bytes before its closing gate at the start stay, in the copy and in each file that a crash leaves.
        ensures appended { IsAppended D.tells D.on_disk self.old self.new }

        // Of whatever history all pieces are, the standby stays a front of it, and so does each file that a crash may leave.
        ensures follows { Follows D.tells D.on_disk self.old self.new pieces.now }
    {
        a_file_has_one_meaning();
        self.is_sound();
        let mut kept = 0;
        for piece in pieces {
            match self.arrive(alloc, piece) {
                Ok(told) => kept += kept_by(told),
                Err(fault) => return Err(fault),
            }
        }
        Ok(kept)
    }

    /// The store of its history, which goes on with this clock.
    pub fn promote<C: Clock>(self, clock: C) -> Store<D, C>
        requires { self.stopped ≡ None }
        ensures parts { chain_of result ≡ record self { torn = None } }
        ensures clock { clock_of result ≡ clock }
        ensures ready { Ready D.tells D.on_disk result }
        //= The history of a promoted copy is legal and linked.
        //= No body: it is the copy's own invariant
        ensures legal { Legal (state_of result).version (state_of result).issuer (state_of result).entries }
        ensures linked { Linked (state_of result).issuer (recs (state_of result).entries) }

        // Every crash leaves the whole history.
        //= A promoted copy is the store of its history, and each crash leaves all of it.
        //= No body: it is the copy's own file
        ensures every_crash { IsTrue D.tells →
            LeavesNow (D.on_disk (disk_of (journal_of result)))
            (StandsFor (state_of result).version (state_of result).issuer (state_of result).entries) }
    {
        legal_is_chained();
        self.is_sound();
        let Standby {
            state,
            journal,
            torn: _,
        } = self;
        Store::of(state, journal, clock)
    }

    /// Gives the disk back, stopped or not.
    pub fn into_disk(self) -> D
        ensures disk { result ≡ self.disk }

        // Of one that goes on every crash leaves the whole history.
        ensures every_crash { self.stopped ≡ None → IsTrue D.tells →
            LeavesNow (D.on_disk result) (StandsFor self.history.version self.history.issuer self.history.entries) }
    {
        let Standby {
            state: _state,
            journal,
            torn: _,
        } = self;
        journal.into_disk()
    }
}
