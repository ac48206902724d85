//! Moves the history of a file of version One to a second disk, in version Two.
ghost use Rattle.std.specs.Prelude.{◌≡◌, ◌≤◌, [], List, ℕ, IsTrue, IfOk, IfErr, OnOk};
ghost use Rattle.chain_disk.specs.Disks.{this_disk};
ghost use Rattle.chain_disk.specs.OnDisk.{IsSettled, LeavesNow, LeavesOnly};
ghost use Rattle.chain_store.specs.Losing.{NeverLoses};
ghost use Rattle.journal.specs.File.{AreBodies, IsFile, NeverLosesFrames};
ghost use Rattle.record_fields.specs.declared.versions.Version.TheVariants.{One, Two};
ghost use Rattle.shop_core.specs.File.Files.{StandsFor, bodies_of};
ghost use Rattle.recovery.specs.Causes.{IsMoveCause, IsMoveStateCause, IsPrepareCause, IsReadCause, IsWriteCause};
ghost use Rattle.recovery.specs.Causes.{NoCause, OneCause};
ghost use Rattle.recovery.specs.Moving.{HasCounts, IsHeldShut, IsMoveImage, IsSameOrShut, IsShutOrWhole, IsWriting, KeptUnlessShut};
ghost use Rattle.recovery.specs.Moving.{MovedOnto, NotMovedOnto};
ghost use Rattle.recovery.specs.declared.moving.MoveCause.TheVariants as cause_of;

use crate::rewriting::write_entries;
use chain_disk::Disk;
use chain_store::{LoadFault, Loaded, load};
use journal::{ShutFault, begin_shut, open_shut};
use parties::Nif;
use ports::{Failed, NoMemory};
use record_codec::{Version, an_encoding_is_a_body};
use shop_core::{State, a_file_has_one_meaning, a_legal_history_is_legal_in_version_two};
use std::alloc::Global;

/// Why a file was not moved.
#[derive(Clone, Copy, Debug, PartialEq, Eq)]
pub enum MoveCause {
    /// The old file is damaged at this byte.
    Damaged { at: u64 },
    /// The old file isn't begun (0), or is of version Two (2).
    NotOld { held: u8 },
    /// The new file, of this length, is neither not begun nor an unfinished migration of the old issuer.
    Occupied { length: u64 },
    /// The old disk failed.
    OldFault,
    /// The new disk failed.
    NewFault,
    /// A growth was refused.
    NoMemory,
}

// The old disk is only loaded: what fails otherwise is a call of the new one.
impl From<Failed> for MoveCause {
    ghost from_gives = { λ _ cause. cause ≡ cause_of.NewFault };

    fn from(_: Failed) -> Self {
        MoveCause::NewFault
    }
}

impl From<NoMemory> for MoveCause {
    ghost from_gives = { λ _ cause. cause ≡ cause_of.NoMemory };

    fn from(_: NoMemory) -> Self {
        MoveCause::NoMemory
    }
}

// The history of the old file, where that is of version One.
fn load_old<D: Disk>(alloc: Global, old: &mut D) -> Result<State, MoveCause>
    ensures stands { IfOk result (λ state. IsTrue D.tells →
        StandsFor One state.issuer state.entries (D.on_disk old.old).content) }
    ensures cause { IfErr result (IsReadCause (this_disk D.tells D.on_disk D.faults old.old old.new)) }
    ensures same { D.on_disk old.new ≡ D.on_disk old.old }
    ensures later { D.faults old.old ≤ D.faults old.new }
{
    match load(alloc, old) {
        Ok(Loaded::Begun { state, .. }) => match state.version() {
            Version::One => Ok(state),
            Version::Two => Err(MoveCause::NotOld { held: 2 }),
        },
        Ok(Loaded::NotBegun) => Err(MoveCause::NotOld { held: 0 }),
        Err(LoadFault::Damaged { at }) => Err(MoveCause::Damaged { at }),
        Err(LoadFault::DiskFault) => Err(MoveCause::OldFault),
        Err(LoadFault::NoMemory) => Err(MoveCause::NoMemory),
    }
}

// Makes sure of the header after a closed byte 0, unless an unfinished migration has it already.
fn prepare<M: Disk>(disk: &mut M, issuer: &Nif) -> Result<(), MoveCause>
    requires { IsTrue M.tells → IsSettled (M.on_disk disk.old) }
    ensures ok { OnOk result (IsTrue M.tells → IsWriting issuer.now [] 19 (M.on_disk disk.new)) }
    ensures free { OnOk result (IsTrue M.tells → IsHeldShut issuer.now (M.on_disk disk.old).content) }
    ensures any_moment { IsTrue M.tells →
        LeavesOnly (M.on_disk disk.old) (M.on_disk disk.new) (IsSameOrShut issuer.now (M.on_disk disk.old).content) }
    ensures kept { IsTrue M.tells → (IsHeldShut issuer.now (M.on_disk disk.old).content → ⊥) → M.on_disk disk.new ≡ M.on_disk disk.old }
    ensures cause { IfErr result (IsPrepareCause issuer.now (this_disk M.tells M.on_disk M.faults disk.old disk.new)) }
    ensures later { M.faults disk.old ≤ M.faults disk.new }
{
    match begin_shut(disk, issuer, Version::Two) {
        Ok(()) => Ok(()),
        Err(ShutFault::DiskFault) => Err(MoveCause::NewFault),
        Err(ShutFault::Occupied { length }) => Err(MoveCause::Occupied { length }),
    }
}

// Writes the history after the header, and opens the file.
fn rewrite<M: Disk>(alloc: Global, state: &State, disk: &mut M) -> Result<(), MoveCause>
    requires { IsTrue M.tells → IsWriting state.now.issuer [] 19 (M.on_disk disk.old) }
    ensures ok { OnOk result (IsTrue M.tells → AreBodies (bodies_of Two state.now.entries) →
        LeavesNow (M.on_disk disk.new) (IsFile Two state.now.issuer (bodies_of Two state.now.entries))) }
    ensures any_moment { IsTrue M.tells → AreBodies (bodies_of Two state.now.entries) →
        LeavesOnly (M.on_disk disk.old) (M.on_disk disk.new) (IsShutOrWhole state.now.issuer (bodies_of Two state.now.entries)) }
    ensures never_loses { IsTrue M.tells → AreBodies (bodies_of Two state.now.entries) →
        NeverLosesFrames (M.on_disk disk.old) (M.on_disk disk.new) }
    ensures cause { IfErr result (IsWriteCause (this_disk M.tells M.on_disk M.faults disk.old disk.new)) }
    ensures later { M.faults disk.old ≤ M.faults disk.new }
{
    let at = write_entries(alloc, state, disk)?;
    open_shut(disk, at)?;
    Ok(())
}

// Moves the history of a file of version One to a disk: first a sync, then the header, the frames, and byte 0.
fn move_state<M: Disk>(alloc: Global, state: &State, disk: &mut M) -> Result<(), MoveCause>
    ensures ok { OnOk result (IsTrue M.tells → (file : List ℕ) → StandsFor One state.now.issuer state.now.entries file →
        LeavesNow (M.on_disk disk.new) (StandsFor Two state.now.issuer state.now.entries)) }
    ensures free { OnOk result (IsTrue M.tells → IsHeldShut state.now.issuer (M.on_disk disk.old).content) }
    ensures any_moment { IsTrue M.tells → (file : List ℕ) → StandsFor One state.now.issuer state.now.entries file →
        LeavesOnly (M.on_disk disk.old) (M.on_disk disk.new)
        (IsMoveImage state.now.issuer state.now.entries (M.on_disk disk.old)) }
    ensures never_loses { IsTrue M.tells → (file : List ℕ) → StandsFor One state.now.issuer state.now.entries file →
        NeverLoses (M.on_disk disk.old) (M.on_disk disk.new) }
    ensures kept { IsTrue M.tells → KeptUnlessShut state.now.issuer (M.on_disk disk.old) (M.on_disk disk.new) }
    ensures cause { IfErr result (IsMoveStateCause state.now.issuer (this_disk M.tells M.on_disk M.faults disk.old disk.new)) }
    ensures later { M.faults disk.old ≤ M.faults disk.new }
{
    an_encoding_is_a_body();
    a_legal_history_is_legal_in_version_two();
    a_file_has_one_meaning();
    disk.sync()?;
    prepare(disk, state.issuer())?;
    rewrite(alloc, state, disk)?;
    Ok(())
}

/// Why a file was not moved, with the new disk.
#[derive(Drop)]
pub struct MoveFault<M: Disk> {
    pub cause: MoveCause,
    pub new: M,
}

/// A file that was moved: its new disk, and how many records and noted lines its history has.
#[derive(Drop)]
pub struct Moved<M: Disk> {
    pub new: M,
    pub records: u32,
    pub noted: u32,
}

/// Moves the history of a file of version One to a second disk, in version Two. The old disk is only read. The new file's header
/// is made sure of after a closed byte 0, and isn't written again over an unfinished migration of the same issuer. Then come the
/// frames, a closed gate and a sync, and byte 0 last.
pub fn migrate_counted<D: Disk, M: Disk>(
    alloc: Global,
    old: &mut D,
    new: M,
) -> Result<Moved<M>, MoveFault<M>>
    ensures moved { IfOk result (λ moved. MovedOnto (this_disk D.tells D.on_disk D.faults old.old old.new)
        (this_disk M.tells M.on_disk M.faults new moved.new)) }
    ensures not_moved { IfErr result (λ fault. NotMovedOnto (this_disk D.tells D.on_disk D.faults old.old old.new)
        (this_disk M.tells M.on_disk M.faults new fault.new)) }

    // What keeps a file from being moved is the cause, unless a disk failed or memory ran out.
    //= What keeps a migration from its end is told: the damaged byte, a file that isn't of version One, an occupied
    //= one with its length, or the disk that failed.
    //= No body: sessions of `migrate` and tests have its causes
    ensures cause { IfErr result (λ fault. IsMoveCause (this_disk D.tells D.on_disk D.faults old.old old.new)
        (this_disk M.tells M.on_disk M.faults new fault.new) fault.cause) }
    //= A migration only reads the old file.
    //= No body: no function of it calls `write_at` or `sync` of the old disk
    ensures same { D.on_disk old.new ≡ D.on_disk old.old }
    ensures later { D.faults old.old ≤ D.faults old.new }
    //= The records and the noted lines of what was moved are counted.
    //= No body: they are the counts of the state that was read
    ensures counts { IfOk result (λ moved. IsTrue D.tells → HasCounts (D.on_disk old.old).content moved.records moved.noted) }
{
    let mut new = new;
    match load_old(alloc, old) {
        Err(cause) => Err(MoveFault { cause, new }),
        Ok(state) => match move_state(alloc, &state, &mut new) {
            Ok(()) => Ok(Moved {
                records: state.records(),
                noted: state.noted(),
                new,
            }),
            Err(cause) => Err(MoveFault { cause, new }),
        },
    }
}

/// Moves a file as `migrate_counted` does, and gives the new disk alone.
pub fn migrate<D: Disk, M: Disk>(alloc: Global, old: &mut D, new: M) -> Result<M, MoveFault<M>>
    ensures moved { IfOk result (λ disk. MovedOnto (this_disk D.tells D.on_disk D.faults old.old old.new)
        (this_disk M.tells M.on_disk M.faults new disk)) }
    ensures not_moved { IfErr result (λ fault. NotMovedOnto (this_disk D.tells D.on_disk D.faults old.old old.new)
        (this_disk M.tells M.on_disk M.faults new fault.new)) }

    // What keeps a file from being moved is the cause, unless a disk failed or memory ran out.
    ensures cause { IfErr result (λ fault. IsMoveCause (this_disk D.tells D.on_disk D.faults old.old old.new)
        (this_disk M.tells M.on_disk M.faults new fault.new) fault.cause) }
    ensures same { D.on_disk old.new ≡ D.on_disk old.old }
    ensures later { D.faults old.old ≤ D.faults old.new }
{
    match migrate_counted(alloc, old, new) {
        Ok(Moved { new, .. }) => Ok(new),
        Err(fault) => Err(fault),
    }
}

/// What two files hold keeps the one from being moved onto the other for one cause at most: the old file is damaged, or isn't of
/// version One, or the new one is occupied. Where it may be moved, there is none.
pub fn a_migration_has_one_cause()
    //= Two files give one such cause at most.
    //= No body: a law over definitions, which has no body
    ensures one { OneCause }
    ensures none { NoCause }
{
    a_file_has_one_meaning();
}
