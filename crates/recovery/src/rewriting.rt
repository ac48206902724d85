//! Writes a history in version Two, frame by frame, into a file that is held shut.
ghost use Rattle.std.specs.Prelude.{◌≡◌, ◌<◌, ◌≤◌, ◌+◌, ◌*◌, ◌^◌, ◌++◌, ◌∷◌, [], List, ℕ, length, take, slice_get};
ghost use Rattle.std.specs.Prelude.{IfOk, IfErr, OnOk, IsTrue, Some};
ghost use Rattle.ports.specs.Causes.{HasCause};
ghost use Rattle.chain_disk.specs.Disks.{this_disk};
ghost use Rattle.chain_disk.specs.OnDisk.{LeavesOnly};
ghost use Rattle.journal.specs.File.{framed};
ghost use Rattle.journal.specs.Whole.{IsWritingSome};
ghost use Rattle.record_fields.specs.declared.versions.Version.TheVariants.{Two};
ghost use Rattle.record_codec.specs.Validity.{EntryFits, InRanges};
ghost use Rattle.record_codec.specs.Writing.{entry_bytes};
ghost use Rattle.shop_core.specs.File.Files.{bodies_of};
ghost use Rattle.recovery.specs.Causes.{IsWriteCause};
ghost use Rattle.recovery.specs.Moving.{IsHeldShut, IsWriting};

use crate::moving::MoveCause;
use chain_disk::Disk;
use journal::add_shut;
use ports::{Failed, NoMemory};
use record_codec::{ENTRY_BYTES, Entry, Version, write_entry};
use shop_core::{State, what_continues_fits_its_bytes};
use std::alloc::Global;

// The entry of this index, which can be written in version Two.
fn entry_of(alloc: Global, state: &State, index: u64) -> Result<Entry, NoMemory>
    requires { index < length state.now.entries }
    ensures found { IfOk result (λ entry. slice_get state.now.entries index ≡ Some entry) }
    ensures ranges { IfOk result InRanges }
    ensures fits { IfOk result (EntryFits Two) }
{
    what_continues_fits_its_bytes();
    state.is_legal();
    match state.entry(alloc, index)? {
        Some(entry) => Ok(entry),
        None => unreachable!(),
    }
}

// Writes the frame of an entry where the others end.
fn write_framed<M: Disk>(disk: &mut M, at: u64, entry: &Entry) -> Result<u64, Failed>
    requires ranges { InRanges entry.now }
    requires fits { EntryFits Two entry.now }
    requires place { at < 2 ^ 62 }
    requires within { IsTrue M.tells → IsWritingSome at (M.on_disk disk.old) }
    ensures ok { IfOk result (λ next. IsTrue M.tells → (issuer : List ℕ) (bodies : List (List ℕ)) →
        IsWriting issuer (framed bodies) at (M.on_disk disk.old) →
        IsWriting issuer (framed (bodies ++ entry_bytes Two entry.now ∷ [])) next (M.on_disk disk.new)) }
    ensures any_moment { IsTrue M.tells → (issuer : List ℕ) (bodies : List (List ℕ)) →
        IsWriting issuer (framed bodies) at (M.on_disk disk.old) →
        LeavesOnly (M.on_disk disk.old) (M.on_disk disk.new) (IsHeldShut issuer) }
    ensures near { IfOk result (λ next. next ≤ at + 4101) }
    ensures cause { HasCause (M.faults disk.old) (M.faults disk.new) result }
{
    let mut bytes = [0; ENTRY_BYTES];
    let n = write_entry(Version::Two, entry, &mut bytes);
    let next = add_shut(disk, at, &bytes[..n as usize])?;
    Ok(next)
}

// Writes the frame of the entry of this index where those before it end.
fn write_at_index<M: Disk>(
    alloc: Global,
    state: &State,
    index: u64,
    disk: &mut M,
    at: u64,
) -> Result<u64, MoveCause>
    requires index { index < length state.now.entries }
    requires near { at ≤ 19 + 4101 * index }
    requires within { IsTrue M.tells → IsWriting state.now.issuer (framed (bodies_of Two (take index state.now.entries))) at
        (M.on_disk disk.old) }
    ensures ok { IfOk result (λ next. IsTrue M.tells →
        IsWriting state.now.issuer (framed (bodies_of Two (take (index + 1) state.now.entries))) next (M.on_disk disk.new)) }
    ensures near { IfOk result (λ next. next ≤ 19 + 4101 * (index + 1)) }
    ensures any_moment { IsTrue M.tells → LeavesOnly (M.on_disk disk.old) (M.on_disk disk.new) (IsHeldShut state.now.issuer) }
    ensures cause { IfErr result (IsWriteCause (this_disk M.tells M.on_disk M.faults disk.old disk.new)) }
    ensures later { M.faults disk.old ≤ M.faults disk.new }
{
    let _few = state.entries();
    let entry = entry_of(alloc, state, index)?;
    let next = write_framed(disk, at, &entry)?;
    Ok(next)
}

// Writes the frames of all entries after the header. The answer is the place where they end.
pub(crate) fn write_entries<M: Disk>(
    alloc: Global,
    state: &State,
    disk: &mut M,
) -> Result<u64, MoveCause>
    requires { IsTrue M.tells → IsWriting state.now.issuer [] 19 (M.on_disk disk.old) }
    ensures ok { IfOk result (λ at. IsTrue M.tells →
        IsWriting state.now.issuer (framed (bodies_of Two state.now.entries)) at (M.on_disk disk.new)) }
    ensures any_moment { IsTrue M.tells → LeavesOnly (M.on_disk disk.old) (M.on_disk disk.new) (IsHeldShut state.now.issuer) }
    ensures cause { IfErr result (IsWriteCause (this_disk M.tells M.on_disk M.faults disk.old disk.new)) }
    ensures later { M.faults disk.old ≤ M.faults disk.new }
{
    let mut at = 19;
    for index in 0..state.entries() {
        at = write_at_index(alloc, state, index, disk, at)?;
    }
    Ok(at)
}
