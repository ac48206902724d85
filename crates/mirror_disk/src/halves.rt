//! What a call of a mirror does to its halves.
ghost use Rattle.std.specs.Prelude.{◌≡◌, ◌≤◌, ◌↔◌, length, IsTrue, IsErr, OnOk};
ghost use Rattle.ports.specs.Causes.{HasCause, Rose};
ghost use Rattle.ports.specs.Memory.{counted_up};
ghost use Rattle.chain_disk.specs.Disks.{this_disk};
ghost use Rattle.mirror_disk.specs.Calls.{SyncsBoth, WritesBoth};
ghost use Rattle.mirror_disk.specs.declared.standing.Standing.TheVariants.{Whole};

use crate::Standing;
use chain_disk::Disk;
use ports::Failed;

// One fault more. The count stands still at the greatest u64.
pub(crate) fn raise(count: &mut u64) -> Failed
    ensures counted { count.new ≡ counted_up count.old }
    ensures later { count.old ≤ count.new }
    ensures risen { Rose count.old count.new }
{
    *count = count.saturating_add(1);
    Failed
}

// Writes both halves, the first one first, where the mirror is whole. What it then is.
pub(crate) fn write_both<D: Disk, M: Disk>(
    standing: Standing,
    first: &mut D,
    second: &mut M,
    at: u64,
    bytes: &[u8],
) -> Standing
    requires first { standing ≡ Whole → IsTrue D.tells → at ≤ length (D.on_disk first.old).content }
    requires second { standing ≡ Whole → IsTrue M.tells → at ≤ length (M.on_disk second.old).content }
    ensures whole { standing ≡ Whole → WritesBoth
        (this_disk D.tells D.on_disk D.faults first.old first.new)
        (this_disk M.tells M.on_disk M.faults second.old second.new) at bytes.now result }
    ensures broken { (standing ≡ Whole → ⊥) → (result ≡ standing)
        × (first.new ≡ first.old) × (second.new ≡ second.old) }
{
    match standing {
        Standing::Whole => match first.write_at(at, bytes) {
            Err(_) => Standing::Broken,
            Ok(()) => match second.write_at(at, bytes) {
                Err(_) => Standing::Broken,
                Ok(()) => Standing::Whole,
            },
        },
        _ => standing,
    }
}

// Syncs both halves, the first one first, where the mirror is whole. What it then is.
pub(crate) fn sync_both<D: Disk, M: Disk>(
    standing: Standing,
    first: &mut D,
    second: &mut M,
) -> Standing
    ensures whole { standing ≡ Whole → SyncsBoth
        (this_disk D.tells D.on_disk D.faults first.old first.new)
        (this_disk M.tells M.on_disk M.faults second.old second.new) result }
    ensures broken { (standing ≡ Whole → ⊥) → (result ≡ standing)
        × (first.new ≡ first.old) × (second.new ≡ second.old) }
{
    match standing {
        Standing::Whole => match first.sync() {
            Err(_) => Standing::Broken,
            Ok(()) => match second.sync() {
                Err(_) => Standing::HalfSynced,
                Ok(()) => Standing::Whole,
            },
        },
        _ => standing,
    }
}

// The answer of a call after which a mirror stands so. A failure is counted.
pub(crate) fn answer(standing: Standing, faults: &mut u64) -> Result<(), Failed>
    ensures ok { OnOk result (standing ≡ Whole) }
    ensures answers { IsErr result ↔ (standing ≡ Whole → ⊥) }
    ensures cause { HasCause faults.old faults.new result }
{
    match standing {
        Standing::Whole => Ok(()),
        _ => Err(raise(faults)),
    }
}
