//! Bytes after a gate, and then the gate.
ghost use Rattle.std.specs.Prelude.{◌≡◌, ◌<◌, ◌+◌, ◌^◌, length, OnOk, IsTrue};
ghost use Rattle.ports.specs.Causes.{HasCause};
ghost use Rattle.chain_disk.specs.OnDisk.{LeavesOnly, MayLeave, IsSettled, moment};
ghost use Rattle.journal.specs.Commit.{IsCommitImage, IsCommitted, IsUpToGate, gated};

use chain_disk::Disk;
use ports::Failed;

// Writes these bytes after the gate byte at this place, and then the gate as 1, with a sync after each.
pub(crate) fn commit<D: Disk>(disk: &mut D, gate: u64, bytes: &[u8]) -> Result<(), Failed>
    requires place { gate < 2 ^ 63 }
    requires within { IsTrue D.tells → gate < length (D.on_disk disk.old).content }
    ensures ok { OnOk result (IsTrue D.tells → IsSettled (D.on_disk disk.old) →
        IsCommitted (D.on_disk disk.old) gate bytes.now (D.on_disk disk.new)) }
    ensures content { OnOk result (IsTrue D.tells →
        (D.on_disk disk.new).content ≡ gated (D.on_disk disk.old).content gate 1 bytes.now) }
    ensures moments { OnOk result (IsTrue D.tells → moment (D.on_disk disk.new) ≡ moment (D.on_disk disk.old) + 4) }
    ensures any_moment { IsTrue D.tells → IsSettled (D.on_disk disk.old) →
        LeavesOnly (D.on_disk disk.old) (D.on_disk disk.new)
        (IsCommitImage (D.on_disk disk.old).content gate bytes.now) }
    ensures before_the_last { IsTrue D.tells → IsSettled (D.on_disk disk.old) →
        MayLeave (D.on_disk disk.old) (D.on_disk disk.new) (IsUpToGate (D.on_disk disk.old).content gate bytes.now) }
    ensures cause { HasCause (D.faults disk.old) (D.faults disk.new) result }
{
    disk.write_at(gate + 1, bytes)?;
    disk.sync()?;
    disk.write_at(gate, &[1])?;
    disk.sync()?;
    Ok(())
}
