//! The creation of a file.
ghost use Rattle.std.specs.Prelude.{◌≡◌, ◌<◌, ◌≤◌, ◌+◌, ◌^◌, ◌++◌, [], ◌∷◌, length, OnOk, IsTrue};
ghost use Rattle.ports.specs.Causes.{HasCause};
ghost use Rattle.chain_disk.specs.OnDisk.{LeavesOnly, IsSettled, moment};
ghost use Rattle.parties.specs.Nif.{IsNif};
ghost use Rattle.journal.specs.Commit.{IsShut};
ghost use Rattle.journal.specs.declared.TheConstants.{HEADER};
ghost use Rattle.journal.specs.File.{header, IsNotBegun, IsNotBegunOrEmpty, IsAt, NeverLosesFrames};
ghost use Rattle.journal.specs.Written.{empty_file, CreationTakes};

use crate::HEADER;
use crate::commit::commit;
use chain_disk::Disk;
use parties::Nif;
use ports::Failed;
use record_fields::Version;

// The header and a closed gate.
pub(crate) fn header_bytes(issuer: &Nif, version: Version) -> [u8; HEADER]
    ensures bytes { result ≡ header version issuer.now ++ 0 ∷ [] }
    ensures nif { IsNif issuer.now }
{
    let mut bytes = [0; HEADER];
    bytes[..8].copy_from_slice(b"VFCHAIN1");
    bytes[8] = version.number();
    bytes[9..18].copy_from_slice(&issuer.bytes());
    bytes
}

// Writes a closed first byte where the file has at most one.
pub(crate) fn shut_first<D: Disk>(disk: &mut D) -> Result<(), Failed>
    requires { IsTrue D.tells → IsNotBegun (D.on_disk disk.old).content × IsSettled (D.on_disk disk.old) }
    ensures ok { OnOk result (IsTrue D.tells → IsShut (D.on_disk disk.new)) }
    ensures writes { OnOk result (IsTrue D.tells → length (D.on_disk disk.old).content ≤ 1 →
        moment (D.on_disk disk.new) ≡ moment (D.on_disk disk.old) + 2) }
    ensures leaves { OnOk result (IsTrue D.tells → 1 < length (D.on_disk disk.old).content →
        moment (D.on_disk disk.new) ≡ moment (D.on_disk disk.old)) }
    ensures any_moment { IsTrue D.tells → LeavesOnly (D.on_disk disk.old) (D.on_disk disk.new) IsNotBegun }
    ensures cause { HasCause (D.faults disk.old) (D.faults disk.new) result }
{
    if disk.len()? > 1 {
        return Ok(());
    }
    disk.write_at(0, &[0])?;
    disk.sync()?;
    Ok(())
}

pub(crate) fn set_up<D: Disk>(disk: &mut D, issuer: &Nif, version: Version) -> Result<(), Failed>
    requires { IsTrue D.tells → IsNotBegun (D.on_disk disk.old).content × IsSettled (D.on_disk disk.old) }
    ensures ok { OnOk result (IsTrue D.tells → IsAt version issuer.now [] HEADER (D.on_disk disk.new)) }
    ensures content { OnOk result (IsTrue D.tells → (D.on_disk disk.new).content ≡ empty_file version issuer.now) }
    ensures moments { OnOk result (IsTrue D.tells → CreationTakes (D.on_disk disk.old) (D.on_disk disk.new)) }
    ensures any_moment { IsTrue D.tells →
        LeavesOnly (D.on_disk disk.old) (D.on_disk disk.new) (IsNotBegunOrEmpty version issuer.now) }
    ensures never_loses { IsTrue D.tells → NeverLosesFrames (D.on_disk disk.old) (D.on_disk disk.new) }
    ensures cause { HasCause (D.faults disk.old) (D.faults disk.new) result }
{
    shut_first(disk)?;
    let bytes = header_bytes(issuer, version);
    commit(disk, 0, &bytes)?;
    Ok(())
}
