//! A file's verdict.
ghost use Rattle.std.specs.Prelude.{◌≡◌, IfOk, IsErrOf, IsTrue};
ghost use Rattle.ports.specs.Causes.{Rose};
ghost use Rattle.library_examples.specs.Auditing.{IsDamage};

use audit::{AuditFault, a_verdict_tells_what_a_file_is, audit};
use chain_disk::Disk;
use shop_core::AuditEnd;
use std::alloc::Global;

/// The byte at which a file is damaged; None where it isn't begun or stands for a sound chain. The file is only read.
pub fn audit_a_file<D: Disk>(alloc: Global, disk: &mut D) -> Result<Option<u64>, AuditFault>
    //= The byte at which a file is damaged is named, or none.
    ensures damage { IfOk result (λ found. IsTrue D.tells → IsDamage (D.on_disk disk.old).content found) }
    ensures fault { IsErrOf result AuditFault.DiskFault → Rose (D.faults disk.old) (D.faults disk.new) }
    ensures same { D.on_disk disk.new ≡ D.on_disk disk.old }
{
    a_verdict_tells_what_a_file_is();
    match audit(alloc, disk)? {
        AuditEnd::Sound { .. } => Ok(None),
        AuditEnd::Broken { at, .. } => Ok(Some(at)),
    }
}
