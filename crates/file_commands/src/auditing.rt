//! The command `audit`: prints the verdict on a file.
ghost use Rattle.std.specs.Prelude.{◌≡◌};
ghost use Rattle.chain_disk.specs.Disks.{this_disk};
ghost use Rattle.ports.specs.Sinks.{this_sink};
ghost use Rattle.report.specs.Status.{status_of};
ghost use Rattle.file_commands.specs.Auditing.{AuditEnds, verdict_end};

use crate::output::print;
use audit::{AuditFault, audit};
use chain_disk::Disk;
use ports::Sink;
use report::{Detail, Ended, verdict_text};
use shop_core::AuditEnd;
use std::alloc::Global;

/// Prints the verdict on the file: status 0 where it is sound, 9 where it is broken. The file is only read; one that isn't
/// there is sound and is left missing. A write fault comes before a broken file.
pub fn audit_cmd<K: Sink, D: Disk>(alloc: Global, sink: &mut K, disk: D) -> (Ended, D)
    ensures status { result.0.status ≡ status_of result.0.detail }
    //= `audit` prints the verdict on the file, with 0 where it is sound and 9 where it is broken.
    //= No body: it is of `audit/audit.verdict`
    ensures ends { AuditEnds (this_sink K.taken K.faults sink.old sink.new)
        (this_disk D.tells D.on_disk D.faults disk result.1) result.0.detail }
    //= `audit` leaves the file as it was.
    //= No body: the command calls no write
    ensures same { D.on_disk result.1 ≡ D.on_disk disk }
{
    let mut disk = disk;
    let detail = audited(alloc, sink, &mut disk);
    (Ended::of(detail), disk)
}

// Looks at the file and prints the verdict.
fn audited<K: Sink, D: Disk>(alloc: Global, sink: &mut K, disk: &mut D) -> Detail
    ensures ends { AuditEnds (this_sink K.taken K.faults sink.old sink.new)
        (this_disk D.tells D.on_disk D.faults disk.old disk.new) result }
    ensures same { D.on_disk disk.new ≡ D.on_disk disk.old }
{
    let verdict = match audit(alloc, disk) {
        Ok(verdict) => verdict,
        Err(AuditFault::DiskFault) => return Detail::DiskFault,
        Err(AuditFault::NoMemory) => return Detail::NoMemory,
    };
    match verdict_text(alloc, &verdict) {
        Ok(text) => print(text.as_slice(), verdict_end(&verdict), sink),
        Err(_) => Detail::NoMemory,
    }
}

// The end that a printed verdict comes to.
fn verdict_end(verdict: &AuditEnd) -> Detail
    ensures { result ≡ verdict_end verdict.now }
{
    match verdict {
        AuditEnd::Sound { .. } => Detail::Done,
        AuditEnd::Broken { place, what, .. } => Detail::Broken {
            place: *place,
            what: *what,
        },
    }
}
