//! The verdict on a file, from what is read of it.
ghost use Rattle.std.specs.Prelude.{◌≡◌, ◌≤◌, IsTrue, IfOk, IsErrOf};
ghost use Rattle.ports.specs.Causes.{Rose};
ghost use Rattle.audit.specs.Auditing.{IsVerdict, sound_end};

use crate::AuditFault;
use chain_disk::Disk;
use ports::NoMemory;
use shop_core::{AuditEnd, FileRead, ReadFault, State, read_file};
use std::alloc::Global;

/// The verdict on a file: sound where it isn't begun or stands for a legal history, else its first break. It writes nothing.
pub fn audit<D: Disk>(alloc: Global, disk: &mut D) -> Result<AuditEnd, AuditFault>
    //= A file's verdict is sound, with the counts of its records and noted lines and its last Huella, where it isn't
    //= begun or stands for a legal history; else its first break, with its place, its byte and the first word that is
    //= true of it.
    ensures verdict { IfOk result (λ end. IsTrue D.tells → IsVerdict (D.on_disk disk.old).content end) }
    ensures fault { IsErrOf result AuditFault.DiskFault → Rose (D.faults disk.old) (D.faults disk.new) }
    //= An audit leaves the file as it was.
    //= No body: no function of a reading calls `write_at` or `sync`, which `.ci/quick` looks for
    ensures same { D.on_disk disk.new ≡ D.on_disk disk.old }
    ensures later { D.faults disk.old ≤ D.faults disk.new }
{
    match read_file(alloc, disk) {
        Err(ReadFault::DiskFault) => Err(AuditFault::DiskFault),
        Err(ReadFault::NoMemory) => Err(AuditFault::NoMemory),
        Ok(FileRead::NotBegun) => Ok(AuditEnd::Sound {
            records: 0,
            noted: 0,
            last: None,
        }),
        Ok(FileRead::Sound { state, .. }) => match sound_end(alloc, &state) {
            Ok(end) => Ok(end),
            Err(_) => Err(AuditFault::NoMemory),
        },
        Ok(FileRead::Broken { place, at, what }) => Ok(AuditEnd::Broken { place, at, what }),
    }
}

// The verdict on a file that stands for this history.
fn sound_end(alloc: Global, state: &State) -> Result<AuditEnd, NoMemory>
    ensures { IfOk result (λ end. end ≡ sound_end state.now.entries) }
{
    let records = state.records();
    let last = match state.sealed(alloc, records)? {
        None => None,
        Some(sealed) => Some(sealed.huella),
    };
    Ok(AuditEnd::Sound {
        records,
        noted: state.noted(),
        last,
    })
}
