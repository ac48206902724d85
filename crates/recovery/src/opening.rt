//! Opens a file for an issuer.
ghost use Rattle.std.specs.Prelude.{◌≡◌, ◌≤◌, IsTrue, IfOk, IfErr, None};
ghost use Rattle.record_fields.specs.declared.versions.Version.TheVariants.{Two};
ghost use Rattle.ports.specs.Causes.{Rose};
ghost use Rattle.chain_disk.specs.OnDisk.{LeavesNow, LeavesOnly, synced};
ghost use Rattle.journal.specs.File.{IsNotBegun};
ghost use Rattle.journal.specs.Journal.{disk_of, stopped_of};
ghost use Rattle.shop_core.specs.File.Files.{StandsFor};
ghost use Rattle.chain_store.specs.Losing.{NeverLoses};
ghost use Rattle.chain_store.specs.Opening.{IsAtMostSynced, IsCreation, IsOnlySynced};
ghost use Rattle.chain_store.specs.Store.{Ready, clock_of, journal_of, state_of, torn_of};
ghost use Rattle.chain_store.specs.declared.causes.OpenCause.TheVariants as cause;
ghost use Rattle.recovery.specs.Opening.{IsFound, IsLeftUnopened};

use chain_disk::Disk;
use chain_store::{NotOpened, OpenCause, Opened, Store, open_journal};
use parties::Nif;
use ports::Clock;
use record_codec::Version;
use std::alloc::Global;

/// Why a file could not be opened, with what was handed in.
#[derive(Drop)]
pub struct OpenFault<D: Disk, C: Clock> {
    pub cause: OpenCause,
    pub disk: D,
    pub clock: C,
}

/// Opens the file of an issuer's chain, and begins it where it isn't begun. The clock isn't read. First the file is synced, so
/// that a crash leaves what is read. A new file is of version Two, and one of version One goes on as One. A damaged file and one
/// of another issuer are left as they are.
pub fn open_store<D: Disk, C: Clock>(
    alloc: Global,
    disk: D,
    clock: C,
    issuer: &Nif,
) -> Result<Store<D, C>, OpenFault<D, C>>
    ensures ready { IfOk result (λ store. Ready D.tells D.on_disk store) }
    ensures going_on { IfOk result (λ store. stopped_of (journal_of store) ≡ None) }
    ensures no_torn { IfOk result (λ store. torn_of store ≡ None) }
    ensures issuer { IfOk result (λ store. (state_of store).issuer ≡ issuer.now) }
    //= An opening gives what the file stands for, in its version, or begins it in version Two.
    //= No body: it is `open_journal`, whose bodies are in `chain_store`
    ensures found { IfOk result (λ store. IsTrue D.tells →
        IsFound (state_of store).version issuer.now (state_of store).entries (D.on_disk disk).content) }
    ensures every_crash { IfOk result (λ store. IsTrue D.tells →
        LeavesNow (D.on_disk (disk_of (journal_of store)))
        (StandsFor (state_of store).version issuer.now (state_of store).entries)) }

    // From its first sync on, a crash at any moment of the call leaves what was found.
    ensures any_moment { IfOk result (λ store. IsTrue D.tells →
        LeavesOnly (synced (D.on_disk disk)) (D.on_disk (disk_of (journal_of store)))
        (IsFound (state_of store).version issuer.now (state_of store).entries)) }

    // What was made sure of at any moment of the call stays, also as the disk was handed in.
    //= What was made sure of at any moment, also as the disk was handed in, stays.
    //= No body: it is `open_journal`
    ensures never_loses { IfOk result (λ store. IsTrue D.tells →
        NeverLoses (D.on_disk disk) (D.on_disk (disk_of (journal_of store)))) }
    ensures never_loses_err { IfErr result (λ fault. IsTrue D.tells → NeverLoses (D.on_disk disk) (D.on_disk fault.disk)) }

    // Nothing is written but a file's creation: of a file that is begun already the sync is all that is told.
    ensures unwritten { IfOk result (λ store. IsTrue D.tells →
        IsOnlySynced (D.on_disk disk) (D.on_disk (disk_of (journal_of store)))) }
    ensures created { IfOk result (λ store. IsTrue D.tells → IsNotBegun (D.on_disk disk).content →
        IsCreation Two issuer.now (synced (D.on_disk disk)) (D.on_disk (disk_of (journal_of store)))) }
    ensures unwritten_err { IfErr result (λ fault. IsTrue D.tells → IsAtMostSynced (D.on_disk disk) (D.on_disk fault.disk)) }
    ensures clock { IfOk result (λ store. clock_of store ≡ clock) }
    ensures later { IfOk result (λ store. D.faults disk ≤ D.faults (disk_of (journal_of store))) }

    // What the file is, by the cause, and what the calls of the disk left of it.
    //= A file that can't be opened is left as its first sync left it, with its cause: the damaged byte, the other
    //= issuer, or the disk's fault, where a file that wasn't begun may be begun in part.
    //= No body: it is `open_journal`
    ensures left { IfErr result (λ fault. IsTrue D.tells →
        IsLeftUnopened issuer.now fault.cause (D.on_disk disk) (D.on_disk fault.disk)) }
    ensures disk_fault { IfErr result (λ fault. fault.cause ≡ cause.DiskFault → Rose (D.faults disk) (D.faults fault.disk)) }
    ensures clock_err { IfErr result (λ fault. fault.clock ≡ clock) }
    ensures later_err { IfErr result (λ fault. D.faults disk ≤ D.faults fault.disk) }
{
    match open_journal(alloc, disk, issuer, Version::NEWEST) {
        Ok(Opened { state, journal }) => Ok(Store::of(state, journal, clock)),
        Err(NotOpened { cause, disk }) => Err(OpenFault { cause, disk, clock }),
    }
}
