//! Opens a file for an issuer: its history and its journal.
ghost use Rattle.std.specs.Prelude.{◌≡◌, ◌≢◌, ◌≤◌, [], IsTrue, IfOk, IfErr, None};
ghost use Rattle.ports.specs.Causes.{Rose};
ghost use Rattle.chain_disk.specs.OnDisk.{IsSettled, LeavesNow, LeavesOnly, synced};
ghost use Rattle.journal.specs.File.{IsNotBegun};
ghost use Rattle.journal.specs.Journal.{disk_of, end_of, stopped_of};
ghost use Rattle.shop_core.specs.File.Files.{StandsFor, furthest_gate};
ghost use Rattle.chain_store.specs.Loading.{IsLoaded};
ghost use Rattle.chain_store.specs.Losing.{NeverLoses};
ghost use Rattle.chain_store.specs.Opening.{IsAtMostSynced, IsBegunInPart, IsCreation, IsFound, IsLeftUnopened, IsOnlySynced};
ghost use Rattle.chain_store.specs.Ready.{IsReady};
ghost use Rattle.chain_store.specs.declared.causes.OpenCause.TheVariants as cause;
ghost use Rattle.chain_store.specs.declared.loading.Loaded.TheVariants.{Begun};

use crate::causes::OpenCause;
use crate::loading::{Loaded, load};
use chain_disk::Disk;
use journal::{Journal, Lost, a_file_not_begun_is_no_chain, a_file_stands_for_one_chain};
use parties::Nif;
use record_codec::{Version, encodings_are_apart};
use shop_core::State;
use std::alloc::Global;

/// A file of an issuer's chain: the history that it stands for, and its journal, which goes on.
#[derive(Drop)]
pub struct Opened<D: Disk> {
    pub state: State,
    pub journal: Journal<D>,
}

/// Why a file could not be opened, with its disk.
#[derive(Drop)]
pub struct NotOpened<D: Disk> {
    pub cause: OpenCause,
    pub disk: D,
}

/// Opens the file of an issuer's chain, of either version, and begins it in this version where it isn't begun. First the file is
/// synced, so that a crash leaves what is read. A damaged file and one of another issuer are left as they are.
pub fn open_journal<D: Disk>(
    alloc: Global,
    disk: D,
    issuer: &Nif,
    created: Version,
) -> Result<Opened<D>, NotOpened<D>>
    ensures ready { IfOk result (λ opened.
        IsReady D.tells opened.state None (end_of opened.journal) (D.on_disk (disk_of opened.journal))) }
    ensures going_on { IfOk result (λ opened. stopped_of opened.journal ≡ None) }
    ensures issuer { IfOk result (λ opened. opened.state.issuer ≡ issuer.now) }
    //= An opening gives the history that the file stands for, in its version, or begins a file.
    //= No body: it is `load` and `Journal::create`
    ensures found { IfOk result (λ opened. IsTrue D.tells →
        IsFound created opened.state.version issuer.now opened.state.entries (D.on_disk disk).content) }
    ensures every_crash { IfOk result (λ opened. IsTrue D.tells →
        LeavesNow (D.on_disk (disk_of opened.journal)) (StandsFor opened.state.version issuer.now opened.state.entries)) }

    // From its first sync on, a crash at any moment of the call leaves what was found.
    //= From its first sync on each crash leaves what was found.
    ensures any_moment { IfOk result (λ opened. IsTrue D.tells →
        LeavesOnly (synced (D.on_disk disk)) (D.on_disk (disk_of opened.journal))
        (IsFound created opened.state.version issuer.now opened.state.entries)) }

    // What was made sure of at any moment of the call stays, also as the disk was handed in.
    ensures never_loses { IfOk result (λ opened. IsTrue D.tells →
        NeverLoses (D.on_disk disk) (D.on_disk (disk_of opened.journal))) }
    ensures never_loses_err { IfErr result (λ fault. IsTrue D.tells → NeverLoses (D.on_disk disk) (D.on_disk fault.disk)) }

    // Nothing is written but a file's creation: of a file that is begun already the sync is all that is told.
    //= Of a file that was begun nothing is written: the disk is what that sync leaves.
    ensures unwritten { IfOk result (λ opened. IsTrue D.tells →
        IsOnlySynced (D.on_disk disk) (D.on_disk (disk_of opened.journal))) }
    //= A file that wasn't begun has its twenty bytes, by no more writes and syncs than a creation takes.
    ensures created { IfOk result (λ opened. IsTrue D.tells → IsNotBegun (D.on_disk disk).content →
        IsCreation created issuer.now (synced (D.on_disk disk)) (D.on_disk (disk_of opened.journal))) }
    ensures unwritten_err { IfErr result (λ fault. IsTrue D.tells → IsAtMostSynced (D.on_disk disk) (D.on_disk fault.disk)) }
    ensures later { IfOk result (λ opened. D.faults disk ≤ D.faults (disk_of opened.journal)) }

    // What the file is, by the cause, and what the calls of the disk left of it.
    ensures left { IfErr result (λ fault. IsTrue D.tells →
        IsLeftUnopened created issuer.now fault.cause (D.on_disk disk) (D.on_disk fault.disk)) }
    ensures disk_fault { IfErr result (λ fault. fault.cause ≡ cause.DiskFault → Rose (D.faults disk) (D.faults fault.disk)) }
    ensures later_err { IfErr result (λ fault. D.faults disk ≤ D.faults fault.disk) }
{
    a_file_not_begun_is_no_chain();
    let mut disk = disk;
    let Ok(()) = disk.sync() else {
        return Err(NotOpened {
            cause: OpenCause::DiskFault,
            disk,
        });
    };
    match load(alloc, &mut disk) {
        Err(fault) => Err(NotOpened {
            cause: OpenCause::from(fault),
            disk,
        }),
        Ok(Loaded::NotBegun) => begin(alloc, disk, issuer, created),
        Ok(Loaded::Begun { state, end }) => open_held(disk, issuer, created, state, end),
    }
}

// The journal of a file that stands for this history of this issuer.
fn open_held<D: Disk>(
    disk: D,
    issuer: &Nif,
    created: Version,
    state: State,
    end: u64,
) -> Result<Opened<D>, NotOpened<D>>
    requires near { end ≤ furthest_gate state.entries }
    requires holds { IsTrue D.tells → IsLoaded (D.on_disk disk).content (Begun state end) × IsSettled (D.on_disk disk) }
    ensures ready { IfOk result (λ opened.
        IsReady D.tells opened.state None (end_of opened.journal) (D.on_disk (disk_of opened.journal))) }
    ensures going_on { IfOk result (λ opened. stopped_of opened.journal ≡ None) }
    ensures same { IfOk result (λ opened. (state.issuer ≡ issuer.now) × (opened.state ≡ state)
        × (disk_of opened.journal ≡ disk)) }
    ensures every_crash { IfOk result (λ opened. IsTrue D.tells →
        LeavesNow (D.on_disk (disk_of opened.journal)) (StandsFor opened.state.version issuer.now opened.state.entries)) }
    ensures any_moment { IfOk result (λ opened. IsTrue D.tells →
        LeavesOnly (D.on_disk disk) (D.on_disk (disk_of opened.journal))
        (IsFound created opened.state.version issuer.now opened.state.entries)) }
    ensures other { IfErr result (λ fault. (fault.cause ≡ cause.OtherIssuer state.issuer) × (state.issuer ≢ issuer.now)
        × (fault.disk ≡ disk)) }
{
    let held = *state.issuer();
    if held != *issuer {
        return Err(NotOpened {
            cause: OpenCause::OtherIssuer { held },
            disk,
        });
    }
    state.is_legal();
    Ok(Opened {
        state,
        journal: Journal::at(disk, end),
    })
}

// The journal of a file that isn't begun, which begins it.
fn begin<D: Disk>(
    alloc: Global,
    disk: D,
    issuer: &Nif,
    created: Version,
) -> Result<Opened<D>, NotOpened<D>>
    requires { IsTrue D.tells → IsNotBegun (D.on_disk disk).content × IsSettled (D.on_disk disk) }
    ensures ready { IfOk result (λ opened.
        IsReady D.tells opened.state None (end_of opened.journal) (D.on_disk (disk_of opened.journal))) }
    ensures going_on { IfOk result (λ opened. stopped_of opened.journal ≡ None) }
    ensures empty { IfOk result (λ opened. (opened.state.issuer ≡ issuer.now) × (opened.state.version ≡ created)
        × (opened.state.entries ≡ [])) }
    ensures every_crash { IfOk result (λ opened. IsTrue D.tells →
        LeavesNow (D.on_disk (disk_of opened.journal)) (StandsFor opened.state.version issuer.now opened.state.entries)) }
    ensures any_moment { IfOk result (λ opened. IsTrue D.tells →
        LeavesOnly (D.on_disk disk) (D.on_disk (disk_of opened.journal))
        (IsFound created opened.state.version issuer.now opened.state.entries)) }
    ensures never_loses { IfOk result (λ opened. IsTrue D.tells →
        NeverLoses (D.on_disk disk) (D.on_disk (disk_of opened.journal))) }
    ensures never_loses_err { IfErr result (λ fault. IsTrue D.tells → NeverLoses (D.on_disk disk) (D.on_disk fault.disk)) }
    ensures created { IfOk result (λ opened. IsTrue D.tells →
        IsCreation created issuer.now (D.on_disk disk) (D.on_disk (disk_of opened.journal))) }
    ensures in_part { IfErr result (λ fault. IsTrue D.tells →
        IsBegunInPart created issuer.now (D.on_disk disk) (D.on_disk fault.disk)) }
    ensures lost { IfErr result (λ fault. (fault.cause ≡ cause.DiskFault) × Rose (D.faults disk) (D.faults fault.disk)) }
    ensures later { IfOk result (λ opened. D.faults disk ≤ D.faults (disk_of opened.journal)) }
    ensures later_err { IfErr result (λ fault. D.faults disk ≤ D.faults fault.disk) }
{
    a_file_stands_for_one_chain();
    a_file_not_begun_is_no_chain();
    encodings_are_apart();
    let state = State::empty(alloc, issuer, created);
    state.is_legal();
    match Journal::create(disk, issuer, created) {
        Ok(journal) => Ok(Opened { state, journal }),
        Err(Lost { disk }) => Err(NotOpened {
            cause: OpenCause::DiskFault,
            disk,
        }),
    }
}
