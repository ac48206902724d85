//! Opens both files, and begins those that aren't begun.
ghost use Rattle.std.specs.Prelude.{◌≡◌, ◌<◌, ◌≤◌, IsTrue, IfErr, IfOk, MatchBool, length};
ghost use Rattle.ports.specs.Causes.{HasCause};
ghost use Rattle.chain_disk.specs.Disks.{this_disk};
ghost use Rattle.journal.specs.File.{IsNotBegun};
ghost use Rattle.second_disk.specs.Level.{BlamesHalf, IsNotLevel};
ghost use Rattle.second_disk.specs.Opened.{AreFound, GoTogether};

use crate::causes::{Half, LevelCause, opened_cause, started_cause};
use crate::levelling::NotLevel;
use chain_disk::Disk;
use chain_store::NotOpened;
use journal::{Header, a_file_has_one_header, read_header};
use parties::Nif;
use ports::Failed;
use record_codec::Version;
use shop_core::a_file_has_one_meaning;
use standby::{Standby, StandbyFault};
use std::alloc::Global;

/// Both files, opened.
#[derive(Drop)]
pub(crate) struct Both<D: Disk, M: Disk> {
    pub(crate) first: Standby<D>,
    pub(crate) second: Standby<M>,
}

// Whether a file isn't begun.
fn is_not_begun<D: Disk>(disk: &mut D) -> Result<bool, Failed>
    ensures is { IfOk result (λ is. IsTrue D.tells → MatchBool is (IsNotBegun (D.on_disk disk.old).content)
        (IsNotBegun (D.on_disk disk.old).content → ⊥)) }
    ensures same { D.on_disk disk.new ≡ D.on_disk disk.old }
    ensures cause { HasCause (D.faults disk.old) (D.faults disk.new) result }
{
    a_file_has_one_header();
    match read_header(disk)? {
        Header::NotBegun => Ok(true),
        _ => Ok(false),
    }
}

// Opens the first file, of either version, and then the second one in that version.
fn open_first<D: Disk, M: Disk>(
    alloc: Global,
    first: D,
    second: M,
    issuer: &Nif,
    created: Version,
) -> Result<Both<D, M>, NotLevel<D, M>>
    requires { IsTrue D.tells → IsTrue M.tells → IsNotBegun (D.on_disk first).content → IsNotBegun (M.on_disk second).content }
    ensures together { IfOk result (λ both. GoTogether issuer.now both.first both.second) }
    ensures found { IfOk result (λ both. IsTrue D.tells → IsTrue M.tells → AreFound created issuer.now
        (D.on_disk first) (M.on_disk second) (D.on_disk both.first.disk) (M.on_disk both.second.disk) both.first both.second) }
    ensures later { IfOk result (λ both. (D.faults first ≤ D.faults both.first.disk) × (M.faults second ≤ M.faults both.second.disk)) }
    ensures left { IfErr result (λ fault. IsTrue D.tells → IsTrue M.tells → IsNotLevel issuer.now fault.cause
        (D.on_disk first) (M.on_disk second) (D.on_disk fault.first) (M.on_disk fault.second)) }
    ensures later_err { IfErr result (λ fault. (D.faults first ≤ D.faults fault.first) × (M.faults second ≤ M.faults fault.second)) }
    ensures blames { IfErr result (λ fault. BlamesHalf (this_disk D.tells D.on_disk D.faults first fault.first)
        (this_disk M.tells M.on_disk M.faults second fault.second) fault.cause) }
{
    a_file_has_one_meaning();
    match Standby::open(alloc, first, issuer, created) {
        Err(NotOpened { cause, disk }) => Err(NotLevel {
            cause: opened_cause(Half::First, cause),
            first: disk,
            second,
        }),
        Ok(first) => match Standby::start(alloc, second, issuer, first.state().version()) {
            Err(StandbyFault { cause, disk }) => Err(NotLevel {
                cause: started_cause(Half::Second, cause),
                first: first.into_disk(),
                second: disk,
            }),
            Ok(second) => Ok(Both { first, second }),
        },
    }
}

// Opens the second file, and where it has no entry begins the first one in its version.
fn open_second<D: Disk, M: Disk>(
    alloc: Global,
    first: D,
    second: M,
    issuer: &Nif,
    created: Version,
) -> Result<Both<D, M>, NotLevel<D, M>>
    requires first { IsTrue D.tells → IsNotBegun (D.on_disk first).content }
    requires second { IsTrue M.tells → IsNotBegun (M.on_disk second).content → ⊥ }
    ensures together { IfOk result (λ both. GoTogether issuer.now both.first both.second) }
    ensures found { IfOk result (λ both. IsTrue D.tells → IsTrue M.tells → AreFound created issuer.now
        (D.on_disk first) (M.on_disk second) (D.on_disk both.first.disk) (M.on_disk both.second.disk) both.first both.second) }
    ensures later { IfOk result (λ both. (D.faults first ≤ D.faults both.first.disk) × (M.faults second ≤ M.faults both.second.disk)) }
    ensures left { IfErr result (λ fault. IsTrue D.tells → IsTrue M.tells → IsNotLevel issuer.now fault.cause
        (D.on_disk first) (M.on_disk second) (D.on_disk fault.first) (M.on_disk fault.second)) }
    ensures later_err { IfErr result (λ fault. (D.faults first ≤ D.faults fault.first) × (M.faults second ≤ M.faults fault.second)) }
    ensures blames { IfErr result (λ fault. BlamesHalf (this_disk D.tells D.on_disk D.faults first fault.first)
        (this_disk M.tells M.on_disk M.faults second fault.second) fault.cause) }
{
    a_file_has_one_meaning();
    match Standby::open(alloc, second, issuer, created) {
        Err(NotOpened { cause, disk }) => Err(NotLevel {
            cause: opened_cause(Half::Second, cause),
            first,
            second: disk,
        }),
        Ok(second) => {
            if second.state().entries() > 0 {
                return Err(NotLevel {
                    cause: LevelCause::NotBegun,
                    first,
                    second: second.into_disk(),
                });
            }
            match Standby::start(alloc, first, issuer, second.state().version()) {
                Err(StandbyFault { cause, disk }) => Err(NotLevel {
                    cause: started_cause(Half::First, cause),
                    first: disk,
                    second: second.into_disk(),
                }),
                Ok(first) => Ok(Both { first, second }),
            }
        }
    }
}

// Opens both, and begins those that aren't begun: the first file before the second one, but where the second one alone is begun.
pub(crate) fn open_both<D: Disk, M: Disk>(
    alloc: Global,
    first: D,
    second: M,
    issuer: &Nif,
    created: Version,
) -> Result<Both<D, M>, NotLevel<D, M>>
    ensures together { IfOk result (λ both. GoTogether issuer.now both.first both.second) }
    ensures found { IfOk result (λ both. IsTrue D.tells → IsTrue M.tells → AreFound created issuer.now
        (D.on_disk first) (M.on_disk second) (D.on_disk both.first.disk) (M.on_disk both.second.disk) both.first both.second) }
    ensures later { IfOk result (λ both. (D.faults first ≤ D.faults both.first.disk) × (M.faults second ≤ M.faults both.second.disk)) }
    ensures left { IfErr result (λ fault. IsTrue D.tells → IsTrue M.tells → IsNotLevel issuer.now fault.cause
        (D.on_disk first) (M.on_disk second) (D.on_disk fault.first) (M.on_disk fault.second)) }
    ensures later_err { IfErr result (λ fault. (D.faults first ≤ D.faults fault.first) × (M.faults second ≤ M.faults fault.second)) }
    ensures blames { IfErr result (λ fault. BlamesHalf (this_disk D.tells D.on_disk D.faults first fault.first)
        (this_disk M.tells M.on_disk M.faults second fault.second) fault.cause) }
{
    let mut first = first;
    let mut second = second;
    let Ok(first_is_new) = is_not_begun(&mut first) else {
        let cause = LevelCause::DiskFault { half: Half::First };
        return Err(NotLevel {
            cause,
            first,
            second,
        });
    };
    let Ok(second_is_new) = is_not_begun(&mut second) else {
        let cause = LevelCause::DiskFault { half: Half::Second };
        return Err(NotLevel {
            cause,
            first,
            second,
        });
    };
    if first_is_new && !second_is_new {
        return open_second(alloc, first, second, issuer, created);
    }
    open_first(alloc, first, second, issuer, created)
}
