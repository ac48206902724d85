//! Brings two files level.
ghost use Rattle.std.specs.Prelude.{◌≡◌, ◌≤◌, List, IsTrue, IfErr, IfOk, OnOk, None};
ghost use Rattle.chain_disk.specs.Disks.{this_disk};
ghost use Rattle.chain_disk.specs.Memory.{fresh};
ghost use Rattle.mirror_disk.specs.Mirror.{told};
ghost use Rattle.mirror_disk.specs.declared.standing.Standing.TheVariants.{Whole};
ghost use Rattle.record_codec.specs.declared.entry.Entry.{Entry as AnyEntry};
ghost use Rattle.second_disk.specs.Causes as spec;
ghost use Rattle.second_disk.specs.Level.{BlamesHalf, IsLevel, IsNotLevel};
ghost use Rattle.second_disk.specs.Opened.{ComeUp, HaveOne, IsMirrored, IsStopped, IsUnmirrored};

use crate::causes::{Half, LevelCause, tail_cause};
use crate::opening::{Both, open_both};
use chain_disk::Disk;
use journal::{StoreFault, make_tails_equal};
use mirror_disk::MirrorDisk;
use parties::Nif;
use record_codec::Version;
use shop_core::a_file_has_one_meaning;
use standby::{Standby, catch_up, first_apart};
use std::alloc::Global;

/// Why two files were not brought level, with their disks.
#[derive(Drop)]
pub struct NotLevel<D: Disk, M: Disk> {
    pub cause: LevelCause,
    pub first: D,
    pub second: M,
}

// A fault of bringing this file up.
fn store_cause(half: Half, fault: StoreFault) -> LevelCause
    ensures { result ≡ spec.store_cause half fault }
{
    match fault {
        StoreFault::NoMemory => LevelCause::NoMemory,
        _ => LevelCause::DiskFault { half },
    }
}

// Brings the second file up to the first one, or the first one up by the one entry that only the second one has.
fn bring_up<D: Disk, M: Disk>(
    alloc: Global,
    first: &mut Standby<D>,
    second: &mut Standby<M>,
) -> Result<(), LevelCause>
    requires issuer { second.old.history.issuer ≡ first.old.history.issuer }
    requires version { second.old.history.version ≡ first.old.history.version }
    requires first { first.old.stopped ≡ None }
    requires second { second.old.stopped ≡ None }
    ensures ok { OnOk result ((entries : List AnyEntry)
        × ComeUp D.tells D.on_disk M.tells M.on_disk first.old first.new second.old second.new entries entries
        × HaveOne first.new second.new entries) }
    ensures stops { IfErr result (λ cause.
        IsStopped D.tells D.on_disk M.tells M.on_disk first.old first.new second.old second.new cause) }
    ensures later { (D.faults first.old.disk ≤ D.faults first.new.disk) × (M.faults second.old.disk ≤ M.faults second.new.disk) }
    ensures blames { IfErr result (λ cause. BlamesHalf (this_disk D.tells D.on_disk D.faults first.old.disk first.new.disk)
        (this_disk M.tells M.on_disk M.faults second.old.disk second.new.disk) cause) }
{
    a_file_has_one_meaning();
    first.is_sound();
    second.is_sound();
    let held = first.state().entries();
    let others = second.state().entries();
    let Ok(found) = first_apart(alloc, first.state(), second.state()) else {
        return Err(LevelCause::NoMemory);
    };
    match found {
        None => match catch_up(alloc, first.state(), second) {
            Ok(_) => Ok(()),
            Err(fault) => Err(store_cause(Half::Second, fault)),
        },
        Some(entry) if entry < held => Err(LevelCause::Differs { entry }),
        Some(entry) if entry + 1 < others => Err(LevelCause::Ahead { entry }),
        Some(_) => match catch_up(alloc, second.state(), first) {
            Ok(_) => Ok(()),
            Err(fault) => Err(store_cause(Half::First, fault)),
        },
    }
}

// The mirror of two files that stand for one history.
fn mirror_of<D: Disk, M: Disk>(
    first: Standby<D>,
    second: Standby<M>,
) -> Result<MirrorDisk<D, M>, NotLevel<D, M>>
    requires alike { D.tells ≡ M.tells }
    requires first { first.stopped ≡ None }
    requires second { second.stopped ≡ None }
    requires issuer { second.history.issuer ≡ first.history.issuer }
    requires version { second.history.version ≡ first.history.version }
    requires entries { second.history.entries ≡ first.history.entries }
    ensures mirrored { IfOk result (λ mirror. IsTrue D.tells → IsTrue M.tells →
        IsMirrored first.history (D.on_disk first.disk) (M.on_disk second.disk) (D.on_disk mirror.first) (M.on_disk mirror.second)) }
    ensures told { IfOk result (λ mirror. IsTrue D.tells →
        told D.on_disk M.on_disk mirror ≡ fresh (D.on_disk mirror.first).content) }
    ensures made { IfOk result (λ mirror. (mirror.standing ≡ Whole) × (mirror.first_made ≡ mirror.first)
        × (mirror.second_made ≡ mirror.second)) }
    ensures left { IfErr result (λ fault. IsTrue D.tells → IsTrue M.tells →
        IsUnmirrored first.history fault.cause (D.on_disk first.disk) (M.on_disk second.disk)
        (D.on_disk fault.first) (M.on_disk fault.second)) }
    ensures later_err { IfErr result (λ fault. (D.faults first.disk ≤ D.faults fault.first)
        × (M.faults second.disk ≤ M.faults fault.second)) }
    ensures blames { IfErr result (λ fault. BlamesHalf (this_disk D.tells D.on_disk D.faults first.disk fault.first)
        (this_disk M.tells M.on_disk M.faults second.disk fault.second) fault.cause) }
{
    first.is_sound();
    second.is_sound();
    let gate = first.gate();
    let _few = first.state().entries();
    let mut first = first.into_disk();
    let mut second = second.into_disk();
    match make_tails_equal(&mut first, &mut second, gate) {
        Ok(()) => Ok(MirrorDisk::of(first, second)),
        Err(fault) => Err(NotLevel {
            cause: tail_cause(fault),
            first,
            second,
        }),
    }
}

/// Brings two files of this issuer's chain level, and makes a mirror of them. The second file is brought up to the first one; where
/// it has exactly one entry more, which a power cut may leave, the first one is brought up by that. What isn't begun is begun: in
/// the version of the other file, or in this one where neither is begun. Whatever else the two hold is refused, and stays as it is.
pub fn level<D: Disk, M: Disk>(
    alloc: Global,
    first: D,
    second: M,
    issuer: &Nif,
    created: Version,
) -> Result<MirrorDisk<D, M>, NotLevel<D, M>>
    requires alike { D.tells ≡ M.tells }
    ensures level { IfOk result (λ mirror. IsTrue D.tells → IsTrue M.tells → IsLevel created issuer.now
        (D.on_disk first) (M.on_disk second) (D.on_disk mirror.first) (M.on_disk mirror.second)) }

    // The mirror tells what both halves hold, at moment 0, with nothing pending.
    ensures told { IfOk result (λ mirror. IsTrue D.tells →
        told D.on_disk M.on_disk mirror ≡ fresh (D.on_disk mirror.first).content) }
    ensures made { IfOk result (λ mirror. (mirror.standing ≡ Whole) × (mirror.first_made ≡ mirror.first)
        × (mirror.second_made ≡ mirror.second)) }
    ensures left { IfErr result (λ fault. IsTrue D.tells → IsTrue M.tells → IsNotLevel issuer.now fault.cause
        (D.on_disk first) (M.on_disk second) (D.on_disk fault.first) (M.on_disk fault.second)) }
    ensures later_err { IfErr result (λ fault. (D.faults first ≤ D.faults fault.first) × (M.faults second ≤ M.faults fault.second)) }
    ensures blames { IfErr result (λ fault. BlamesHalf (this_disk D.tells D.on_disk D.faults first fault.first)
        (this_disk M.tells M.on_disk M.faults second fault.second) fault.cause) }
{
    let Both {
        mut first,
        mut second,
    } = open_both(alloc, first, second, issuer, created)?;
    match bring_up(alloc, &mut first, &mut second) {
        Ok(()) => mirror_of(first, second),
        Err(cause) => Err(NotLevel {
            cause,
            first: first.into_disk(),
            second: second.into_disk(),
        }),
    }
}
