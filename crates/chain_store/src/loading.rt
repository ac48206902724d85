//! The history that a file stands for.
ghost use Rattle.std.specs.Prelude.{◌≡◌, ◌≤◌, ℕ, IsTrue, IfOk, IsErrOf};
ghost use Rattle.ports.specs.Causes.{Rose};
ghost use Rattle.shop_core.specs.File.Files.{IsDamagedFile};
ghost use Rattle.chain_store.specs.Loading.{HasNearGate, IsLoaded};

use crate::LoadFault;
use chain_disk::Disk;
use shop_core::{FileRead, ReadFault, State, a_broken_file_is_damaged, read_file};
use std::alloc::Global;

/// What a sound file holds.
#[derive(Drop)]
pub enum Loaded {
    /// No header.
    NotBegun,
    /// The legal history that the file stands for: its issuer and its version are the state's. The closing gate is at the byte
    /// `end`.
    Begun { state: State, end: u64 },
}

/// Loads what a file stands for. It writes nothing.
pub fn load<D: Disk>(alloc: Global, disk: &mut D) -> Result<Loaded, LoadFault>
    //= What is loaded of a file that stands for a history is that, with its version and the byte of its closing gate;
    //= nothing only where the file isn't begun.
    //= No body: it is `read_file`, which has one
    ensures content { IfOk result (λ loaded. IsTrue D.tells → IsLoaded (D.on_disk disk.old).content loaded) }
    ensures near { IfOk result HasNearGate }
    //= `Damaged` names the byte at which the file is damaged.
    //= No body: it is `read_file`, which has one
    ensures damaged { (at : ℕ) → IsErrOf result (LoadFault.Damaged at) → IsTrue D.tells →
        IsDamagedFile (D.on_disk disk.old).content at }
    ensures fault { IsErrOf result LoadFault.DiskFault → Rose (D.faults disk.old) (D.faults disk.new) }
    ensures same { D.on_disk disk.new ≡ D.on_disk disk.old }
    ensures later { D.faults disk.old ≤ D.faults disk.new }
{
    a_broken_file_is_damaged();
    match read_file(alloc, disk) {
        Err(ReadFault::DiskFault) => Err(LoadFault::DiskFault),
        Err(ReadFault::NoMemory) => Err(LoadFault::NoMemory),
        Ok(FileRead::NotBegun) => Ok(Loaded::NotBegun),
        Ok(FileRead::Sound { state, end }) => Ok(Loaded::Begun { state, end }),
        Ok(FileRead::Broken { at, .. }) => Err(LoadFault::Damaged { at }),
    }
}
