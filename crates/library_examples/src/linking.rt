//! The link of an invoice, from the file.
ghost use Rattle.std.specs.Prelude.{◌≡◌, ℕ, IfOk, IsErrOf, IsTrue};
ghost use Rattle.ports.specs.Causes.{Rose};
ghost use Rattle.shop_core.specs.File.Files.{IsDamagedFile};
ghost use Rattle.library_examples.specs.Linking.{IsLinkIn, link_in};

use chain_disk::Disk;
use chain_store::{LoadFault, Loaded, load};
use ports::NoMemory;
use record_fields::{Record, Text};
use series::NumSerie;
use shop_core::State;
use std::alloc::Global;
use verify_link::{Host, link_of};

/// The link of the invoice of this number, as its last alta says it; None where the chain has none. The file is only read.
pub fn link_of_a_sale<D: Disk>(
    alloc: Global,
    disk: &mut D,
    num: &NumSerie,
    host: Host,
) -> Result<Option<Text>, LoadFault>
    //= The link of a sale is that of the last alta of its number, or none where there is none.
    //= No body: it is `load` and `link_of`
    ensures link { IfOk result (λ found. IsTrue D.tells → IsLinkIn (D.on_disk disk.old).content num.now host found) }
    ensures damaged { (at : ℕ) → IsErrOf result (LoadFault.Damaged at) → IsTrue D.tells →
        IsDamagedFile (D.on_disk disk.old).content at }
    ensures fault { IsErrOf result LoadFault.DiskFault → Rose (D.faults disk.old) (D.faults disk.new) }
    ensures same { D.on_disk disk.new ≡ D.on_disk disk.old }
{
    match load(alloc, disk)? {
        Loaded::NotBegun => Ok(None),
        Loaded::Begun { state, .. } => match link_at(alloc, &state, num, host) {
            Ok(found) => Ok(found),
            Err(NoMemory) => Err(LoadFault::NoMemory),
        },
    }
}

// The link in a history.
fn link_at(
    alloc: Global,
    state: &State,
    num: &NumSerie,
    host: Host,
) -> Result<Option<Text>, NoMemory>
    ensures { IfOk result (λ found. found ≡ link_in state.now.entries num.now host) }
{
    let Some(sealed) = state.last_alta(alloc, num)? else {
        return Ok(None);
    };
    let Record::Alta(alta) = &sealed.body else {
        return Ok(None);
    };
    Ok(Some(link_of(alloc, alta, host)?))
}
