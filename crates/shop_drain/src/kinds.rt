//! What all disks and all agencies of a kind have.
ghost use Rattle.std.specs.Prelude.{IsTrue};
ghost use Rattle.chain_disk.specs.OnDisk.{IsImage};

use agency_port::Agency;
use chain_disk::Disk;

/// An agency that keeps its rules tells its lists.
pub fn who_keeps_the_rules_tells<G: Agency>()
    ensures { IsTrue G.keeps_rules → IsTrue G.tells }
{}

/// A disk as it reads is one of its images of now.
pub fn what_a_disk_reads_is_an_image<D: Disk>()
    ensures { (disk : _) → IsTrue D.tells → IsImage (D.on_disk disk).now (D.on_disk disk).content }
{}
