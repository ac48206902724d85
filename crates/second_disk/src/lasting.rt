//! What levelling is for.
ghost use Rattle.std.specs.Prelude.{IsTrue};
ghost use Rattle.chain_disk.specs.Memory.{fresh};
ghost use Rattle.mirror_disk.specs.Mirror.{told};
ghost use Rattle.second_disk.specs.Lasting.{GoesOnAs};

use chain_disk::Disk;
use mirror_disk::MirrorDisk;

/// The law that joins levelling to what its mirror goes through after it: the history that crashes leave of the mirror they leave of
/// either half, whatever became of the other one. It does nothing.
pub fn each_half_goes_on<D: Disk, M: Disk>(mirror: &MirrorDisk<D, M>)
    ensures first { IsTrue D.tells → GoesOnAs (fresh (D.on_disk mirror.now.first_made).content)
        (D.on_disk mirror.now.first_made) (D.on_disk mirror.now.first) (told D.on_disk M.on_disk mirror.now) }
    ensures second { IsTrue M.tells → GoesOnAs (fresh (D.on_disk mirror.now.first_made).content)
        (M.on_disk mirror.now.second_made) (M.on_disk mirror.now.second) (told D.on_disk M.on_disk mirror.now) }
{
    mirror.each_half_is_an_image();
}
