//! The mirror.
ghost use Rattle.std.specs.Prelude.{◌≡◌, ◌≤◌, ◌↔◌, IsTrue, IsErr, IfOk, OnOk, OnErr, length};
ghost use Rattle.ports.specs.Causes.{HasCause};
ghost use Rattle.chain_disk.specs.Disks.{this_disk};
ghost use Rattle.chain_disk.specs.Memory.{fresh};
ghost use Rattle.chain_disk.specs.OnDisk.{IsRead, IsSettled, IsSyncFailed, IsWriteFailed, synced, written};
ghost use Rattle.mirror_disk.specs.Calls.{IsReadBy, IsUntouched, SyncsBoth, WritesBoth};
ghost use Rattle.mirror_disk.specs.Halves.{IsHalf, IsSame};
ghost use Rattle.mirror_disk.specs.Mirror.{Mirrored, both_tell, faults_of, told};
ghost use Rattle.mirror_disk.specs.declared.standing.Standing.TheVariants.{Whole};

use crate::Standing;
use crate::halves::{answer, raise, sync_both, write_both};
use chain_disk::Disk;
use ports::Failed;
use std::marker::Model;
use std::snapshot::Snapshot;

/// Two disks that hold the same, as one. It tells of the moments since it was made.
///
/// A write or sync goes to the first half and then to the second, and is Ok where both are. Once one of them failed the mirror is
/// broken for good: further writes and syncs touch neither half and fail. Reads go to the first half, also of a broken mirror.
#[derive(Drop)]
pub struct MirrorDisk<D: Disk, M: Disk> {
    first: D,
    second: M,
    // Both as they were when the mirror was made.
    first_made: Snapshot<D>,
    second_made: Snapshot<M>,
    standing: Standing,
    faults: u64,
}

impl<D: Disk, M: Disk> Model for MirrorDisk<D, M> {
    ghost use Rattle.mirror_disk.specs.Mirror.{Mirrored};
    ghost use Rattle.mirror_disk.specs.Halves.{IsMirror};

    ghost Value = { Mirrored D M };

    ghost view = { λ m. record {
      first = m.first;
      second = m.second;
      first_made = m.first_made.value;
      second_made = m.second_made.value;
      standing = m.standing;
      faults = m.faults;
    } };

    ghost invariant = { λ m. IsMirror D.tells D.on_disk M.tells M.on_disk (record {
      first = m.first;
      second = m.second;
      first_made = m.first_made.value;
      second_made = m.second_made.value;
      standing = m.standing;
      faults = m.faults;
    }) };
}

impl<D: Disk, M: Disk> MirrorDisk<D, M> {
    /// A mirror of these halves. Where they tell, both hold the same and nothing is pending.
    pub fn of(first: D, second: M) -> MirrorDisk<D, M>
        requires alike { D.tells ≡ M.tells }
        requires first { IsTrue D.tells → IsSettled (D.on_disk first) }
        requires second { IsTrue M.tells → IsSettled (M.on_disk second) }
        requires content { IsTrue D.tells → (M.on_disk second).content ≡ (D.on_disk first).content }
        ensures made { result ≡ record {
          first = first;
          second = second;
          first_made = first;
          second_made = second;
          standing = Whole;
          faults = 0;
        } }
        ensures told { IsTrue D.tells → told D.on_disk M.on_disk result ≡ fresh (D.on_disk first).content }
    {
        let first_made = Snapshot::of(&first);
        let second_made = Snapshot::of(&second);
        MirrorDisk {
            first,
            second,
            first_made,
            second_made,
            standing: Standing::Whole,
            faults: 0,
        }
    }

    /// How it stands.
    pub fn standing(&self) -> Standing
        ensures { result ≡ self.now.standing }
    {
        self.standing
    }

    /// The first half.
    pub fn first(&self) -> &D
        ensures { result.now ≡ self.now.first }
    {
        &self.first
    }

    /// The second half.
    pub fn second(&self) -> &M
        ensures { result.now ≡ self.now.second }
    {
        &self.second
    }

    /// Gives both halves, whole or broken.
    pub fn halves(self) -> (D, M)
        ensures first { result.0 ≡ self.first }
        ensures second { result.1 ≡ self.second }
    {
        let MirrorDisk {
            first,
            second,
            first_made: _,
            second_made: _,
            standing: _,
            faults: _,
        } = self;
        (first, second)
    }

    /// The law that a mirror is for. At each moment since it was made, what a crash may leave of either half is what a crash at
    /// some moment since then may leave of the mirror; a crash now, what one now or at the moment before may leave. While it is
    /// whole, and broken or whole where nothing is pending on it, both halves read as it does and the same is pending.
    pub fn each_half_is_an_image(&self)
        ensures alike { D.tells ≡ M.tells }
        ensures first { IsTrue D.tells →
            IsHalf (D.on_disk self.now.first_made) (D.on_disk self.now.first) (told D.on_disk M.on_disk self.now) }
        ensures second { IsTrue M.tells →
            IsHalf (M.on_disk self.now.second_made) (M.on_disk self.now.second) (told D.on_disk M.on_disk self.now) }
        ensures first_whole { IsTrue D.tells → self.now.standing ≡ Whole →
            IsSame (D.on_disk self.now.first) (told D.on_disk M.on_disk self.now) }
        ensures second_whole { IsTrue M.tells → self.now.standing ≡ Whole →
            IsSame (M.on_disk self.now.second) (told D.on_disk M.on_disk self.now) }
    {
        let _standing = self.standing;
    }
}

impl<D: Disk, M: Disk> Disk for MirrorDisk<D, M> {
    ghost use Rattle.std.proofs.Common.{arith};
    ghost use Rattle.mirror_disk.specs.Reads.{few, reads};

    ghost tells = { both_tell D.tells M.tells };

    ghost on_disk = { told D.on_disk M.on_disk };

    ghost faults = { faults_of };

    ghost reads_an_image = { λ m tells. reads D.tells D.on_disk M.tells M.on_disk D.reads_an_image M.reads_an_image m tells };

    ghost few_faults = { λ m. few m };

    fn len(&mut self) -> Result<u64, Failed>
        ensures same { told D.on_disk M.on_disk self.new ≡ told D.on_disk M.on_disk self.old }
        ensures length { IfOk result (λ n. IsTrue (both_tell D.tells M.tells) →
            n ≡ length (told D.on_disk M.on_disk self.old).content) }
        ensures cause { HasCause (faults_of self.old) (faults_of self.new) result }
        ensures read { IsReadBy D.on_disk D.faults self.old self.new result }
    {
        match self.first.len() {
            Ok(n) => Ok(n),
            Err(_) => Err(raise(&mut self.faults)),
        }
    }

    fn read_at(&mut self, at: u64, buf: &mut [u8]) -> Result<usize, Failed>
        ensures same { told D.on_disk M.on_disk self.new ≡ told D.on_disk M.on_disk self.old }
        ensures fits { IfOk result (λ n. n ≤ length buf.old) }
        ensures bytes { IfOk result (λ n. IsTrue (both_tell D.tells M.tells) →
            IsRead (told D.on_disk M.on_disk self.old).content at n buf.old buf.new) }
        ensures cause { HasCause (faults_of self.old) (faults_of self.new) result }
        //= A mirror is read from its first half.
        ensures read { IsReadBy D.on_disk D.faults self.old self.new result }
    {
        match self.first.read_at(at, buf) {
            Ok(n) => Ok(n),
            Err(_) => Err(raise(&mut self.faults)),
        }
    }

    fn write_at(&mut self, at: u64, bytes: &[u8]) -> Result<(), Failed>
        requires { IsTrue (both_tell D.tells M.tells) → at ≤ length (told D.on_disk M.on_disk self.old).content }
        ensures ok { OnOk result (IsTrue (both_tell D.tells M.tells) →
            told D.on_disk M.on_disk self.new ≡ written at bytes.now (told D.on_disk M.on_disk self.old)) }
        ensures err { OnErr result (IsTrue (both_tell D.tells M.tells) → IsWriteFailed at (length bytes.now)
            (told D.on_disk M.on_disk self.old) (told D.on_disk M.on_disk self.new)) }
        ensures cause { HasCause (faults_of self.old) (faults_of self.new) result }

        // It is Ok exactly where the mirror is whole after it. Of a broken one neither half is called.
        //= A write is Ok exactly where both halves were written.
        //= No body: it is `answer`, which has one by `sync`
        ensures answers { IsErr result ↔ (self.new.standing ≡ Whole → ⊥) }
        //= A write goes to the first half, and once that is Ok to the second.
        ensures whole { self.old.standing ≡ Whole → WritesBoth
            (this_disk D.tells D.on_disk D.faults self.old.first self.new.first)
            (this_disk M.tells M.on_disk M.faults self.old.second self.new.second) at bytes.now self.new.standing }
        //= From the first failure on no write reaches a half.
        ensures broken { (self.old.standing ≡ Whole → ⊥) → IsUntouched self.old self.new }
        ensures made { (self.new.first_made ≡ self.old.first_made) × (self.new.second_made ≡ self.old.second_made) }
    {
        self.standing = write_both(self.standing, &mut self.first, &mut self.second, at, bytes);
        answer(self.standing, &mut self.faults)
    }

    fn sync(&mut self) -> Result<(), Failed>
        ensures ok { OnOk result (IsTrue (both_tell D.tells M.tells) →
            told D.on_disk M.on_disk self.new ≡ synced (told D.on_disk M.on_disk self.old)) }
        //= Where a half fails, the mirror tells what a failed sync leaves.
        ensures err { OnErr result (IsTrue (both_tell D.tells M.tells) → IsSyncFailed
            (told D.on_disk M.on_disk self.old) (told D.on_disk M.on_disk self.new)) }
        ensures cause { HasCause (faults_of self.old) (faults_of self.new) result }

        // It is Ok exactly where the mirror is whole after it. Of a broken one neither half is called.
        //= A sync is Ok exactly where the mirror is whole behind it: where both halves were synced.
        ensures answers { IsErr result ↔ (self.new.standing ≡ Whole → ⊥) }
        //= A sync goes to the first half, and once that is Ok to the second.
        ensures whole { self.old.standing ≡ Whole → SyncsBoth
            (this_disk D.tells D.on_disk D.faults self.old.first self.new.first)
            (this_disk M.tells M.on_disk M.faults self.old.second self.new.second) self.new.standing }
        //= From the first failure on no sync reaches a half.
        ensures broken { (self.old.standing ≡ Whole → ⊥) → IsUntouched self.old self.new }
        ensures made { (self.new.first_made ≡ self.old.first_made) × (self.new.second_made ≡ self.old.second_made) }
    {
        self.standing = sync_both(self.standing, &mut self.first, &mut self.second);
        answer(self.standing, &mut self.faults)
    }

    fn faults(&self) -> u64 {
        self.faults
    }
}
