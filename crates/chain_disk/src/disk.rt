//! The trait of a disk.
ghost use Rattle.std.specs.Prelude.{◌≡◌, ◌≤◌, ◌-◌, ◌^◌, ℕ, Bool, IsTrue, length, IfOk, OnOk, OnErr};
ghost use Rattle.ports.specs.Causes.{HasCause};
ghost use Rattle.chain_disk.specs.OnDisk.{OnDisk, written, synced, IsWriteFailed, IsSyncFailed, IsRead, IsImage};

use ports::Failed;

/// A file that is read and written at places counted in bytes from 0. Each call may fail, and each
/// failure is counted.
///
/// The crash model: the disk has a clock of moments. Between two syncs each written range, and
/// everything past the synced length, may hold any bytes after a crash, and the length is between the
/// synced one and the furthest written end. All other bytes stay. After a sync a crash leaves what a
/// read gives.
pub trait Disk {
    /// Whether disks of this type tell what they hold and what a crash may leave. A real file doesn't.
    ghost tells: { Bool };

    /// What is on it, where it tells that.
    ghost on_disk: { Self → OnDisk };

    /// The count of faults, which never falls.
    ghost faults: { Self → ℕ };

    /// How many bytes it holds.
    fn len(&mut self) -> Result<u64, Failed>
        ensures same { on_disk self.new ≡ on_disk self.old }
        ensures length { IfOk result (λ n. IsTrue tells → n ≡ length (on_disk self.old).content) }
        ensures cause { HasCause (faults self.old) (faults self.new) result };

    /// Fills the buffer with as much as the content has from this place on, and answers how many bytes
    /// that is.
    fn read_at(&mut self, at: u64, buf: &mut [u8]) -> Result<usize, Failed>
        ensures same { on_disk self.new ≡ on_disk self.old }
        ensures fits { IfOk result (λ n. n ≤ length buf.old) }
        ensures bytes { IfOk result (λ n. IsTrue tells →
            IsRead (on_disk self.old).content at n buf.old buf.new) }
        ensures cause { HasCause (faults self.old) (faults self.new) result };

    /// Writes over what is there, and past the end. Until a sync, a crash may leave any bytes in the
    /// range. After a failure the range may hold any bytes.
    fn write_at(&mut self, at: u64, bytes: &[u8]) -> Result<(), Failed>
        requires { IsTrue tells → at ≤ length (on_disk self.old).content }
        //= A write that is Ok is what the disk tells from then on, pending until a sync.
        //= No body: a trait's clause; the disk in memory has bodies
        ensures ok { OnOk result (IsTrue tells → on_disk self.new ≡ written at bytes.now (on_disk self.old)) }
        ensures err { OnErr result (IsTrue tells →
            IsWriteFailed at (length bytes.now) (on_disk self.old) (on_disk self.new)) }
        //= A write fails only where the disk's count of faults rose.
        //= No body: each disk proves it by its own count
        ensures cause { HasCause (faults self.old) (faults self.new) result };

    /// After it a crash leaves what a read gives. After a failure all that was pending stays pending.
    fn sync(&mut self) -> Result<(), Failed>
        ensures ok { OnOk result (IsTrue tells → on_disk self.new ≡ synced (on_disk self.old)) }
        ensures err { OnErr result (IsTrue tells → IsSyncFailed (on_disk self.old) (on_disk self.new)) }
        ensures cause { HasCause (faults self.old) (faults self.new) result };

    /// How often it has failed. At the greatest u64 the count stays.
    fn faults(&self) -> u64
        ensures { result ≡ faults self.now };

    /// The disk as it reads is one of its images of now.
    ghost reads_an_image: { (disk : Self) → IsTrue tells → IsImage (on_disk disk).now (on_disk disk).content };

    /// The count of faults is one that a u64 holds.
    ghost few_faults: { (disk : Self) → faults disk ≤ 2 ^ 64 - 1 };
}
