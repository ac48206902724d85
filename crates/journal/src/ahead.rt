//! A file read in larger pieces than its frames, so that a walk over it makes few calls of the disk.
ghost use Rattle.std.specs.Prelude.{◌≡◌, ◌↔◌, ◌-◌, [], IsTrue, OnOk, OnErr, length, take, drop};
ghost use Rattle.ports.specs.Causes.{HasCause};
ghost use Rattle.frames.specs.declared.TheConstants.{WINDOW};
ghost use Rattle.journal.specs.Ahead.{Covers, IsAheadIn, IsAtHand};

use chain_disk::Disk;
use frames::WINDOW;
use ports::Failed;
use std::marker::Model;

/// How many bytes are read at once.
pub const AHEAD: usize = 65_536;

/// The last bytes that were read of a file, for the scans of its next frames. They tell nothing once the file is written.
#[derive(Drop)]
pub struct ReadAhead {
    room: [u8; AHEAD],
    start: u64,
    len: usize,
}

impl Model for ReadAhead {
    ghost use Rattle.std.specs.Prelude.{◌≤◌, take};
    ghost use Rattle.journal.specs.Ahead.{Ahead};
    ghost use Rattle.journal.specs.declared.ahead.TheConstants.{AHEAD};

    ghost Value = { Ahead };

    ghost view = { λ a. record { start = a.start; bytes = take a.len a.room } };

    ghost invariant = { λ a. a.len ≤ AHEAD };
}

impl ReadAhead {
    /// Nothing was read yet.
    pub fn new() -> ReadAhead
        ensures { result ≡ record { start = 0; bytes = [] } }
    {
        ReadAhead {
            room: [0; AHEAD],
            start: 0,
            len: 0,
        }
    }

    fn covers(&self, at: u64) -> bool
        ensures { IsTrue result ↔ IsAtHand self.now at }
    {
        self.start <= at
            && at - self.start < self.len as u64
            && at - self.start <= (AHEAD - WINDOW) as u64
    }

    // Reads from this place on.
    fn fill<D: Disk>(&mut self, disk: &mut D, at: u64) -> Result<(), Failed>
        ensures covers { OnOk result (Covers self.new at) }
        ensures ok { OnOk result (IsTrue D.tells → self.new.bytes ≡ take AHEAD (drop self.new.start (D.on_disk disk.old).content)) }
        ensures err { OnErr result (self.new.bytes ≡ []) }
        ensures same { D.on_disk disk.new ≡ D.on_disk disk.old }
        ensures cause { HasCause (D.faults disk.old) (D.faults disk.new) result }
    {
        self.len = 0;
        self.len = disk.read_at(at, &mut self.room)?;
        self.start = at;
        Ok(())
    }

    /// Makes sure of the bytes of a frame at this place.
    pub(crate) fn reach<D: Disk>(&mut self, disk: &mut D, at: u64) -> Result<(), Failed>
        requires { IsTrue D.tells → IsAheadIn (D.on_disk disk.old).content self.old }
        ensures covers { OnOk result (Covers self.new at) }
        ensures ok { OnOk result (IsTrue D.tells → self.new.bytes ≡ take AHEAD (drop self.new.start (D.on_disk disk.old).content)) }
        ensures ahead { IsTrue D.tells → IsAheadIn (D.on_disk disk.old).content self.new }
        ensures kept { IsAtHand self.old at → (self.new ≡ self.old) × (disk.new ≡ disk.old) }
        ensures same { D.on_disk disk.new ≡ D.on_disk disk.old }
        ensures cause { HasCause (D.faults disk.old) (D.faults disk.new) result }
    {
        if self.covers(at) {
            return Ok(());
        }
        self.fill(disk, at)
    }

    /// The window of a frame at this place.
    pub(crate) fn window(&self, at: u64) -> &[u8]
        requires { Covers self.now at }
        ensures { result.now ≡ take WINDOW (drop (at - self.now.start) self.now.bytes) }
    {
        let behind = &self.room[..self.len][(at - self.start) as usize..];
        &behind[..behind.len().min(WINDOW)]
    }
}
