//! The bytes behind a closing gate, which stand for nothing. Those of two files of one history are made equal, so that both hold the
//! same. Neither a gate nor anything before one is written.
ghost use Rattle.std.specs.Prelude.{◌≡◌, ◌<◌, ◌≤◌, ◌+◌, ◌^◌, length, slice_get, false, IsTrue, IsErrOf, IfOk, OnOk, OnErr};
ghost use Rattle.ports.specs.Causes.{HasCause};
ghost use Rattle.chain_disk.specs.Disks.{this_disk};
ghost use Rattle.chain_disk.specs.OnDisk.{IsSettled, IsWriteFailed};
ghost use Rattle.journal.specs.File.{IsAtSome};
ghost use Rattle.journal.specs.Tails.{CopiesPiece, HasGate, HasTailCause, HaveOneByte, KeepsGate, StaysAt, WritesPiece};
ghost use Rattle.journal.specs.Written.{AppendsFrom, KeepsFront};

use chain_disk::Disk;
use ports::Failed;

/// Why the bytes behind two closing gates were not made equal.
#[derive(Clone, Copy, Debug, PartialEq, Eq)]
pub enum TailFault {
    /// The first disk failed.
    First,
    /// The second disk failed.
    Second,
    /// The gates are two different bytes. Nothing was written.
    OtherGate,
}

// How many bytes are written at once.
const PIECE: usize = 4_096;

// How many of the bytes between two places are written at once.
fn piece_size(at: u64, end: u64) -> usize
    requires { at < end }
    ensures some { 0 < result }
    ensures room { result ≤ PIECE }
    ensures within { at + result ≤ end }
{
    (end - at).min(PIECE as u64) as usize
}

// The byte at this place, where the file has one.
fn byte_at<D: Disk>(disk: &mut D, at: u64) -> Result<Option<u8>, Failed>
    ensures byte { IfOk result (λ byte. IsTrue D.tells → byte ≡ slice_get (D.on_disk disk.old).content at) }
    ensures same { D.on_disk disk.new ≡ D.on_disk disk.old }
    ensures cause { HasCause (D.faults disk.old) (D.faults disk.new) result }
{
    let mut room = [0];
    let n = disk.read_at(at, &mut room)?;
    if n == 0 {
        return Ok(None);
    }
    Ok(Some(room[0]))
}

// Whether both files have the same byte at this place.
fn have_one_byte<D: Disk, M: Disk>(
    first: &mut D,
    second: &mut M,
    at: u64,
) -> Result<bool, TailFault>
    ensures same { (D.on_disk first.new ≡ D.on_disk first.old) × (M.on_disk second.new ≡ M.on_disk second.old) }
    ensures one { IfOk result (λ one. IsTrue D.tells → IsTrue M.tells →
        HaveOneByte (D.on_disk first.old).content (M.on_disk second.old).content at one) }
    ensures cause { HasTailCause (this_disk D.tells D.on_disk D.faults first.old first.new)
        (this_disk M.tells M.on_disk M.faults second.old second.new) result }
    ensures read { IsErrOf result TailFault.OtherGate → ⊥ }
{
    let Ok(one) = byte_at(first, at) else {
        return Err(TailFault::First);
    };
    let Ok(other) = byte_at(second, at) else {
        return Err(TailFault::Second);
    };
    match (one, other) {
        (Some(one), Some(other)) => Ok(one == other),
        _ => Ok(false),
    }
}

// Writes so many zeros at this place.
fn write_zeros<D: Disk>(disk: &mut D, at: u64, size: usize) -> Result<(), Failed>
    requires room { size ≤ PIECE }
    requires within { IsTrue D.tells → at ≤ length (D.on_disk disk.old).content }
    ensures ok { OnOk result (IsTrue D.tells → WritesPiece at size (D.on_disk disk.old) (D.on_disk disk.new)) }
    ensures err { OnErr result (IsTrue D.tells → IsWriteFailed at size (D.on_disk disk.old) (D.on_disk disk.new)) }
    ensures cause { HasCause (D.faults disk.old) (D.faults disk.new) result }
{
    let zeros = [0; PIECE];
    disk.write_at(at, &zeros[..size])?;
    Ok(())
}

// Makes a file at least as long as this, by zeros behind its end.
fn lengthen<D: Disk>(disk: &mut D, gate: u64, end: u64) -> Result<(), Failed>
    requires { IsTrue D.tells → HasGate gate (D.on_disk disk.old) }
    ensures long { OnOk result (IsTrue D.tells → end ≤ length (D.on_disk disk.new).content) }
    ensures settled { OnOk result (IsTrue D.tells → IsSettled (D.on_disk disk.new)) }
    ensures behind { IsTrue D.tells → AppendsFrom (gate + 1) (D.on_disk disk.old) (D.on_disk disk.new) }
    ensures cause { HasCause (D.faults disk.old) (D.faults disk.new) result }
{
    let mut at = disk.len()?;
    while at < end {
        let size = piece_size(at, end);
        write_zeros(disk, at, size)?;
        at += size as u64;
    }
    disk.sync()
}

// Gives the second file bytes of the first one.
fn copy_piece<D: Disk, M: Disk>(
    first: &mut D,
    second: &mut M,
    at: u64,
    size: usize,
) -> Result<(), TailFault>
    requires room { size ≤ PIECE }
    requires held { IsTrue D.tells → at + size ≤ length (D.on_disk first.old).content }
    requires within { IsTrue M.tells → at ≤ length (M.on_disk second.old).content }
    ensures same { D.on_disk first.new ≡ D.on_disk first.old }
    ensures ok { OnOk result (IsTrue M.tells →
        CopiesPiece D.tells (D.on_disk first.old).content at size (M.on_disk second.old) (M.on_disk second.new)) }
    ensures err { OnErr result (IsTrue M.tells → IsWriteFailed at size (M.on_disk second.old) (M.on_disk second.new)) }
    ensures cause { HasTailCause (this_disk D.tells D.on_disk D.faults first.old first.new)
        (this_disk M.tells M.on_disk M.faults second.old second.new) result }
    ensures read { IsErrOf result TailFault.OtherGate → ⊥ }
{
    let mut room = [0; PIECE];
    let bytes = &mut room[..size];
    let Ok(_) = first.read_at(at, bytes) else {
        return Err(TailFault::First);
    };
    let Ok(()) = second.write_at(at, bytes) else {
        return Err(TailFault::Second);
    };
    Ok(())
}

// Gives the second file, which is no longer than the first one, the bytes that the first one has behind this gate.
fn copy_tail<D: Disk, M: Disk>(first: &mut D, second: &mut M, gate: u64) -> Result<(), TailFault>
    requires place { gate < 2 ^ 63 }
    requires first { IsTrue D.tells → gate < length (D.on_disk first.old).content }
    requires second { IsTrue M.tells → HasGate gate (M.on_disk second.old) }
    ensures equal { OnOk result (IsTrue D.tells → IsTrue M.tells →
        KeepsFront (gate + 1) (D.on_disk first.old).content (M.on_disk second.old).content →
        length (M.on_disk second.old).content ≤ length (D.on_disk first.old).content →
        (M.on_disk second.new).content ≡ (D.on_disk first.old).content) }
    ensures settled { OnOk result (IsTrue M.tells → IsSettled (M.on_disk second.new)) }
    ensures same { D.on_disk first.new ≡ D.on_disk first.old }
    ensures behind { IsTrue M.tells → AppendsFrom (gate + 1) (M.on_disk second.old) (M.on_disk second.new) }
    ensures cause { HasTailCause (this_disk D.tells D.on_disk D.faults first.old first.new)
        (this_disk M.tells M.on_disk M.faults second.old second.new) result }
    ensures read { IsErrOf result TailFault.OtherGate → ⊥ }
{
    let Ok(end) = first.len() else {
        return Err(TailFault::First);
    };
    let mut at = gate + 1;
    while at < end {
        let size = piece_size(at, end);
        copy_piece(first, second, at, size)?;
        at += size as u64;
    }
    match second.sync() {
        Ok(()) => Ok(()),
        Err(_) => Err(TailFault::Second),
    }
}

// Makes the tails equal, where the gates are.
fn level_behind<D: Disk, M: Disk>(first: &mut D, second: &mut M, gate: u64) -> Result<(), TailFault>
    requires place { gate < 2 ^ 63 }
    requires first { IsTrue D.tells → HasGate gate (D.on_disk first.old) }
    requires second { IsTrue M.tells → HasGate gate (M.on_disk second.old) }
    ensures equal { OnOk result (IsTrue D.tells → IsTrue M.tells →
        KeepsFront (gate + 1) (D.on_disk first.old).content (M.on_disk second.old).content →
        (M.on_disk second.new).content ≡ (D.on_disk first.new).content) }
    ensures settled { OnOk result ((IsTrue D.tells → IsSettled (D.on_disk first.new))
        × (IsTrue M.tells → IsSettled (M.on_disk second.new))) }
    ensures first { IsTrue D.tells → AppendsFrom (gate + 1) (D.on_disk first.old) (D.on_disk first.new) }
    ensures second { IsTrue M.tells → AppendsFrom (gate + 1) (M.on_disk second.old) (M.on_disk second.new) }
    ensures cause { HasTailCause (this_disk D.tells D.on_disk D.faults first.old first.new)
        (this_disk M.tells M.on_disk M.faults second.old second.new) result }
    ensures read { IsErrOf result TailFault.OtherGate → ⊥ }
{
    let Ok(end) = second.len() else {
        return Err(TailFault::Second);
    };
    let Ok(()) = lengthen(first, gate, end) else {
        return Err(TailFault::First);
    };
    copy_tail(first, second, gate)
}

/// Gives two files of one history the same bytes behind their closing gates, which stand at this place. The first file is made as long
/// as the second one, and then the second is given what the first has there, in pieces, with a sync after each.
pub fn make_tails_equal<D: Disk, M: Disk>(
    first: &mut D,
    second: &mut M,
    gate: u64,
) -> Result<(), TailFault>
    requires place { gate < 2 ^ 63 }
    requires first { IsTrue D.tells → IsAtSome gate (D.on_disk first.old) }
    requires second { IsTrue M.tells → IsAtSome gate (M.on_disk second.old) }
    requires front { IsTrue D.tells → IsTrue M.tells →
        KeepsFront gate (D.on_disk first.old).content (M.on_disk second.old).content }

    //= Two files of one history are made equal behind their gates.
    ensures equal { OnOk result (IsTrue D.tells → IsTrue M.tells →
        (M.on_disk second.new).content ≡ (D.on_disk first.new).content) }
    //= Each of two files whose tails were made equal stands for what it stood for, with nothing pending.
    ensures stays { OnOk result ((IsTrue D.tells → StaysAt gate (D.on_disk first.old) (D.on_disk first.new))
        × (IsTrue M.tells → StaysAt gate (M.on_disk second.old) (M.on_disk second.new))) }

    // Whatever it answers, the bytes up to the gate and the gate stay, in each file and in each that a crash leaves of it: that
    // stands for the same bodies.
    ensures first { IsTrue D.tells → KeepsGate gate (D.on_disk first.old) (D.on_disk first.new) }
    //= Where tails are made equal, the bytes up to and with the gate stay, in each file that a crash leaves too, and
    //= nothing is lost.
    ensures second { IsTrue M.tells → KeepsGate gate (M.on_disk second.old) (M.on_disk second.new) }

    //= Where the gates of two files differ nothing is written to make their tails equal.
    //= No body: it is answered ahead of each write
    ensures other_gate { IsErrOf result TailFault.OtherGate →
        (D.on_disk first.new ≡ D.on_disk first.old) × (M.on_disk second.new ≡ M.on_disk second.old)
        × (IsTrue D.tells → IsTrue M.tells →
        HaveOneByte (D.on_disk first.old).content (M.on_disk second.old).content gate false) }
    ensures cause { HasTailCause (this_disk D.tells D.on_disk D.faults first.old first.new)
        (this_disk M.tells M.on_disk M.faults second.old second.new) result }
{
    if !have_one_byte(first, second, gate)? {
        return Err(TailFault::OtherGate);
    }
    level_behind(first, second, gate)
}
