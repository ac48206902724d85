//! Reads a file frame by frame.
ghost use Rattle.std.specs.Prelude.{◌≡◌, ◌<◌, ◌^◌, ◌≤◌, ◌↔◌, slice_index, length, drop, codes, IsTrue, IfOk, IfSome, IfNone};
ghost use Rattle.std.specs.Prelude.{MatchResult};
ghost use Rattle.ports.specs.Causes.{HasCause};
ghost use Rattle.parties.specs.Nif.{IsNif};
ghost use Rattle.journal.specs.Ahead.{IsAheadIn, IsAtHand};
ghost use Rattle.journal.specs.Step.{IsStep, IsNext, KeepsBuffer};
ghost use Rattle.journal.specs.Header.{IsHeader, SaysAVersion};

use crate::HEADER;
use crate::ahead::ReadAhead;
use chain_disk::Disk;
use frames::{Frame, FrameBuf, WINDOW, read_frame};
use parties::Nif;
use ports::Failed;
use record_fields::Version;
use std::str;

/// What stands at a gate of the file.
#[derive(Clone, Copy, Debug, PartialEq, Eq)]
pub enum Step {
    /// A frame that counts. The next gate is at this place, just after the body.
    Counted { next: u64 },
    /// A gate that isn't 1, which closes the list of frames.
    Closed,
    /// Neither: the gate is missing, or what follows an open one is no frame.
    Damaged,
}

/// What the header of a file says.
#[derive(Clone, Copy, Debug, PartialEq, Eq)]
pub enum Header {
    /// The file stands for the empty history of any issuer.
    NotBegun,
    /// A sound header, of version 1 or 2.
    Begun { issuer: Nif, version: u8 },
    /// The first row of the header's table that is wrong is at this byte.
    Damaged { at: u64 },
}

// How many bytes of a file tell its header: one more than the longest file that may not be begun.
const LOOK: usize = HEADER + 2;

/// What the first bytes of the file stand for. It reads at most 21 of them.
pub fn read_header<D: Disk>(disk: &mut D) -> Result<Header, Failed>
    //= A header is read by the file's table.
    //= No body: none is written yet
    ensures header { IfOk result (λ header. IsTrue D.tells → IsHeader (D.on_disk disk.old).content header) }
    ensures version { IfOk result SaysAVersion }
    ensures same { D.on_disk disk.new ≡ D.on_disk disk.old }
    ensures cause { HasCause (D.faults disk.old) (D.faults disk.new) result }
{
    let mut room = [0; LOOK];
    let n = disk.read_at(0, &mut room)?;
    Ok(header_in(&room[..n]))
}

fn header_in(file: &[u8]) -> Header
    ensures { IsHeader file.now result }
{
    if file.len() <= 1 {
        return Header::NotBegun;
    }
    if file[0] != 1 {
        if file.len() <= HEADER + 1 {
            return Header::NotBegun;
        }
        return Header::Damaged { at: 0 };
    }
    if file.len() <= 9 {
        return Header::Damaged {
            at: file.len() as u64,
        };
    }
    header_behind(file)
}

fn is_mark(bytes: &[u8]) -> bool
    ensures { IsTrue result ↔ (bytes.now ≡ codes "VFCHAIN1") }
{
    bytes == b"VFCHAIN1".as_slice()
}

// The NIF that these bytes are.
fn issuer_in(bytes: &[u8]) -> Option<Nif>
    ensures some { IfSome result (λ nif. IsNif bytes.now × (nif ≡ bytes.now)) }
    ensures none { IfNone result (IsNif bytes.now → ⊥) }
{
    match str::from_utf8(bytes) {
        Ok(text) => match Nif::read(text) {
            Ok(nif) => Some(nif),
            Err(_) => None,
        },
        Err(_) => None,
    }
}

// The rest of a header whose first byte is 1.
fn header_behind(file: &[u8]) -> Header
    requires first { slice_index file.now 0 ≡ 1 }
    requires long { 10 ≤ length file.now }
    ensures { IsHeader file.now result }
{
    if !is_mark(&file[1..9]) {
        return Header::Damaged { at: 1 };
    }
    let Some(version) = Version::of_number(file[9]) else {
        return Header::Damaged { at: 9 };
    };
    if file.len() < HEADER {
        return Header::Damaged {
            at: file.len() as u64,
        };
    }
    match issuer_in(&file[10..HEADER]) {
        Some(issuer) => Header::Begun {
            issuer,
            version: version.number(),
        },
        None => Header::Damaged { at: 10 },
    }
}

/// What stands at a gate. Of a counted frame the buffer then holds the body.
pub fn scan<D: Disk>(disk: &mut D, at: u64, body: &mut FrameBuf) -> Result<Step, Failed>
    requires { at < 2 ^ 63 }
    //= A frame is read by the file's table.
    //= No body: it is `step_in`, as `scan_ahead`
    ensures step { IfOk result (λ step. IsTrue D.tells →
        IsStep (drop at (D.on_disk disk.old).content) step body.new) }
    ensures place { IfOk result (λ step. IsNext at step body.new) }
    ensures buffer { MatchResult result
        (λ step. KeepsBuffer step body.old body.new)
        (λ _. body.new ≡ body.old) }
    ensures same { D.on_disk disk.new ≡ D.on_disk disk.old }
    ensures cause { HasCause (D.faults disk.old) (D.faults disk.new) result }
{
    let mut room = [0; WINDOW];
    let n = disk.read_at(at, &mut room)?;
    Ok(step_in(&room[..n], at, body))
}

/// The same by fewer calls of the disk: what was read ahead serves the scans of the next frames.
pub fn scan_ahead<D: Disk>(
    disk: &mut D,
    ahead: &mut ReadAhead,
    at: u64,
    body: &mut FrameBuf,
) -> Result<Step, Failed>
    requires far { at < 2 ^ 63 }
    requires ahead { IsTrue D.tells → IsAheadIn (D.on_disk disk.old).content ahead.old }
    //= A frame is read ahead as `scan` reads it.
    ensures step { IfOk result (λ step. IsTrue D.tells →
        IsStep (drop at (D.on_disk disk.old).content) step body.new) }
    ensures place { IfOk result (λ step. IsNext at step body.new) }
    ensures buffer { MatchResult result
        (λ step. KeepsBuffer step body.old body.new)
        (λ _. body.new ≡ body.old) }
    //= What was read ahead is what the file has from that byte on.
    ensures ahead { IsTrue D.tells → IsAheadIn (D.on_disk disk.old).content ahead.new }

    // Where the frame is at hand the disk isn't called.
    //= The disk isn't called where as much as a frame may take is at hand.
    ensures kept { IsAtHand ahead.old at → (ahead.new ≡ ahead.old) × (disk.new ≡ disk.old) }
    ensures same { D.on_disk disk.new ≡ D.on_disk disk.old }
    ensures cause { HasCause (D.faults disk.old) (D.faults disk.new) result }
{
    ahead.reach(disk, at)?;
    Ok(step_in(ahead.window(at), at, body))
}

fn step_in(window: &[u8], at: u64, body: &mut FrameBuf) -> Step
    requires { at < 2 ^ 63 }
    ensures step { IsStep window.now result body.new }
    ensures place { IsNext at result body.new }
    ensures buffer { KeepsBuffer result body.old body.new }
{
    match read_frame(window) {
        Frame::Counted { len } => {
            body.fill(&window[5..5 + len as usize]);
            Step::Counted {
                next: at + 5 + len as u64,
            }
        }
        Frame::Closed => Step::Closed,
        Frame::Damaged => Step::Damaged,
    }
}
