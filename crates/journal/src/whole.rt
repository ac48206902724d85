//! A whole file, held shut until it is complete: byte 0 stays closed until all that comes after it is made sure of.
ghost use Rattle.std.specs.Prelude.{◌≡◌, ◌↔◌, ◌<◌, ◌≤◌, ◌+◌, ◌^◌, ◌++◌, ◌∷◌, [], List, ℕ, length, take, slice_index};
ghost use Rattle.std.specs.Prelude.{IfOk, IfErr, OnOk, IsTrue};
ghost use Rattle.ports.specs.Causes.{HasCause};
ghost use Rattle.chain_disk.specs.Disks.{this_disk};
ghost use Rattle.chain_disk.specs.OnDisk.{IsSettled, LeavesOnly};
ghost use Rattle.frames.specs.Frames.{IsBody};
ghost use Rattle.record_fields.specs.declared.versions.Version.{Version as AnyVersion};
ghost use Rattle.journal.specs.Commit.{IsShut};
ghost use Rattle.journal.specs.File.{AreBodies, IsAt, IsNotBegun, NeverLosesFrames, framed, header};
ghost use Rattle.journal.specs.Looking.{IsHeldAs, IsShutCause};
ghost use Rattle.journal.specs.Whole.{IsHeldShut, IsSameOrShut, IsShutOrWhole, IsWriting, IsWritingSome};
ghost use Rattle.journal.specs.declared.TheConstants.{HEADER};
ghost use Rattle.journal.specs.declared.whole.ShutFault.TheVariants as fault_of;

use crate::HEADER;
use crate::creation::{header_bytes, shut_first};
use chain_disk::Disk;
use frames::{FrameBuf, frame_bytes};
use parties::Nif;
use ports::Failed;
use record_fields::Version;

/// Why a file could not be begun shut.
#[derive(Clone, Copy, Debug, PartialEq, Eq)]
pub enum ShutFault {
    /// The disk failed.
    DiskFault,
    /// The file, of this length, is neither not begun nor an unfinished one of this version and issuer. It was read alone.
    Occupied { length: u64 },
}

impl From<Failed> for ShutFault {
    ghost from_gives = { λ _ fault. fault ≡ fault_of.DiskFault };

    fn from(_: Failed) -> Self {
        ShutFault::DiskFault
    }
}

// What the file holds.
#[derive(Clone, Copy)]
enum Held {
    NotBegun,
    // An unfinished file of this version and issuer.
    Unfinished,
    // Neither, of this length.
    Other { length: u64 },
}

// Whether these are bytes 1 to 18 of a file of this version and issuer.
fn is_header(bytes: &[u8], issuer: &Nif, version: Version) -> bool
    ensures { IsTrue result ↔ (bytes.now ≡ header version issuer.now) }
{
    let wanted = header_bytes(issuer, version);
    bytes == &wanted[..HEADER - 1]
}

// The first byte, 0 where there is none.
fn first_of(window: &[u8]) -> u8
    ensures { result ≡ slice_index window.now 0 }
{
    match window.first() {
        Some(first) => *first,
        None => 0,
    }
}

fn held_in(window: &[u8], size: u64, issuer: &Nif, version: Version) -> Held
    ensures { (file : List ℕ) → window.now ≡ take 19 file → size ≡ length file → IsHeldAs version issuer.now file result }
{
    if size <= 1 {
        return Held::NotBegun;
    }
    if first_of(window) == 1 {
        return Held::Other { length: size };
    }
    if size <= 20 {
        return Held::NotBegun;
    }
    if window.len() == HEADER && is_header(&window[1..HEADER], issuer, version) {
        return Held::Unfinished;
    }
    Held::Other { length: size }
}

fn look<D: Disk>(disk: &mut D, issuer: &Nif, version: Version) -> Result<Held, Failed>
    ensures held { IfOk result (λ held. IsTrue D.tells → IsHeldAs version issuer.now (D.on_disk disk.old).content held) }
    ensures same { D.on_disk disk.new ≡ D.on_disk disk.old }
    ensures cause { HasCause (D.faults disk.old) (D.faults disk.new) result }
{
    let length = disk.len()?;
    let mut room = [0; HEADER];
    let n = disk.read_at(0, &mut room)?;
    Ok(held_in(&room[..n], length, issuer, version))
}

// Makes sure of a header after a closed first byte.
fn write_header<D: Disk>(disk: &mut D, issuer: &Nif, version: Version) -> Result<(), Failed>
    requires { IsTrue D.tells → IsShut (D.on_disk disk.old) }
    ensures ok { OnOk result (IsTrue D.tells → IsWriting version issuer.now [] HEADER (D.on_disk disk.new)) }
    ensures any_moment { IsTrue D.tells → LeavesOnly (D.on_disk disk.old) (D.on_disk disk.new) IsNotBegun }
    ensures cause { HasCause (D.faults disk.old) (D.faults disk.new) result }
{
    let bytes = header_bytes(issuer, version);
    disk.write_at(1, &bytes)?;
    disk.sync()?;
    Ok(())
}

// Makes sure of a closed first byte, and then of the header after it.
fn begin_header<D: Disk>(disk: &mut D, issuer: &Nif, version: Version) -> Result<(), Failed>
    requires { IsTrue D.tells → IsNotBegun (D.on_disk disk.old).content × IsSettled (D.on_disk disk.old) }
    ensures ok { OnOk result (IsTrue D.tells → IsWriting version issuer.now [] HEADER (D.on_disk disk.new)) }
    ensures any_moment { IsTrue D.tells → LeavesOnly (D.on_disk disk.old) (D.on_disk disk.new) IsNotBegun }
    ensures cause { HasCause (D.faults disk.old) (D.faults disk.new) result }
{
    shut_first(disk)?;
    write_header(disk, issuer, version)?;
    Ok(())
}

/// Begins a whole file of this version and issuer, held shut: it makes sure of a closed byte 0 and then of the header after it.
/// Nothing is written where an unfinished such file is there already, nor where something else is.
pub fn begin_shut<D: Disk>(disk: &mut D, issuer: &Nif, version: Version) -> Result<(), ShutFault>
    requires { IsTrue D.tells → IsSettled (D.on_disk disk.old) }
    ensures ok { OnOk result (IsTrue D.tells → IsWriting version issuer.now [] HEADER (D.on_disk disk.new)) }
    ensures free { OnOk result (IsTrue D.tells → IsHeldShut version issuer.now (D.on_disk disk.old).content) }
    ensures any_moment { IsTrue D.tells →
        LeavesOnly (D.on_disk disk.old) (D.on_disk disk.new) (IsSameOrShut version issuer.now (D.on_disk disk.old).content) }
    //= Where something else is a whole file isn't begun, and nothing is written.
    //= No body: it is answered ahead of each write
    ensures kept { IsTrue D.tells → (IsHeldShut version issuer.now (D.on_disk disk.old).content → ⊥) →
        D.on_disk disk.new ≡ D.on_disk disk.old }
    ensures never_loses { IsTrue D.tells → NeverLosesFrames (D.on_disk disk.old) (D.on_disk disk.new) }
    ensures cause { IfErr result (IsShutCause version issuer.now (this_disk D.tells D.on_disk D.faults disk.old disk.new)) }
    ensures later { D.faults disk.old ≤ D.faults disk.new }
{
    let _nine = issuer.bytes();
    let held = look(disk, issuer, version)?;
    match held {
        Held::Other { length } => Err(ShutFault::Occupied { length }),
        Held::Unfinished => Ok(()),
        Held::NotBegun => {
            begin_header(disk, issuer, version)?;
            Ok(())
        }
    }
}

// Writes these bytes where the others end.
fn write_more<D: Disk>(disk: &mut D, at: u64, bytes: &[u8]) -> Result<(), Failed>
    requires within { IsTrue D.tells → at ≤ length (D.on_disk disk.old).content }
    ensures ok { OnOk result (IsTrue D.tells → (version : AnyVersion) (issuer before : List ℕ) →
        IsWriting version issuer before at (D.on_disk disk.old) →
        IsWriting version issuer (before ++ bytes.now) (at + length bytes.now) (D.on_disk disk.new)) }
    ensures any_moment { IsTrue D.tells → (version : AnyVersion) (issuer before : List ℕ) →
        IsWriting version issuer before at (D.on_disk disk.old) →
        LeavesOnly (D.on_disk disk.old) (D.on_disk disk.new) (IsHeldShut version issuer) }
    ensures cause { HasCause (D.faults disk.old) (D.faults disk.new) result }
{
    disk.write_at(at, bytes)?;
    Ok(())
}

/// Writes an open frame of this body where the others end, with a closed gate after it. The answer is that gate's place.
pub fn add_shut<D: Disk>(disk: &mut D, at: u64, body: &[u8]) -> Result<u64, Failed>
    requires size { IsBody body.now }
    requires place { at < 2 ^ 62 }
    requires within { IsTrue D.tells → IsWritingSome at (D.on_disk disk.old) }
    ensures ok { IfOk result (λ next. IsTrue D.tells → (version : AnyVersion) (issuer : List ℕ) (bodies : List (List ℕ)) →
        IsWriting version issuer (framed bodies) at (D.on_disk disk.old) →
        IsWriting version issuer (framed (bodies ++ body.now ∷ [])) next (D.on_disk disk.new)) }
    ensures any_moment { IsTrue D.tells → (version : AnyVersion) (issuer : List ℕ) (bodies : List (List ℕ)) →
        IsWriting version issuer (framed bodies) at (D.on_disk disk.old) →
        LeavesOnly (D.on_disk disk.old) (D.on_disk disk.new) (IsHeldShut version issuer) }
    ensures never_loses { IsTrue D.tells → (version : AnyVersion) (issuer : List ℕ) (bodies : List (List ℕ)) →
        IsWriting version issuer (framed bodies) at (D.on_disk disk.old) →
        NeverLosesFrames (D.on_disk disk.old) (D.on_disk disk.new) }
    ensures place { IfOk result (λ next. next ≡ at + 5 + length body.now) }
    ensures cause { HasCause (D.faults disk.old) (D.faults disk.new) result }
{
    let mut frame = FrameBuf::new();
    frame_bytes(body, &mut frame);
    write_more(disk, at, &[1])?;
    write_more(disk, at + 1, frame.as_slice())?;
    Ok(at + 5 + body.len() as u64)
}

// Makes sure of all that was written, and then opens the first byte.
fn open_first<D: Disk>(disk: &mut D) -> Result<(), Failed>
    ensures ok { OnOk result (IsTrue D.tells → (version : AnyVersion) (issuer : List ℕ) (bodies : List (List ℕ)) (at : ℕ) →
        AreBodies bodies → IsWriting version issuer (framed bodies ++ 0 ∷ []) at (D.on_disk disk.old) →
        IsAt version issuer bodies (HEADER + length (framed bodies)) (D.on_disk disk.new)) }
    ensures any_moment { IsTrue D.tells → (version : AnyVersion) (issuer : List ℕ) (bodies : List (List ℕ)) (at : ℕ) →
        AreBodies bodies → IsWriting version issuer (framed bodies ++ 0 ∷ []) at (D.on_disk disk.old) →
        LeavesOnly (D.on_disk disk.old) (D.on_disk disk.new) (IsShutOrWhole version issuer bodies) }
    ensures never_loses { IsTrue D.tells → (version : AnyVersion) (issuer : List ℕ) (bodies : List (List ℕ)) (at : ℕ) →
        AreBodies bodies → IsWriting version issuer (framed bodies ++ 0 ∷ []) at (D.on_disk disk.old) →
        NeverLosesFrames (D.on_disk disk.old) (D.on_disk disk.new) }
    ensures cause { HasCause (D.faults disk.old) (D.faults disk.new) result }
{
    disk.sync()?;
    disk.write_at(0, &[1])?;
    disk.sync()?;
    Ok(())
}

/// Closes the list of frames, makes sure of all that was written, and then opens byte 0.
pub fn open_shut<D: Disk>(disk: &mut D, at: u64) -> Result<(), Failed>
    requires within { IsTrue D.tells → at ≤ length (D.on_disk disk.old).content }
    ensures ok { OnOk result (IsTrue D.tells → (version : AnyVersion) (issuer : List ℕ) (bodies : List (List ℕ)) →
        AreBodies bodies → IsWriting version issuer (framed bodies) at (D.on_disk disk.old) →
        IsAt version issuer bodies at (D.on_disk disk.new)) }
    //= Until a whole file that is held shut is opened, a crash leaves one that counts for nothing; from there on also
    //= the whole one.
    ensures any_moment { IsTrue D.tells → (version : AnyVersion) (issuer : List ℕ) (bodies : List (List ℕ)) →
        AreBodies bodies → IsWriting version issuer (framed bodies) at (D.on_disk disk.old) →
        LeavesOnly (D.on_disk disk.old) (D.on_disk disk.new) (IsShutOrWhole version issuer bodies) }
    //= Opening a whole file loses nothing that was made sure of.
    ensures never_loses { IsTrue D.tells → (version : AnyVersion) (issuer : List ℕ) (bodies : List (List ℕ)) →
        AreBodies bodies → IsWriting version issuer (framed bodies) at (D.on_disk disk.old) →
        NeverLosesFrames (D.on_disk disk.old) (D.on_disk disk.new) }
    ensures cause { HasCause (D.faults disk.old) (D.faults disk.new) result }
{
    write_more(disk, at, &[0])?;
    open_first(disk)?;
    Ok(())
}
