//! Reads a file frame by frame, to its closing gate or its first break.
ghost use Rattle.std.specs.Prelude.{◌≡◌, ◌≤◌, ◌+◌, ◌++◌, ◌∷◌, [], List, ℕ, IsTrue, IfOk, IfSome, IfNone, IsErrOf, OnErr, Some};
ghost use Rattle.ports.specs.Causes.{Rose};
ghost use Rattle.journal.specs.Ahead.{IsAheadIn};
ghost use Rattle.journal.specs.Header.{IsBegun};
ghost use Rattle.record_codec.specs.Writing.{entry_bytes};
ghost use Rattle.shop_core.specs.Breaks.{IsBreak};
ghost use Rattle.shop_core.specs.File.Files.{IsSoundUpTo, furthest_gate};
ghost use Rattle.shop_core.specs.Legal.{Continues};
ghost use Rattle.shop_core.specs.File.Reading.{BrokenIsDamaged, Grows, HasNearGate, IsRead, IsSeen, word_of};

use crate::{Break, State, What, a_history_is_read_by_frames, next_fault};
use chain_disk::Disk;
use frames::FrameBuf;
use journal::{Header, ReadAhead, Step, read_header, scan_ahead};
use parties::Nif;
use ports::NoMemory;
use record_codec::{BadEntry, Entry, Version, decode};
use std::alloc::Global;

/// What a file holds.
#[derive(Drop)]
pub enum FileRead {
    /// No header.
    NotBegun,
    /// A legal history, with its issuer and version. The closing gate is at the byte `end`.
    Sound { state: State, end: u64 },
    /// A break at the byte `at`. `place` is one more than the records before it.
    Broken { place: u32, at: u64, what: What },
}

/// Why a file was not read to its end or its first break.
#[derive(Clone, Copy, Debug, PartialEq, Eq)]
pub enum ReadFault {
    /// The disk's count of faults rose in this call.
    DiskFault,
    NoMemory,
}

/// Reads what a file stands for, up to its first break. It writes nothing.
pub fn read_file<D: Disk>(alloc: Global, disk: &mut D) -> Result<FileRead, ReadFault>
    //= A reading says that the file isn't begun, or gives the history that it stands for, with its version and the
    //= byte of its closing gate, or the first break with its place, its byte and its word.
    ensures read { IfOk result (λ read. IsTrue D.tells → IsRead (D.on_disk disk.old).content read) }
    ensures near { IfOk result HasNearGate }
    ensures fault { IsErrOf result ReadFault.DiskFault → Rose (D.faults disk.old) (D.faults disk.new) }
    //= Reading writes nothing.
    //= No body: no function of a reading calls `write_at` or `sync`, which `.ci/quick` looks for
    ensures same { D.on_disk disk.new ≡ D.on_disk disk.old }
    ensures later { D.faults disk.old ≤ D.faults disk.new }
{
    let Ok(header) = read_header(disk) else {
        return Err(ReadFault::DiskFault);
    };
    match &header {
        Header::Damaged { at } => Ok(FileRead::Broken {
            place: 1,
            at: *at,
            what: What::Header,
        }),
        Header::NotBegun => Ok(FileRead::NotBegun),
        Header::Begun { issuer, version } => match Version::of_number(*version) {
            Some(version) => read_frames(alloc, disk, issuer, version),
            None => unreachable!(),
        },
    }
}

/// A file that is read as broken is damaged at that byte.
pub fn a_broken_file_is_damaged()
    //= A broken file is damaged at the byte of its break.
    //= No body: a law over definitions, which has no body
    ensures { BrokenIsDamaged }
{}

// Reads the frames after a sound header of this version and issuer.
fn read_frames<D: Disk>(
    alloc: Global,
    disk: &mut D,
    issuer: &Nif,
    version: Version,
) -> Result<FileRead, ReadFault>
    requires header { IsTrue D.tells → IsBegun version issuer.now (D.on_disk disk.old).content }
    ensures read { IfOk result (λ read. IsTrue D.tells → IsRead (D.on_disk disk.old).content read) }
    ensures near { IfOk result HasNearGate }
    ensures fault { IsErrOf result ReadFault.DiskFault → Rose (D.faults disk.old) (D.faults disk.new) }
    ensures same { D.on_disk disk.new ≡ D.on_disk disk.old }
    ensures later { D.faults disk.old ≤ D.faults disk.new }
{
    a_history_is_read_by_frames();
    let mut state = State::empty(alloc, issuer, version);
    let mut ahead = ReadAhead::new();
    let mut body = FrameBuf::new();
    let mut at = 19;
    for _ in 0..2_000_001u32 {
        match read_frame(alloc, disk, &mut ahead, &mut state, at, &mut body)? {
            AtGate::Entry { next } => at = next,
            AtGate::Closed => return Ok(FileRead::Sound { state, end: at }),
            AtGate::Broken { what } => {
                return Ok(FileRead::Broken {
                    place: state.records() + 1,
                    at,
                    what,
                });
            }
        }
    }
    let _few = state.entries();
    unreachable!()
}

// What stands at a gate.
#[derive(Clone, Copy)]
enum AtGate {
    /// An entry that continues the history. The next gate is at this byte.
    Entry { next: u64 },
    Closed,
    Broken { what: What },
}

// Reads the frame at a gate into the state.
fn read_frame<D: Disk>(
    alloc: Global,
    disk: &mut D,
    ahead: &mut ReadAhead,
    state: &mut State,
    at: u64,
    body: &mut FrameBuf,
) -> Result<AtGate, ReadFault>
    requires ahead { IsTrue D.tells → IsAheadIn (D.on_disk disk.old).content ahead.old }
    requires place { at ≤ furthest_gate state.old.entries }
    requires sound { IsTrue D.tells →
        IsSoundUpTo state.old.version state.old.issuer state.old.entries at (D.on_disk disk.old).content }
    ensures ahead { IsTrue D.tells → IsAheadIn (D.on_disk disk.old).content ahead.new }
    ensures issuer { state.new.issuer ≡ state.old.issuer }
    ensures version { state.new.version ≡ state.old.version }
    ensures grows { IfOk result (Grows state.old state.new) }
    ensures seen { IfOk result (λ seen. IsTrue D.tells → IsSeen (D.on_disk disk.old).content at state.old state.new seen) }
    ensures fault { IsErrOf result ReadFault.DiskFault → Rose (D.faults disk.old) (D.faults disk.new) }
    ensures same { D.on_disk disk.new ≡ D.on_disk disk.old }
    ensures later { D.faults disk.old ≤ D.faults disk.new }
{
    a_history_is_read_by_frames();
    let _few = state.entries();
    match scan_ahead(disk, ahead, at, body) {
        Err(_) => Err(ReadFault::DiskFault),
        Ok(Step::Damaged) => Ok(AtGate::Broken { what: What::Frame }),
        Ok(Step::Closed) => Ok(AtGate::Closed),
        Ok(Step::Counted { next }) => {
            let entry = match decode(alloc, state.version(), state.issuer(), body.as_slice()) {
                Ok(entry) => entry,
                Err(BadEntry::NoMemory) => return Err(ReadFault::NoMemory),
                Err(BadEntry::At { .. }) => return Ok(AtGate::Broken { what: What::Body }),
            };
            match add_entry(alloc, state, entry, body.as_slice()) {
                Ok(None) => Ok(AtGate::Entry { next }),
                Ok(Some(why)) => Ok(AtGate::Broken { what: word_of(why) }),
                Err(_) => Err(ReadFault::NoMemory),
            }
        }
    }
}

fn word_of(why: Break) -> What
    ensures { result ≡ word_of why }
{
    match why {
        Break::Notes => What::Notes,
        Break::Link => What::Link,
        Break::Seal => What::Seal,
        Break::Rule => What::Rule,
    }
}

// Adds an entry that continues the history, whose encoding these bytes are, else says what is wrong with it.
fn add_entry(
    alloc: Global,
    state: &mut State,
    entry: Entry,
    bytes: &[u8],
) -> Result<Option<Break>, NoMemory>
    requires { bytes.now ≡ entry_bytes state.old.version entry }
    ensures added { IfOk result (λ found. IfNone found (Continues state.old.version state.old.issuer state.old.entries entry
        × (state.new.issuer ≡ state.old.issuer) × (state.new.version ≡ state.old.version)
        × (state.new.entries ≡ state.old.entries ++ entry ∷ []))) }
    ensures broken { IfOk result (λ found. IfSome found (λ why. (state.new ≡ state.old)
        × (Continues state.old.version state.old.issuer state.old.entries entry → ⊥)
        × IsBreak state.old.version state.old.issuer state.old.entries entry (Some why))) }
    ensures err { OnErr result (state.new ≡ state.old) }
{
    if let Some(why) = next_fault(alloc, state, &entry)? {
        return Ok(Some(why));
    }
    state.reserve(&entry)?;
    state.apply_encoded(entry, bytes);
    Ok(None)
}
