//! How a call of the program ends.
ghost use Rattle.std.specs.Prelude.{◌≡◌};
ghost use Rattle.report.specs.Status.{status_of};

use agency_port::Evidence;
use parties::Nif;
use shop_core::{What, Word};

/// What a call of the program came to.
#[derive(Clone, Copy, Debug, PartialEq, Eq)]
pub enum Detail {
    /// The source was read to its end, every command has its answer, and all was printed.
    Done,
    /// The words are no command.
    Usage,
    /// This line of the script, by its number from 1, is wrong.
    Script { line: u32, fault: Word },
    /// The source failed.
    ReadFault,
    /// The sink failed, and took a front of the text.
    WriteFault,
    /// The disk failed.
    DiskFault,
    /// The file is damaged at this byte.
    Damaged { at: u64 },
    /// The sender gave up: this many lines are noted, of this many records.
    Undelivered { noted: u32, records: u32 },
    /// The file is broken at this place, counted from 1, and this is the first thing that is wrong there.
    Broken { place: u32, what: What },
    /// A growth was refused.
    NoMemory,
    /// The agency contradicts itself.
    Contradiction(Evidence),
    /// The source gave more than 16,777,216 bytes.
    TooBig,
    /// The file holds the chain of another issuer, this one.
    OtherIssuer { held: Nif },
    /// The chain has no alta of this number.
    Unknown,
    /// The new file of a migration has this many bytes, and is neither not begun nor what a migration of this chain left unfinished.
    Occupied { length: u64 },
    /// There is no file of version 1 to move: it isn't begun (0), or is of version 2 (2).
    NotOld { held: u8 },
    /// The copy isn't of the file: it has another issuer or version (0), or this entry of it, from 1, isn't the file's.
    Parted { entry: u64 },
    /// This line of an export, by its number from 1, isn't that of the file's history, is missing or is too many.
    Differs { line: u64 },
    /// The issuer of this index, counted from 0, is the first that ended with a status other than 0, this one.
    Issuer { index: u16, status: u8 },
}

/// What a call came to, with the status that the program ends with.
#[derive(Clone, Copy, Debug, PartialEq, Eq)]
pub struct Ended {
    pub status: u8,
    pub detail: Detail,
}

impl Ended {
    /// An end with its status.
    pub fn of(detail: Detail) -> Ended
        ensures status { result.status ≡ status_of detail }
        ensures detail { result.detail ≡ detail }
    {
        let status = status_of(&detail);
        Ended { status, detail }
    }
}

/// The status of an end.
pub fn status_of(detail: &Detail) -> u8
    //= Each end has its status.
    //= No body: sessions compare it
    ensures { result ≡ status_of detail.now }
{
    match detail {
        Detail::Done => 0,
        Detail::Usage => 2,
        Detail::Script { .. } => 3,
        Detail::ReadFault => 4,
        Detail::WriteFault => 5,
        Detail::DiskFault => 6,
        Detail::Damaged { .. } => 7,
        Detail::Undelivered { .. } => 8,
        Detail::Broken { .. } => 9,
        Detail::NoMemory => 10,
        Detail::Contradiction(_) => 11,
        Detail::TooBig => 12,
        Detail::OtherIssuer { .. } => 13,
        Detail::Unknown => 14,
        Detail::Occupied { .. } => 15,
        Detail::NotOld { .. } => 16,
        Detail::Parted { .. } => 17,
        Detail::Differs { .. } => 18,
        Detail::Issuer { status, .. } => *status,
    }
}
