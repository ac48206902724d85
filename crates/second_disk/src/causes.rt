//! Why a second file can't stand beside a first one.
ghost use Rattle.std.specs.Prelude.{◌≡◌};
ghost use Rattle.second_disk.specs.Causes as spec;

use chain_store::OpenCause;
use journal::TailFault;
use parties::Nif;
use record_codec::Version;
use standby::StandbyCause;

/// Which of the two files.
#[derive(Clone, Copy, Debug, PartialEq, Eq)]
pub enum Half {
    First,
    Second,
}

/// Why two files were not brought level.
#[derive(Clone, Copy, Debug, PartialEq, Eq)]
pub enum LevelCause {
    /// The disk of this file failed.
    DiskFault { half: Half },
    /// This file is damaged at this byte.
    Damaged { half: Half, at: u64 },
    /// This file is sound and holds the chain of another issuer.
    OtherIssuer { half: Half, held: Nif },
    /// Both files are sound and hold chains of this issuer, the second one in this version and the first one in another.
    OtherVersion { held: Version },
    /// The first file isn't begun, and the second one has entries.
    NotBegun,
    /// The second file has another entry than the first one at this index, from 0.
    Differs { entry: u64 },
    /// The second file has all that the first one has, and at least two entries more, from this index on.
    Ahead { entry: u64 },
    /// The bytes at the closing gates differ, and a gate is never rewritten.
    OtherGate,
    NoMemory,
}

// Why this file couldn't be opened.
pub(crate) fn opened_cause(half: Half, cause: OpenCause) -> LevelCause
    ensures { result ≡ spec.opened_cause half cause }
{
    match cause {
        OpenCause::DiskFault => LevelCause::DiskFault { half },
        OpenCause::Damaged { at } => LevelCause::Damaged { half, at },
        OpenCause::OtherIssuer { held } => LevelCause::OtherIssuer { half, held },
        OpenCause::NoMemory => LevelCause::NoMemory,
    }
}

// Why this file couldn't be opened in the version of the other one.
pub(crate) fn started_cause(half: Half, cause: StandbyCause) -> LevelCause
    ensures { result ≡ spec.started_cause half cause }
{
    match cause {
        StandbyCause::DiskFault => LevelCause::DiskFault { half },
        StandbyCause::Damaged { at } => LevelCause::Damaged { half, at },
        StandbyCause::OtherIssuer { held } => LevelCause::OtherIssuer { half, held },
        StandbyCause::OtherVersion { held } => LevelCause::OtherVersion { held },
        StandbyCause::NoMemory => LevelCause::NoMemory,
    }
}

// Why the bytes behind the closing gates weren't made equal.
pub(crate) fn tail_cause(fault: TailFault) -> LevelCause
    ensures { result ≡ spec.tail_cause fault }
{
    match fault {
        TailFault::First => LevelCause::DiskFault { half: Half::First },
        TailFault::Second => LevelCause::DiskFault { half: Half::Second },
        TailFault::OtherGate => LevelCause::OtherGate,
    }
}
