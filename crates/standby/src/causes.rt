//! Why a standby can't start.
ghost use Rattle.std.specs.Prelude.{◌≡◌};
ghost use Rattle.standby.specs.Starting.{standby_cause};

use chain_store::OpenCause;
use parties::Nif;
use record_codec::Version;

/// Why a standby can't start on a disk.
#[derive(Clone, Copy, Debug, PartialEq, Eq)]
pub enum StandbyCause {
    /// The disk failed.
    DiskFault,
    /// The file is damaged at this byte.
    Damaged { at: u64 },
    /// The file is sound and holds the chain of another issuer.
    OtherIssuer { held: Nif },
    /// The file is sound and holds this issuer's chain in another version.
    OtherVersion { held: Version },
    NoMemory,
}

impl From<OpenCause> for StandbyCause {
    ghost from_gives = { λ fault cause. cause ≡ standby_cause fault };

    fn from(fault: OpenCause) -> Self {
        match fault {
            OpenCause::DiskFault => StandbyCause::DiskFault,
            OpenCause::Damaged { at } => StandbyCause::Damaged { at },
            OpenCause::OtherIssuer { held } => StandbyCause::OtherIssuer { held },
            OpenCause::NoMemory => StandbyCause::NoMemory,
        }
    }
}
