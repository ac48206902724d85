//! Why a file can't be loaded, and why it can't be opened.
ghost use Rattle.std.specs.Prelude.{◌≡◌};
ghost use Rattle.chain_store.specs.Loading.{open_cause};

use parties::Nif;

/// Why a file gives no history.
#[derive(Clone, Copy, Debug, PartialEq, Eq)]
pub enum LoadFault {
    /// The disk failed.
    DiskFault,
    /// The file is damaged at this byte: in its header, or at the gate of its first frame that isn't the next entry of a
    /// legal history.
    Damaged { at: u64 },
    NoMemory,
}

/// Why a file can't be opened for an issuer.
#[derive(Clone, Copy, Debug, PartialEq, Eq)]
pub enum OpenCause {
    /// The disk failed.
    DiskFault,
    /// The file is damaged at this byte.
    Damaged { at: u64 },
    /// The file is sound and holds the chain of another issuer.
    OtherIssuer { held: Nif },
    NoMemory,
}

impl From<LoadFault> for OpenCause {
    ghost from_gives = { λ fault cause. cause ≡ open_cause fault };

    fn from(fault: LoadFault) -> Self {
        match fault {
            LoadFault::DiskFault => OpenCause::DiskFault,
            LoadFault::Damaged { at } => OpenCause::Damaged { at },
            LoadFault::NoMemory => OpenCause::NoMemory,
        }
    }
}
