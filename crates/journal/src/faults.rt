//! The faults of the layers above the journal.
ghost use Rattle.std.specs.Prelude.{◌≡◌};
ghost use Rattle.journal.specs.Faults.{store_fault, no_memory};

use crate::JournalFault;
use ports::NoMemory;
use thiserror::Error;

/// Why an entry could not be added to what a journal keeps.
#[derive(Clone, Copy, Debug, PartialEq, Eq, Error)]
pub enum StoreFault {
    /// The disk failed in this call. The entry may be on the disk or not.
    #[error("the disk failed")]
    DiskFault,
    /// The disk failed in an earlier call, at this count of faults. Nothing was done.
    #[error("the journal stopped at fault {faults} of its disk")]
    Stopped { faults: u64 },
    /// A growth was refused. Nothing was written.
    #[error("out of memory")]
    NoMemory,
}

impl From<JournalFault> for StoreFault {
    ghost from_gives = { λ fault e. e ≡ store_fault fault };

    fn from(fault: JournalFault) -> Self {
        match fault {
            JournalFault::DiskFault => StoreFault::DiskFault,
            JournalFault::Stopped { faults } => StoreFault::Stopped { faults },
        }
    }
}

impl From<NoMemory> for StoreFault {
    ghost from_gives = { λ _ e. e ≡ no_memory };

    fn from(_: NoMemory) -> Self {
        StoreFault::NoMemory
    }
}
