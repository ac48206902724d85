//! Why there is no verdict.
use thiserror::Error;

/// Why a file was not read to its end or its first break.
#[derive(Clone, Copy, Debug, PartialEq, Eq, Error)]
pub enum AuditFault {
    /// The disk's count of faults rose in this call.
    #[error("the disk failed")]
    DiskFault,
    #[error("out of memory")]
    NoMemory,
}
