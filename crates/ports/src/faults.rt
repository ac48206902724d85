//! The two faults that every layer knows.
ghost use Rattle.std.specs.Prelude.{◌≡◌, ◌≤◌};
ghost use Rattle.ports.specs.Causes.{Rose};
ghost use Rattle.ports.specs.Memory.{counted_up};

use std::alloc::{AllocError, AllocFailed};
use thiserror::Error;

/// A device didn't do what it was asked for. It comes only where the device's count of faults rose in this call.
#[derive(Clone, Copy, Debug, PartialEq, Eq, Error)]
#[error("the device failed")]
pub struct Failed;

// The fault of a device whose count this is, which rises by one up to the greatest u64.
pub(crate) fn fault(count: &mut u64) -> Failed
    //= A failed call of a device in memory or of an adapter raises its count of faults by one.
    ensures counted { count.new ≡ counted_up count.old }
    ensures later { count.old ≤ count.new }
    ensures risen { Rose count.old count.new }
{
    *count = count.saturating_add(1);
    Failed
}

/// A growth was refused.
#[derive(Clone, Copy, Debug, PartialEq, Eq)]
pub struct NoMemory;

impl From<AllocError> for NoMemory {
    fn from(_: AllocError) -> Self {
        NoMemory
    }
}

impl<T: Drop> From<AllocFailed<T>> for NoMemory {
    fn from(_: AllocFailed<T>) -> Self {
        NoMemory
    }
}
