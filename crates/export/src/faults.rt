//! Why a line isn't taken.
ghost use Rattle.std.specs.Prelude.{◌≡◌};
ghost use Rattle.export.specs.declared.faults.LineFault.TheVariants.{NoMemory as no_memory};
ghost use Rattle.export.specs.declared.faults.Unread.TheVariants.{NoMemory as unread_memory};
ghost use Rattle.export.specs.Fields.{fault_of};

use std::alloc::{AllocError, AllocFailed};

/// Why a line isn't taken.
#[derive(Clone, Copy, Debug, PartialEq, Eq)]
pub enum LineFault {
    /// It is no JSON: serde_json reads no value of it.
    Json,
    /// Its value isn't the object of what is to be read.
    Shape,
    /// There was no memory to read it.
    NoMemory,
}

/// Why a value isn't taken.
#[derive(Clone, Copy, Debug, PartialEq, Eq)]
pub(crate) enum Unread {
    /// It isn't of the form.
    Shape,
    /// There was no memory to keep it.
    NoMemory,
}

impl From<AllocError> for Unread {
    ghost from_gives = { λ _ e. e ≡ unread_memory };

    fn from(_e: AllocError) -> Unread {
        Unread::NoMemory
    }
}

impl<T: Drop> From<AllocFailed<T>> for Unread {
    ghost from_gives = { λ _ e. e ≡ unread_memory };

    fn from(_e: AllocFailed<T>) -> Unread {
        Unread::NoMemory
    }
}

impl From<AllocError> for LineFault {
    ghost from_gives = { λ _ e. e ≡ no_memory };

    fn from(_e: AllocError) -> LineFault {
        LineFault::NoMemory
    }
}

impl From<Unread> for LineFault {
    ghost from_gives = { λ u e. e ≡ fault_of u };

    fn from(u: Unread) -> LineFault {
        match u {
            Unread::Shape => LineFault::Shape,
            Unread::NoMemory => LineFault::NoMemory,
        }
    }
}
