//! What an adapter keeps of the faults of the real thing.
ghost use Rattle.std.specs.Prelude.{◌≡◌, ◌-◌, ◌^◌, ◌≤◌};

use crate::Failed;
use crate::faults::fault;
use std::io::ErrorKind;

/// How often an adapter has failed, and the reason of the last time.
#[derive(Drop)]
pub struct Faults {
    count: u64,
    last: Option<&'static str>,
    pub ghost few: { count ≤ 2 ^ 64 - 1 },
}

impl Faults {
    ghost use Rattle.ports.specs.Causes.{Rose};
    ghost use Rattle.ports.specs.Memory.{counted_up};
    ghost use Rattle.ports.specs.Reasons.{count_of};

    /// No fault so far.
    pub fn none() -> Self
        ensures { count_of result ≡ 0 }
    {
        Faults {
            count: 0,
            last: None,
        }
    }

    /// One fault more, of this reason. The count stands still at the greatest u64.
    pub fn raise(&mut self, reason: &'static str) -> Failed
        ensures counted { count_of self.new ≡ counted_up (count_of self.old) }
        ensures later { count_of self.old ≤ count_of self.new }
        ensures risen { Rose (count_of self.old) (count_of self.new) }
    {
        self.last = Some(reason);
        fault(&mut self.count)
    }

    /// How many there were.
    pub fn count(&self) -> u64
        ensures { result ≡ count_of self.now }
    {
        self.count
    }

    /// The reason of the last one, in a few words for whoever reads standard error. Nothing is claimed of it.
    pub fn reason(&self) -> Option<&'static str> {
        self.last
    }
}

/// The reason of an error of the system, in a few words. Nothing is claimed of it.
pub fn reason_of(kind: ErrorKind) -> &'static str {
    match kind {
        ErrorKind::PermissionDenied => "permission denied",
        ErrorKind::ReadOnlyFilesystem => "read-only file system",
        ErrorKind::StorageFull | ErrorKind::QuotaExceeded => "no space left",
        ErrorKind::BrokenPipe => "broken pipe",
        ErrorKind::NotFound => "no such file",
        ErrorKind::IsADirectory => "is a folder",
        _ => "input or output error",
    }
}
