//! How a command ends by the answer of a drain, or of a day's sender.
ghost use Rattle.std.specs.Prelude.{◌≡◌, ℕ, List};
ghost use Rattle.ports.specs.Sinks.{OutputIs, Sinks};
ghost use Rattle.command_ends.specs.DrainEnds as spec;
ghost use Rattle.command_ends.specs.DrainEnds.{DrainRunEnds};

use journal::StoreFault;
use ports::Failed;
use report::Detail;
use sender::DrainFault;

/// The end of a command whose store failed so.
pub fn store_end(fault: StoreFault) -> Detail
    ensures { result ≡ spec.store_end fault }
{
    match fault {
        StoreFault::DiskFault => Detail::DiskFault,
        StoreFault::Stopped { .. } => Detail::DiskFault,
        StoreFault::NoMemory => Detail::NoMemory,
    }
}

/// The end of a drain that failed so.
pub fn fault_end(fault: DrainFault) -> Detail
    ensures { result ≡ spec.fault_end fault }
{
    match fault {
        DrainFault::Undelivered { noted, records } => Detail::Undelivered { noted, records },
        DrainFault::Contradiction(evidence) => Detail::Contradiction(evidence),
        DrainFault::Store(fault) => store_end(fault),
        DrainFault::NoMemory => Detail::NoMemory,
    }
}

/// The end of a drain with this answer, whose text was written or not.
pub fn end_by(answer: &Result<(), DrainFault>, written: Result<(), Failed>) -> Detail
    //= A drain's run ends by its answer: out of memory before a fault of the disk, and all others before one of the
    //= sink.
    ensures { (text : List ℕ) (s : Sinks) → OutputIs s text written → DrainRunEnds answer.now text s result }
{
    match answer {
        Err(fault) => fault_end(*fault),
        Ok(()) => match written {
            Ok(()) => Detail::Done,
            Err(_) => Detail::WriteFault,
        },
    }
}

/// Whether the sender found no memory.
pub fn sender_lacks_memory(answer: &Result<(), DrainFault>) -> bool
    ensures { result ≡ spec.sender_lacks_memory answer.now }
{
    match answer {
        Err(DrainFault::NoMemory | DrainFault::Store(StoreFault::NoMemory)) => true,
        _ => false,
    }
}
