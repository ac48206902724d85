//! How a run ends.
ghost use Rattle.std.specs.Prelude.{◌≡◌, ℕ, List};
ghost use Rattle.std.specs.List.{list_any};
ghost use Rattle.ports.specs.Sinks.{OutputIs, Sinks};
ghost use Rattle.chain_store.specs.Replies as spec;
ghost use Rattle.command_ends.specs.Ending.{RunEnds};

use journal::StoreFault;
use ports::Failed;
use report::Detail;
use shop_core::Reply;

fn is_no_memory(reply: &Result<Reply, StoreFault>) -> bool
    ensures { result ≡ spec.is_no_memory reply.now }
{
    match reply {
        Err(StoreFault::NoMemory) => true,
        _ => false,
    }
}

fn is_disk_fault(reply: &Result<Reply, StoreFault>) -> bool
    ensures { result ≡ spec.is_disk_fault reply.now }
{
    match reply {
        Err(StoreFault::DiskFault | StoreFault::Stopped { .. }) => true,
        _ => false,
    }
}

pub fn lacks_memory(replies: &[Result<Reply, StoreFault>]) -> bool
    ensures { result ≡ list_any spec.is_no_memory replies.now }
{
    replies.iter().any(|reply| is_no_memory(reply))
}

pub fn lacks_disk(replies: &[Result<Reply, StoreFault>]) -> bool
    ensures { result ≡ list_any spec.is_disk_fault replies.now }
{
    replies.iter().any(|reply| is_disk_fault(reply))
}

/// The end of a run with these replies, whose text was written or not: lack of memory before a fault of the disk, and that
/// before one of the sink.
pub fn run_end(replies: &[Result<Reply, StoreFault>], written: Result<(), Failed>) -> Detail
    //= A run is done only where every command has an answer that is no fault and the sink took its text; out of
    //= memory goes before a fault of the disk, and this before one of the sink.
    ensures { (text : List ℕ) (s : Sinks) → OutputIs s text written → RunEnds replies.now text s result }
{
    if lacks_memory(replies) {
        return Detail::NoMemory;
    }
    if lacks_disk(replies) {
        return Detail::DiskFault;
    }
    match written {
        Ok(()) => Detail::Done,
        Err(_) => Detail::WriteFault,
    }
}
