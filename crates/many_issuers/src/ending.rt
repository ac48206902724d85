//! How an issuer of an installation ends, and the block that is printed of it.
ghost use Rattle.std.specs.Prelude.{◌≡◌, ◌++◌, IfOk, OnOk, Ok, map};
ghost use Rattle.shop_core.specs.Answer.Requests.{Asked};
ghost use Rattle.report.specs.Status.{status_of};
ghost use Rattle.many_issuers.specs.Blocks as spec;

use chain_store::OpenCause;
use command_ends::{fault_end, lacks_disk, lacks_memory, sender_lacks_memory, told_of};
use journal::StoreFault;
use parties::Nif;
use ports::NoMemory;
use record_fields::Text;
use report::{Closed, Detail, closed_text, ended_text, issuer_text, status_of};
use sender::DrainFault;
use shop_core::{Ask, Reply, State};
use shop_drain::opening_end;
use std::alloc::{AllocError, Global};

fn answer_end(answer: &Result<(), DrainFault>) -> Detail
    ensures { result ≡ spec.answer_end answer.now }
{
    match answer {
        Ok(()) => Detail::Done,
        Err(fault) => fault_end(*fault),
    }
}

/// The end of an issuer with these replies, and with this answer after them.
pub fn issuer_end(replies: &[Result<Reply, StoreFault>], answer: &Result<(), DrainFault>) -> Detail
    ensures { result ≡ spec.issuer_end replies.now answer.now }
{
    if lacks_memory(replies) || sender_lacks_memory(answer) {
        return Detail::NoMemory;
    }
    if lacks_disk(replies) {
        return Detail::DiskFault;
    }
    answer_end(answer)
}

fn cause_of(why: &OpenCause) -> Closed
    ensures { result ≡ spec.cause_of why.now }
{
    match why {
        OpenCause::Damaged { at } => Closed::Damaged { at: *at },
        OpenCause::OtherIssuer { held } => Closed::FileOf { held: *held },
        OpenCause::DiskFault => Closed::Disk,
        OpenCause::NoMemory => Closed::Memory,
    }
}

fn put_text(block: &mut Vec<u8>, text: &Text) -> Result<(), AllocError>
    ensures { OnOk result (block.new.items ≡ block.old.items ++ text.now) }
{
    block.extend_from_slice(text.as_slice())
}

/// The block of an issuer whose file wasn't opened.
pub fn closed_block(alloc: Global, issuer: &Nif, why: &OpenCause) -> Result<Text, NoMemory>
    ensures { IfOk result (λ block. block ≡ spec.closed_block issuer.now why.now) }
{
    let mut block = Vec::new(alloc);
    put_text(&mut block, &issuer_text(alloc, issuer)?)?;
    put_text(&mut block, &closed_text(alloc, &cause_of(why))?)?;
    put_text(
        &mut block,
        &ended_text(alloc, status_of(&opening_end(why)))?,
    )?;
    Ok(Text::of(block))
}

/// The block of an issuer whose asks got these replies, with the history that was left, by its end.
pub fn answered_block(
    alloc: Global,
    issuer: &Nif,
    asks: &[Ask],
    replies: &[Result<Reply, StoreFault>],
    state: &State,
    end: &Detail,
) -> Result<Text, NoMemory>
    ensures { IfOk result (λ block. block ≡ spec.answered_block issuer.now asks.now replies.now state.now.entries end.now) }
{
    let mut block = Vec::new(alloc);
    put_text(&mut block, &issuer_text(alloc, issuer)?)?;
    let told = told_of(alloc, asks, replies, state)?;
    put_text(&mut block, &told.answers)?;
    put_text(&mut block, &told.listing)?;
    put_text(&mut block, &ended_text(alloc, status_of(end))?)?;
    Ok(Text::of(block))
}
