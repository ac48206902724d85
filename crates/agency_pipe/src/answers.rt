//! What the line of an answer is read as.
ghost use Rattle.std.specs.Prelude.{List, IfOk, MatchOption};
ghost use Rattle.serde_json.specs.View.{view};
ghost use Rattle.batches.specs.Batches.{huellas_of};
ghost use Rattle.agency_port.specs.Reply.{Replied};
ghost use Rattle.agency_port.specs.declared.answers.Seen.{Seen as AnySeen};
ghost use Rattle.agency_pipe.specs.Answers.{GivesReply, GivesSeen, IsReading};
ghost use Rattle.agency_pipe.specs.Steps.{HasWait, Meets, NoWait};

use crate::Unheard;
use crate::items::all_said;
use crate::standing::{Standing, standing_of};
use agency_port::{Reply, ReplyLines, SeenList};
use batches::{Batch, HuellaList, Huellas};
use export::{LineFault, value_of};
use ports::NoMemory;
use serde_json::Value;
use std::alloc::Global;

// The value of a line that answers the message of this number.
pub(crate) fn ours(alloc: Global, number: u64, line: &[u8]) -> Result<Value, Unheard>
    ensures { Meets number line.now result }
{
    let value = match value_of(alloc, line) {
        Ok(value) => value,
        Err(LineFault::NoMemory) => return Err(Unheard::NoMemory),
        Err(_) => return Err(Unheard::Json),
    };
    match standing_of(&value, number) {
        Standing::Ours => Ok(value),
        Standing::Earlier => Err(Unheard::Earlier),
        Standing::Fault => Err(Unheard::Fault),
        Standing::Hello => Err(Unheard::Hello),
        Standing::Odd => Err(Unheard::Shape),
    }
}

fn wait_in(value: &Value) -> Option<u32>
    ensures { MatchOption result (NoWait (view value.now)) (λ wait. HasWait wait (view value.now)) }
{
    let wait = value.get("wait")?.as_u64()?;
    if wait <= 0xffff_ffff {
        Some(wait as u32)
    } else {
        None
    }
}

// The reply that an object gives; None exactly where it gives none.
pub(crate) fn reply_in(
    alloc: Global,
    value: &Value,
    huellas: HuellaList,
) -> Result<Option<Reply>, NoMemory>
    ensures { IfOk result (λ reply. MatchOption reply
        ((other : Replied) → GivesReply huellas other (view value.now) → ⊥)
        (λ given. GivesReply huellas given (view value.now))) }
{
    let (Some(items), Some(wait)) = (value.get("lines"), wait_in(value)) else {
        return Ok(None);
    };
    match all_said(alloc, items, huellas.as_slice())? {
        Some(lines) => Ok(Some(Reply::of(huellas, ReplyLines::of(lines), wait))),
        None => Ok(None),
    }
}

pub(crate) fn seen_in(
    alloc: Global,
    value: &Value,
    huellas: &Huellas,
) -> Result<Option<SeenList>, NoMemory>
    ensures { IfOk result (λ seen. MatchOption seen
        ((other : List AnySeen) → GivesSeen huellas.now.huellas other (view value.now) → ⊥)
        (λ given. GivesSeen huellas.now.huellas given (view value.now))) }
{
    let Some(items) = value.get("seen") else {
        return Ok(None);
    };
    match all_said(alloc, items, huellas.as_slice())? {
        Some(list) => Ok(Some(SeenList::of(list))),
        None => Ok(None),
    }
}

/// The reply to the batch that a line gives to the message of this number.
pub fn read_reply(alloc: Global, number: u64, batch: &Batch, line: &[u8]) -> Result<Reply, Unheard>
    //= A line is read as what it says: as an answer where it is of this message's number and gives an item for each
    //= record, in order, each naming it, with a word and a code of the table, and the seconds; else as no JSON, a
    //= `hello`, an earlier message's, a fault, or out of shape, exactly one of them, out of memory aside.
    ensures { IsReading (GivesReply (huellas_of batch.now)) number line.now result }
{
    let value = ours(alloc, number, line)?;
    let huellas = HuellaList::of(alloc, batch.as_slice())?;
    match reply_in(alloc, &value, huellas)? {
        Some(reply) => Ok(reply),
        None => Err(Unheard::Shape),
    }
}

/// The answer to the consultation that a line gives to the message of this number.
pub fn read_seen(
    alloc: Global,
    number: u64,
    huellas: &Huellas,
    line: &[u8],
) -> Result<SeenList, Unheard>
    //= The answer to a consultation is read as that to a submission is: an item for each Huella, in order, each
    //= naming it.
    //= No body: it is `read_reply` with another table
    ensures { IsReading (GivesSeen huellas.now.huellas) number line.now result }
{
    let value = ours(alloc, number, line)?;
    match seen_in(alloc, &value, huellas)? {
        Some(seen) => Ok(seen),
        None => Err(Unheard::Shape),
    }
}
