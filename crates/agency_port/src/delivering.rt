//! What comes to an agency, and what it answers.
ghost use Rattle.std.specs.Prelude.{◌≡◌, ◌+◌, length, take, option_to_list, IfOk, OnOk};
ghost use Rattle.agency_rules.specs.Pairs.{delivered, delivered_all};
ghost use Rattle.agency_port.specs.Answers as spec;
ghost use Rattle.agency_port.specs.Messages.{batch_in};
ghost use Rattle.agency_port.specs.Practice as rows;

use crate::answers::{reply_line, seen_of};
use crate::{Logged, Message, ReplyLines, SeenList};
use agency_rules::{Pairs, Verdicts};
use batches::HuellaList;
use ports::NoMemory;
use record_fields::Sealed;
use std::alloc::Global;

/// A batch comes, and each of its records is answered. Without memory a front of it may have come.
pub(crate) fn deliver_answered(
    alloc: Global,
    verdicts: &Verdicts,
    pairs: &mut Pairs,
    batch: &[Sealed],
) -> Result<ReplyLines, NoMemory>
    ensures said { IfOk result (λ lines. lines ≡ spec.answers verdicts.now pairs.old batch.now) }
    ensures ok { OnOk result (pairs.new ≡ delivered verdicts.now pairs.old batch.now) }
    ensures front { take (length pairs.old) pairs.new ≡ pairs.old }
{
    let mut lines = Vec::new(alloc);
    for i in 0..batch.len() {
        let met = pairs.deliver_record(alloc, verdicts, &batch[i])?;
        lines.push(reply_line(met))?;
    }
    Ok(ReplyLines::of(lines))
}

// The batch of a message comes.
fn deliver_message(
    alloc: Global,
    verdicts: &Verdicts,
    pairs: &mut Pairs,
    message: &Message,
) -> Result<(), NoMemory>
    ensures ok { OnOk result (pairs.new ≡ delivered_all verdicts.now pairs.old (option_to_list (batch_in message.now))) }
    ensures front { take (length pairs.old) pairs.new ≡ pairs.old }
{
    match message {
        Message::Submitted { batch, .. } => pairs.deliver(alloc, verdicts, batch.as_slice()),
        Message::Begun { .. } | Message::Consulted { .. } => Ok(()),
    }
}

/// All batches that were handed over come once more, in order.
pub(crate) fn deliver_sent(
    alloc: Global,
    verdicts: &Verdicts,
    pairs: &mut Pairs,
    log: &[Logged],
) -> Result<(), NoMemory>
    ensures ok { OnOk result (pairs.new ≡ delivered_all verdicts.now pairs.old (rows.sent_in log.now)) }
    ensures front { take (length pairs.old) pairs.new ≡ pairs.old }
{
    for i in 0..log.len() {
        deliver_message(alloc, verdicts, pairs, &log[i].message)?;
    }
    Ok(())
}

// The batch of a message comes where it is late until this call.
fn deliver_if_late(
    alloc: Global,
    verdicts: &Verdicts,
    pairs: &mut Pairs,
    logged: &Logged,
    call: u64,
) -> Result<(), NoMemory>
    ensures ok { OnOk result (pairs.new ≡ delivered_all verdicts.now pairs.old (option_to_list (rows.late_in call logged.now))) }
    ensures front { take (length pairs.old) pairs.new ≡ pairs.old }
{
    if is_late(logged, call) {
        deliver_message(alloc, verdicts, pairs, &logged.message)
    } else {
        Ok(())
    }
}

fn is_late(logged: &Logged, call: u64) -> bool
    ensures { result ≡ rows.is_late call logged.now }
{
    match logged.comes {
        None => false,
        Some(at) => at == call,
    }
}

/// The batches that are late until this call come, in the order in which they were handed over.
pub(crate) fn deliver_late(
    alloc: Global,
    verdicts: &Verdicts,
    pairs: &mut Pairs,
    log: &[Logged],
    call: u64,
) -> Result<(), NoMemory>
    ensures ok { OnOk result (pairs.new ≡ delivered_all verdicts.now pairs.old (rows.late_for call log.now)) }
    ensures front { take (length pairs.old) pairs.new ≡ pairs.old }
{
    for i in 0..log.len() {
        deliver_if_late(alloc, verdicts, pairs, &log[i], call)?;
    }
    Ok(())
}

/// What stands under each Huella.
pub(crate) fn look(alloc: Global, pairs: &Pairs, huellas: &[[u8; 32]]) -> Result<SeenList, NoMemory>
    ensures { IfOk result (λ seen. seen ≡ spec.looked pairs.now huellas.now) }
{
    let mut seen = Vec::new(alloc);
    for i in 0..huellas.len() {
        seen.push(seen_of(pairs.line_of(&huellas[i])))?;
    }
    Ok(SeenList::of(seen))
}
