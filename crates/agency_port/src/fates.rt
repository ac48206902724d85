//! What a fate makes of a call.
ghost use Rattle.std.specs.Prelude.{◌≡◌, ◌^◌, ◌<◌, [], ◌∷◌, length, take, IfOk, OnOk};
ghost use Rattle.agency_rules.specs.Pairs.{delivered_all};
ghost use Rattle.agency_rules.specs.Plans.{fate_at};
ghost use Rattle.agency_port.specs.Practice as rows;

use crate::delivering::{deliver_answered, deliver_late, deliver_sent, look};
use crate::{AgencyFault, Logged, Message, Reply, ReplyLines, SeenList};
use agency_rules::{Fate, Pairs, Plan, Verdicts};
use batches::{Batch, HuellaList};
use ports::NoMemory;
use std::alloc::Global;

/// Whether the caller learns of it by the count of faults.
pub(crate) fn is_faulty(fate: Option<Fate>) -> bool
    ensures { result ≡ rows.is_faulty fate }
{
    match fate {
        None | Some(Fate::Again) => false,
        Some(Fate::Lost) | Some(Fate::Taken) | Some(Fate::Stale) | Some(Fate::Late(_)) => true,
    }
}

/// The call at whose start a batch that is late comes.
pub(crate) fn comes_at(fate: Option<Fate>, call: u64) -> Option<u64>
    requires { call < 2 ^ 63 }
    ensures { result ≡ rows.comes_at fate call }
{
    match fate {
        Some(Fate::Late(calls)) => Some(call + u64::from(calls.max(1))),
        None | Some(Fate::Lost) | Some(Fate::Taken) | Some(Fate::Stale) | Some(Fate::Again) => None,
    }
}

// What comes before the call's own batch: the late ones, and with `again` all that were handed over.
fn deliver_before(
    alloc: Global,
    verdicts: &Verdicts,
    pairs: &mut Pairs,
    log: &[Logged],
    call: u64,
    fate: Option<Fate>,
) -> Result<(), NoMemory>
    ensures ok { OnOk result (pairs.new ≡ delivered_all verdicts.now
        (delivered_all verdicts.now pairs.old (rows.late_for call log.now))
        (rows.again_before fate (rows.sent_in log.now))) }
    ensures front { take (length pairs.old) pairs.new ≡ pairs.old }
{
    deliver_late(alloc, verdicts, pairs, log, call)?;
    match fate {
        Some(Fate::Again) => deliver_sent(alloc, verdicts, pairs, log),
        None | Some(Fate::Lost) | Some(Fate::Taken) | Some(Fate::Stale) | Some(Fate::Late(_)) => Ok(
            (),
        ),
    }
}

/// The same, by the fate of the call, and this fate.
pub(crate) fn fate_before(
    alloc: Global,
    plan: &Plan,
    pairs: &mut Pairs,
    log: &[Logged],
    call: u64,
) -> Result<Option<Fate>, NoMemory>
    ensures fate { IfOk result (λ fate. fate ≡ fate_at plan.now.fates call) }
    ensures ok { IfOk result (λ fate. pairs.new ≡ delivered_all plan.now.verdicts
        (delivered_all plan.now.verdicts pairs.old (rows.late_for call log.now))
        (rows.again_before fate (rows.sent_in log.now))) }
    ensures front { take (length pairs.old) pairs.new ≡ pairs.old }
{
    let fate = plan.fates.at(call);
    deliver_before(alloc, &plan.verdicts, pairs, log, call, fate)?;
    Ok(fate)
}

// The batch comes and is answered.
fn reply_to(alloc: Global, plan: &Plan, pairs: &mut Pairs, batch: &Batch) -> Result<Reply, NoMemory>
    ensures said { IfOk result (λ reply. reply ≡ rows.reply_by plan.now pairs.old batch.now) }
    ensures ok { OnOk result (pairs.new ≡ delivered_all plan.now.verdicts pairs.old (batch.now ∷ [])) }
    ensures front { take (length pairs.old) pairs.new ≡ pairs.old }
{
    let huellas = HuellaList::of(alloc, batch.as_slice())?;
    let lines = deliver_answered(alloc, &plan.verdicts, pairs, batch.as_slice())?;
    Ok(Reply::of(huellas, lines, plan.wait))
}

// The reply that a message was answered with.
fn reply_in(alloc: Global, message: &Message) -> Result<Option<Reply>, NoMemory>
    ensures { IfOk result (λ reply. reply ≡ rows.reply_in_message message.now) }
{
    match message {
        Message::Submitted { answer, .. } => match answer {
            Ok(reply) => Ok(Some(reply.copied(alloc)?)),
            Err(_) => Ok(None),
        },
        Message::Begun { .. } | Message::Consulted { .. } => Ok(None),
    }
}

// The last reply, looked for from the end.
fn last_reply(alloc: Global, log: &[Logged]) -> Result<Option<Reply>, NoMemory>
    ensures { IfOk result (λ reply. reply ≡ rows.last_reply log.now) }
{
    let mut rest = log;
    while let Some((last, before)) = rest.split_last() {
        match reply_in(alloc, &last.message)? {
            Some(reply) => return Ok(Some(reply)),
            None => rest = before,
        }
    }
    Ok(None)
}

fn empty_reply(alloc: Global, wait: u32) -> Result<Reply, NoMemory>
    ensures { IfOk result (λ reply. reply ≡ rows.empty_reply wait) }
{
    let huellas = HuellaList::of(alloc, &[])?;
    Ok(Reply::of(huellas, ReplyLines::of(Vec::new(alloc)), wait))
}

/// Whether the reply names exactly the batch's Huellas, in order.
pub(crate) fn is_reply_to(reply: &Reply, batch: &Batch) -> bool
    ensures { result ≡ rows.is_reply_to reply.now batch.now }
{
    reply.huellas().are_of(batch.as_slice())
}

// The reply that was given last, unless it would be taken for this batch's.
fn stale_answer(
    alloc: Global,
    log: &[Logged],
    wait: u32,
    batch: &Batch,
) -> Result<Result<Reply, AgencyFault>, NoMemory>
    ensures { IfOk result (λ answer. answer ≡ rows.stale_by log.now wait batch.now) }
{
    let reply = match last_reply(alloc, log)? {
        Some(reply) => reply,
        None => empty_reply(alloc, wait)?,
    };
    if is_reply_to(&reply, batch) {
        Ok(Err(AgencyFault::Failed))
    } else {
        Ok(Ok(reply))
    }
}

/// The call's own batch comes where its fate says so, and this is the answer.
pub(crate) fn answer_to(
    alloc: Global,
    plan: &Plan,
    pairs: &mut Pairs,
    log: &[Logged],
    fate: Option<Fate>,
    batch: &Batch,
) -> Result<Result<Reply, AgencyFault>, NoMemory>
    ensures said { IfOk result (λ answer. answer ≡ rows.answer_by fate plan.now pairs.old log.now batch.now) }
    ensures ok { OnOk result (pairs.new ≡ delivered_all plan.now.verdicts pairs.old (rows.own_of fate batch.now)) }
    ensures front { take (length pairs.old) pairs.new ≡ pairs.old }
{
    match fate {
        None | Some(Fate::Again) => Ok(Ok(reply_to(alloc, plan, pairs, batch)?)),
        Some(Fate::Taken) => {
            pairs.deliver(alloc, &plan.verdicts, batch.as_slice())?;
            Ok(Err(AgencyFault::Failed))
        }
        Some(Fate::Stale) => {
            pairs.deliver(alloc, &plan.verdicts, batch.as_slice())?;
            stale_answer(alloc, log, plan.wait, batch)
        }
        Some(Fate::Lost) | Some(Fate::Late(_)) => Ok(Err(AgencyFault::Failed)),
    }
}

/// The answer to a consultation after all that came before it.
pub(crate) fn seen_by(
    alloc: Global,
    pairs: &Pairs,
    fate: Option<Fate>,
    huellas: &HuellaList,
) -> Result<Result<SeenList, AgencyFault>, NoMemory>
    ensures { IfOk result (λ answer. answer ≡ rows.seen_by fate pairs.now huellas.now) }
{
    if is_faulty(fate) {
        return Ok(Err(AgencyFault::Failed));
    }
    Ok(Ok(look(alloc, pairs, huellas.as_slice())?))
}

/// The count of faults after a call.
pub(crate) fn faults_after(faults: u64, fate: Option<Fate>) -> u64
    ensures { result ≡ rows.faults_by fate faults }
{
    if is_faulty(fate) {
        faults.saturating_add(1)
    } else {
        faults
    }
}

/// The same answer, in memory of its own.
pub(crate) fn copied_reply(
    alloc: Global,
    answer: &Result<Reply, AgencyFault>,
) -> Result<Result<Reply, AgencyFault>, NoMemory>
    ensures { IfOk result (λ copy. copy ≡ answer.now) }
{
    match answer {
        Ok(reply) => Ok(Ok(reply.copied(alloc)?)),
        Err(why) => Ok(Err(*why)),
    }
}

/// The same of a consultation.
pub(crate) fn copied_seen(
    alloc: Global,
    answer: &Result<SeenList, AgencyFault>,
) -> Result<Result<SeenList, AgencyFault>, NoMemory>
    ensures { IfOk result (λ copy. copy ≡ answer.now) }
{
    match answer {
        Ok(seen) => Ok(Ok(seen.copied(alloc)?)),
        Err(why) => Ok(Err(*why)),
    }
}
