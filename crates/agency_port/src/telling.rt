//! The answers that an agency was told, as they fit.
ghost use Rattle.std.specs.Prelude.{◌≡◌, IfOk};
ghost use Rattle.agency_port.specs.Telling as told_as;

use crate::fates::is_reply_to;
use crate::{AgencyFault, Reply, SeenList, ToldAnswer};
use batches::{Batch, HuellaList};
use ports::NoMemory;
use std::alloc::Global;

/// The next answer as a reply to this batch.
pub(crate) fn next_reply(
    alloc: Global,
    left: &[ToldAnswer],
    batch: &Batch,
) -> Result<Result<Reply, AgencyFault>, NoMemory>
    ensures { IfOk result (λ answer. answer ≡ told_as.submission_answer left.now batch.now) }
{
    if let [ToldAnswer::Submitted(reply), ..] = left {
        if is_reply_to(reply, batch) {
            return Ok(Ok(reply.copied(alloc)?));
        }
    }
    Ok(Err(AgencyFault::Failed))
}

/// The next answer as one for these Huellas.
pub(crate) fn next_seen(
    alloc: Global,
    left: &[ToldAnswer],
    huellas: &HuellaList,
) -> Result<Result<SeenList, AgencyFault>, NoMemory>
    ensures { IfOk result (λ answer. answer ≡ told_as.consultation_answer left.now huellas.now) }
{
    if let [ToldAnswer::Consulted(seen), ..] = left {
        if seen.as_slice().len() == huellas.as_slice().len() {
            return Ok(Ok(seen.copied(alloc)?));
        }
    }
    Ok(Err(AgencyFault::Failed))
}

/// The count of faults after an answer.
pub(crate) fn faults_after<T>(faults: u64, answer: &Result<T, AgencyFault>) -> u64
    ensures { result ≡ told_as.faults_after answer.now faults }
{
    match answer {
        Ok(_) => faults,
        Err(_) => faults.saturating_add(1),
    }
}
