//! What was said to an agency, and what it answered.
use crate::{AgencyFault, Reply, SeenList};
use agency_rules::Plan;
use batches::{Batch, Huellas};

/// A message to the agency and its answer.
#[derive(Drop)]
pub enum Message {
    /// A session was opened, with this plan and this many noted records.
    Begun {
        plan: Plan,
        pairs: u64,
    },
    /// A batch was handed over.
    Submitted {
        batch: Batch,
        answer: Result<Reply, AgencyFault>,
    },
    /// It was asked what stands under these Huellas, each of this record.
    Consulted {
        asked: Huellas,
        answer: Result<SeenList, AgencyFault>,
    },
}

/// A message as the practice agency keeps it. The batch of one that is late comes at the start of this call.
#[derive(Drop)]
pub struct Logged {
    pub message: Message,
    pub comes: Option<u64>,
}
