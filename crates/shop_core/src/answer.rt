//! What an ask is answered: from the ask to its entry and its receipt.
pub(crate) mod making;
pub(crate) mod plans;
pub(crate) mod receipts;
pub(crate) mod refusals;
pub(crate) mod replies;
pub(crate) mod requests;

use crate::{Receipt, Refusal};
use record_codec::Entry;

/// What is to be done for an ask.
#[derive(Drop)]
pub enum Planned {
    /// The till and serial stand in the history: the kept receipt.
    Again(Receipt),
    Refused(Refusal),
    /// The entry that the history gains.
    Made(Entry),
}

/// What a till is told.
#[derive(Clone, Copy, Debug, PartialEq, Eq)]
pub enum Reply {
    Taken(Receipt),
    Again(Receipt),
    Refused(Refusal),
}
