//! What the reply to a submission says of its batch: that it isn't the batch's own, that a record came before, or the
//! line of each record. Whoever sent the batch is in doubt after the first two, and asks the agency before it sends
//! anything again.
//!
//! - `sorting`: a reply, sorted
//!
//! Left to others: what is done after a reply (`sender`).
#![tactic(auto)]

mod sorting;

pub use sorting::{Sorted, sort_reply};
