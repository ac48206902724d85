//! When a submission is due: the waiting time that the agency's replies set.
//!
//! - `pace`: the waiting time between submissions, by the tax agency's description of the submission service
//!
//! Left to others: the waiting itself (`ports`), and the calls (`sender`).
#![tactic(auto)]

mod pace;

pub use pace::{FIRST_WAIT, MAX_BATCH, Pace, WaitUntil};
