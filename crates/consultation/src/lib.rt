//! What a consultation says of records that stand one after the other in a chain: the lines of those in front, and that
//! the agency hasn't seen the others. A record that was seen after one that wasn't is a hole: no agency that keeps the
//! order of the chain shows one, so its caller stops there.
//!
//! - `sorting`: the answers to a consultation, sorted
//!
//! Left to others: which records are asked for, and what is done then (`sender`).
#![tactic(auto)]

mod sorting;

pub use sorting::{SeenSorted, sort_seen};
