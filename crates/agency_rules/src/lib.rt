//! The agency's rules: its judgement of a record, what a delivered batch adds to the list of processed records, and
//! what the practice agency is told to do. A record is known by its Huella: one that comes again changes nothing.
//! `Pairs` is that list with its lines; a call that finds no memory says what stands in it then.
//!
//! - `indexes`: tables over the list of processed records: where a Huella stands, and the past of an invoice
//! - `judging`: the agency's line for a record, and the past of its invoice
//! - `laws`: what holds of every delivery
//! - `pairs`: the records that the agency has processed, each with its line
//! - `plans`: the plan of the practice agency
//!
//! `Judging` is the table and the past by a filter and a last match, `Pairs` what a batch adds, record by record.
//! `Indexes` is what the two indexes say of the list; it is the invariant of its type, and no other crate sees it.
//!
//! Left to others: messages and what a fate makes of them (`agency_port`).
#![tactic(auto)]

mod indexes;
mod judging;
mod laws;
mod pairs;
mod plans;

pub use judging::{Past, judge};
pub use laws::{deliveries_join, only_what_came_comes_again};
pub use pairs::{Delivered, MAX_PAIRS, Pairs};
pub use plans::{Fate, Fates, Plan, PlannedFate, PlannedVerdict, Verdict, Verdicts};
