//! What is sent to the agency: batches of linked records, and the Huellas that a consultation asks for. Whoever cuts a
//! batch has to know that its records are linked: those of one chain are, and `are_linked` is the test.
//!
//! - `asked`: what a consultation asks for
//! - `batch`: a batch of records
//! - `huellas`: lists of Huellas
//! - `links`: records that name the one before them
//!
//! `LinkedRun` is that of `record_fields` (`Links`).
//!
//! Left to others: which records wait (`once_world`), and when a batch is due (`pacing`).
#![tactic(auto)]

mod asked;
mod batch;
mod huellas;
mod links;

pub use asked::{Huellas, RecordId, Sort, record_id};
pub use batch::{Batch, Batches};
pub use huellas::HuellaList;
pub use links::are_linked;
