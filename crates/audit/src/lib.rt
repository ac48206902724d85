//! The verdict on a shop's file: the legal history that it stands for, or its first break.
//!
//! - `auditing`: the verdict on a file, from what is read of it
//! - `faults`: why there is no verdict
//! - `laws`: what holds of verdicts by their definition alone
//!
//! The verdict's type, `AuditEnd`, is that of `shop_core`.
//!
//! Left to others: the reading of the file and the rules on it (`shop_core`), and the verdict's text (`report`).
#![tactic(auto)]

mod auditing;
mod faults;
mod laws;

pub use auditing::audit;
pub use faults::AuditFault;
pub use laws::{a_file_has_one_verdict, a_verdict_tells_what_a_file_is};
