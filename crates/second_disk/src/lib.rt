//! A shop's file and the same on a second disk, brought level before a run, and then written as one: whichever of the
//! two is left goes on as the chain.
//!
//! - `causes`: why a second file can't stand beside a first one
//! - `lasting`: the law that what lasts of the mirror lasts of either half
//! - `levelling`: brings two files level
//! - `opening`: opens both files, and begins those that aren't begun
//!
//! Left to others: both as one disk (`mirror_disk`), and the writing behind a gate (`journal`).
#![tactic(auto)]

mod causes;
mod lasting;
mod levelling;
mod opening;

pub use causes::{Half, LevelCause};
pub use lasting::each_half_goes_on;
pub use levelling::{NotLevel, level};
