//! The shop's own check of scanned links: what the chain says of the invoice that a link names. It is no statement of
//! the agency's service. Places of records count from 1.
//!
//! - `all`: all lines, in pieces that are worked at the same time
//! - `checked`: what is checked, and what it is answered
//! - `checking`: a line that is read as a link, and held against the chain
//! - `laws`: what holds of every list of lines
//! - `texts`: the answers as they are printed
//!
//! `Checking` is the headline: what a link is answered (`answer_to`, the first that there is), what a line is
//! (`IsChecked`), and lists of them (`AreChecked`). `BeforeChain` and `Pieces` are what the parts of the code find. The
//! code asks for the last accepted record; that it is the last accepted alta where it is an alta stands in
//! `proofs/Lasts.antt`.
//!
//! Left to others: the form of a link (`verify_link`), and the reading of lines from a source (`file_commands`).
#![tactic(auto)]

mod all;
mod checked;
mod checking;
mod laws;
mod texts;

pub use all::{MAX_WORKERS, check_all, check_unbegun};
pub use checked::{Checked, CheckedList, LinkLines};
pub use checking::check_link;
pub use laws::answers_are_one;
pub use texts::checks_text;
