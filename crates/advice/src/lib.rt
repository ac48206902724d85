//! What standard error says after the first line of a fault: which word of a command line is wrong and why, the form of
//! a command, and what to do about a status that has a code. These are texts for whoever reads them: nothing is proved
//! of them but that their making is safe and ends.
//!
//! - `faults`: which word of a command line is wrong, the first from the left
//! - `forms`: the forms of the commands, for whoever called one with other words
//! - `next`: what to do about a status, in a sentence
//! - `places`: what the words of a command line stand for, and what is wrong with one
//!
//! Left to others: the first line of a fault and its status (`report`), and the printing (`program`).
#![tactic(auto)]

mod faults;
mod forms;
mod next;
mod places;

pub use faults::{fault_in, place_fault};
pub use forms::form_of;
pub use next::next_step;
pub use places::{Place, WordsFault};
