//! What commands share: the reading of a script from a source, the text of a run that answers commands, and how a run
//! ends by its replies, by the answer of its drain and by what the sink took of its text. The commands are in
//! `shop_commands` and `many`.
//!
//! - `drains`: how a command ends by the answer of a drain, or of a day's sender
//! - `ending`: how a run ends
//! - `printed`: what is printed of a run
//! - `scripts`: reads a source as a script
//!
//! `Scripts` says how a command that reads a script ends, `Played` how a file's commands are answered, `Printed` what
//! is printed of them, `Ending` and `DrainEnds` the end by replies and by a drain's answer.
//!
//! Left to others: what each command does (`shop_commands`, `many_issuers`).
#![tactic(auto)]

mod drains;
mod ending;
mod printed;
mod scripts;

pub use drains::{end_by, fault_end, sender_lacks_memory, store_end};
pub use ending::{lacks_disk, lacks_memory, run_end};
pub use printed::{RunText, told_of};
pub use scripts::{NoScript, read_source};
