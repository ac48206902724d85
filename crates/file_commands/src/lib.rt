//! The commands that call nobody and change no file (`audit`, `link`, `list`, `check`, `statement`, `export`,
//! `matches`, `generate`), the reading of a source to its end, and the printing of a text. A command prints to the sink
//! that it is handed and answers its end with the status. One that reads a file does so through the disk, which it
//! gives back; `generate` has a disk of its own, in memory.
//!
//! - `answering`: the answers of scanned links, worked in pieces at the same time
//! - `auditing`: the command `audit`: prints the verdict on a file
//! - `checking`: the command `check`: answers scanned links
//! - `exporting`: the command `export`: prints a file's history as lines of JSON
//! - `generate`: the command `generate`: runs the generator's commands on a memory disk and prints the summary of the
//!   chain
//! - `generated`: the commands of the generator, which are this project's own
//! - `input`: reads a source to its end
//! - `lines`: the lines of a source
//! - `linking`: the command `link`: prints the verification link of an invoice
//! - `listing`: the command `list`: prints the listing of chosen records
//! - `matching`: the command `matches`: compares lines of JSON with a file's history
//! - `output`: writes texts to a sink
//! - `stating`: the command `statement`: prints the statement of a period, a month or a day
//!
//! One spec a command says how it ends; `Input` says how a source is read to its end, `Lines` how it is cut.
//!
//! Left to others: the words of the command line (`verifactu`), and the texts (`report`).
#![tactic(auto)]

mod answering;
mod auditing;
mod checking;
mod exporting;
mod generate;
mod generated;
mod input;
mod lines;
mod linking;
mod listing;
mod matching;
mod output;
mod stating;

pub use auditing::audit_cmd;
pub use checking::check_cmd;
pub use exporting::export_cmd;
pub use generate::generate_cmd;
pub use generated::MAX_GENERATED;
pub use input::{InputFault, MAX_INPUT, read_input};
pub use linking::link_cmd;
pub use listing::list_cmd;
pub use matching::matches_cmd;
pub use output::{print, write_texts};
pub use stating::statement_cmd;
