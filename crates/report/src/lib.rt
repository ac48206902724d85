//! The printed texts: answers to commands and questions, listing, turns, summary, statement, verdict and chain line on
//! standard output, faults on standard error. Nothing is printed here: each call gives a text of whole lines, or says
//! that there was no memory for it. Fields are parted by one blank, each line ends with a line feed, and places are
//! counted from 1.
//!
//! - `answers`: the lines of answers
//! - `chosen`: the listing of chosen records of a history, and its chain line
//! - `faults`: what is printed on standard error
//! - `follows`: the line of a copy that was brought up
//! - `listing`: the listing of a history, and its chain line
//! - `matching`: the line of an export that was compared
//! - `moves`: the line of a migration
//! - `pieces`: the pieces of printed lines
//! - `posts`: the lines round what is printed of each issuer of an installation
//! - `questions`: the lines that answer questions of tills
//! - `records`: the line of a record
//! - `statements`: the text of a statement
//! - `status`: how a call of the program ends
//! - `summary`: the summary of a history: how many records of each kind, and the sums of their amounts
//! - `turns`: the lines of the sender's turns
//! - `verdicts`: the verdict on a file
//!
//! Left to others: the printing (`file_commands`, `command_ends`).
#![tactic(auto)]

mod answers;
mod chosen;
mod faults;
mod follows;
mod listing;
mod matching;
mod moves;
mod pieces;
mod posts;
mod questions;
mod records;
mod statements;
mod status;
mod summary;
mod turns;
mod verdicts;

pub use answers::{AnswerLine, Answers, answers_text};
pub use chosen::{Choice, chosen_text};
pub use faults::{fault_text, word_text};
pub use follows::followed_text;
pub use listing::listing_text;
pub use matching::matches_text;
pub use moves::migrated_text;
pub use posts::{Closed, closed_text, ended_text, issuer_text};
pub use questions::{
    chain_text, last_text, no_record_text, no_serial_text, no_ticket_text, record_text,
    ticket_text, total_lines_text,
};
pub use statements::{StatementLine, statement_text};
pub use status::{Detail, Ended, status_of};
pub use summary::summary_text;
pub use turns::turns_text;
pub use verdicts::verdict_text;
