//! Statements of a period, a month or a day: how many lines of the invoices that are held have each key, and the sums
//! of their amounts. A `Ledger` holds a shop's history and keeps the rows of every month with it, entry by entry.
//!
//! - `laws`: what holds of all statements
//! - `ledger`: a history with the rows of every month
//! - `months`: months of which statements are made
//! - `periods`: periods of which statements are made, and the rows of one
//! - `plans`: what an entry changes in the months' rows
//! - `postings`: what is put into the months' rows, and taken out of them
//! - `rows`: the rows of a month
//!
//! `Statement` is the headline, `Rows` what rows of lines are; `Periods` says the statement of a month or a day,
//! `Daily` that a month's is its days'; `Postings` what an entry puts in and takes out of each month. A ledger keeps a
//! state and the rows of 924 months, and its invariant is that they are those of the whole history.
//!
//! Left to others: the text (`report`), and the command (`file_commands`).
#![tactic(auto)]

mod laws;
mod ledger;
mod months;
mod periods;
mod plans;
mod postings;
mod rows;

pub use laws::{a_month_is_its_days, a_statement_is_of_invoices, a_statement_is_one};
pub use ledger::Ledger;
pub use months::Month;
pub use periods::{Period, rows_of};
pub use rows::{Row, Rows};
