//! Tests of the agency at the end of two streams, as whoever hands it streams meets it. There is nothing here that a
//! program calls.
//!
//! - `lines`: messages and answers, a line each
//! - `patience`: pauses before calls that follow failed ones, by a clock of the test's own
//! - `sales`: a sale, and what is said of it
//! - `streams`: an agency over streams in memory
#![tactic(auto)]

#[cfg(test)]
mod lines;
#[cfg(test)]
mod patience;
#[cfg(test)]
mod sales;
#[cfg(test)]
mod streams;
