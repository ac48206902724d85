//! Tests of the printed texts that no session of the program shows, and of the link of an invoice. There is nothing
//! here that a program calls.
//!
//! - `links`: links written and read
//! - `reports`: the lines that a till and an owner read
#![tactic(auto)]

#[cfg(test)]
mod links;
#[cfg(test)]
mod reports;
