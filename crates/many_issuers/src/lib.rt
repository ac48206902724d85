//! Several issuers in one run: a script in sections, and a post for each issuer. The files are opened, the commands are
//! answered by an office of stores (crate `issuers`), and at the same time the agencies' sessions are opened and the
//! files drained. What becomes of an issuer depends on its own part and its own post alone.
//!
//! - `command`: the command `many`: several issuers in one installation, each with its own part of the script and its
//!   own file
//! - `ending`: how an issuer of an installation ends, and the block that is printed of it
//! - `joining`: each issuer's file, its store and its part, together again
//! - `opening`: the files of several issuers, opened one after another
//! - `own_clock`: the clock of an issuer's commands
//! - `printing`: what is printed of several issuers, how the run of them ends, and their posts again
//! - `reading`: reads a source as a script for several issuers
//! - `running`: the run of several issuers, each by its own clock
//! - `serving`: the commands of several issuers, answered by the stores of those whose files were opened
//! - `working`: what is done of each issuer after the commands: its agency's session, the drain, its end and its block
//!
//! Files are opened from the last to the first, since lists are taken from their ends. A job is a struct of two
//! options, what is to be done and what was: threads share nothing. Specs: `Ends` is the headline, a row an issuer;
//! `Lasting` what lasts of file and agency.
//!
//! Left to others: what a store answers (`issuers`), and the words of the command line (`verifactu`).
#![tactic(auto)]

mod command;
mod ending;
mod joining;
mod opening;
mod own_clock;
mod printing;
mod reading;
mod running;
mod serving;
mod working;

pub use command::many_cmd;
