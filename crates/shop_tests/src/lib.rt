//! Tests of a shop as its tills and its sender see it: the world of events, two tills over one store, and the pages to
//! copy. There is nothing here that a program calls.
//!
//! - `tills`: tills that ask in turns and at the same time, and what they were told
//! - `uses_tests`: Huellas are SHA-256, by another program, of the records' field texts
//! - `worlds`: a shop and what came of it at the agency, step by step
#![tactic(auto)]

#[cfg(test)]
mod tills;
#[cfg(test)]
mod uses_tests;
#[cfg(test)]
mod worlds;
