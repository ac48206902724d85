//! No program's: tests of a copy that is told pieces of a chain, and of a store and its copy that note together.
//!
//! - `standbys`: a standby that is told pieces, and a pair that notes
#![tactic(auto)]

#[cfg(test)]
mod standbys;
