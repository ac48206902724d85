//! What a script says for each issuer.
use record_fields::ListOf;
use script::{LineNumbers, Script};

/// An issuer's part of a script: what it says, and the line of each ask.
#[derive(Drop)]
pub struct Part {
    pub script: Script,
    pub lines: LineNumbers,
}

/// The parts, in the order of the issuers.
pub type Parts = ListOf<Part>;
