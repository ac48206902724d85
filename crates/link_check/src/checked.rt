//! What is checked, and what it is answered.
use record_fields::{Bytes, ListOf};
use verify_link::LinkFault;

/// What a line is answered: the first that holds of `NotText`, `BadLink`, `OtherIssuer`, `Unknown`, `Cancelled` and `Refused`,
/// and else `Found` or `Differs`.
#[derive(Clone, Copy, Debug, PartialEq, Eq)]
pub enum Checked {
    /// The invoice is held by the alta at this place, which has the link's total.
    Found { place: u32 },
    /// It is held by the alta at this place, which has another total.
    Differs { place: u32 },
    /// The record at this place cancelled it.
    Cancelled { place: u32 },
    /// Each record of it was refused.
    Refused,
    /// No alta of the chain has the link's number and day.
    Unknown,
    /// The link's tax number isn't the chain's.
    OtherIssuer,
    /// The line is no link. It is never lack of memory.
    BadLink(LinkFault),
    /// The line isn't UTF-8.
    NotText,
}

/// Lines, each to be read as a link.
pub type LinkLines = ListOf<Bytes>;

/// The answers of lines, in their order.
pub type CheckedList = ListOf<Checked>;
