//! What an invoice may need.

/// Whether a part of an invoice is to be there.
#[derive(Clone, Copy, Debug, PartialEq, Eq)]
pub enum Need {
    /// It must be there.
    Must,
    /// It may be there.
    May,
    /// It may not be there.
    Never,
}

/// What a kind needs: a customer, a rectification kind, and references to earlier invoices.
#[derive(Clone, Copy, Debug, PartialEq, Eq)]
pub struct Needs {
    pub customer: Need,
    pub rect: Need,
    pub refs: Need,
}
