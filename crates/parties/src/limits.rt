//! How much one installation takes. The limit is this project's own.

/// The most issuers of one installation: stores of an office, and pairs of a file and a tax number among words.
pub const MAX_ISSUERS: usize = 8;
