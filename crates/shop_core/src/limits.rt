//! The limits of a history. They are this project's own.

/// The most records that a history has.
pub const MAX_RECORDS: u32 = 1_000_000;

/// The most entries that a history has: its records, and the notes, of one line at least, of each.
pub const MAX_ENTRIES: u64 = 2_000_000;
