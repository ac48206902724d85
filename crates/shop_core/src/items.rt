//! What a shop records, one after another.
use record_codec::Entry;

/// What a shop records: an entry of its history; or that it stopped.
#[derive(Drop)]
pub enum Item {
    /// An entry of the history.
    Entry(Entry),
    /// The disk's count of faults when it failed to keep an entry, and that entry, which may be in the file or not.
    Stop { faults: u64, torn: Entry },
}
