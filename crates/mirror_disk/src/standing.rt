//! How a mirror stands.

/// Whether a mirror goes on, and what it tells where it doesn't.
#[derive(Clone, Copy, Debug, PartialEq, Eq)]
pub enum Standing {
    /// Each call so far was done by both halves.
    Whole,
    /// The first half failed in a call, or the second half in a write. The mirror tells what the first half tells.
    Broken,
    /// The first half was synced and the second was not. The mirror tells what the second half tells.
    HalfSynced,
}
