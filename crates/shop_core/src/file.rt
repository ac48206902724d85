//! What a file of a history stands for: its reading frame by frame, the laws on it, and the verdict of an audit.
pub(crate) mod audits;
pub(crate) mod laws;
pub(crate) mod reading;
