//! What a command works by.
use std::alloc::Global;

/// What every function of a command hands on: the handle of the runtime, the allocator, and the gate, which is told of each
/// command and of the lines that are noted.
#[derive_where(Clone, Copy)]
pub struct Means<'a, R, T> {
    pub rt: &'a R,
    pub alloc: Global,
    pub gate: &'a T,
}
