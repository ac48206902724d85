//! What the threads of a day pass.
use std::sync::Wait;

/// Each till is asked ahead of a command and after it, and the sender after each turn that noted lines. It may hold
/// whoever asks, and changes nothing else.
pub trait Gate {
    /// Ahead of a till's command. It may wait.
    fn before<R: Wait>(&self, rt: &R, till: u8, serial: u32);

    /// Once that command is answered.
    fn after<R>(&self, rt: &R, till: u8, serial: u32);

    /// Once the sender has noted this many lines in a turn.
    fn noted<R>(&self, rt: &R, count: u32);
}

/// A gate that holds nobody.
#[derive(Clone, Copy, Debug)]
pub struct OpenGate;

impl Gate for OpenGate {
    fn before<R: Wait>(&self, _rt: &R, _till: u8, _serial: u32) {}

    fn after<R>(&self, _rt: &R, _till: u8, _serial: u32) {}

    fn noted<R>(&self, _rt: &R, _count: u32) {}
}
