//! The frames of a journal's file. A frame is a gate byte, the length of its body as a u32, big end first, and the body
//! of 1 to 4096 bytes. It counts where its gate is 1, and the next gate stands after it. `frame_bytes` writes what
//! follows a gate, with the next one closed; `read_frame` says what stands at a gate, of a window that is the file from
//! there on. Neither touches a disk.
//!
//! - `laws`: what holds of the frames' definitions alone
//!
//! `specs/Lengths.antt` has the lemmas on the four bytes of a length that layers above cite. `FRAME` (the longest body)
//! and `WINDOW` (a whole frame) are here.
//!
//! Left to others: the file with its header, and what is written when (`journal`).
#![tactic(auto)]

ghost use Rattle.std.specs.Prelude.{◌≡◌, ◌<◌, ◌≤◌, ◌+◌, List, ℕ, [], ◌∷◌, ◌++◌, length, take};
ghost use Rattle.frames.specs.Frames.{IsFrame, IsWithin, IsBody, frame};
ghost use Rattle.frames.specs.declared.TheConstants.{WINDOW};

mod laws;

pub use laws::{a_frame_is_five_longer, a_frame_reads_as_written, bytes_begin_with_one_frame};
use std::marker::Model;

/// How many bytes a body has at most. The least is 1.
pub const FRAME: usize = 4096;

/// How many bytes the longest frame has with its gate and the next one: a window of the file need not be longer.
pub const WINDOW: usize = FRAME + 6;

/// What stands at a gate.
#[derive(Clone, Copy, Debug, PartialEq, Eq)]
pub enum Frame {
    /// The gate is 1, and a body of this length lies after it, with the next gate.
    Counted { len: u16 },
    /// The gate isn't 1. What follows has no meaning.
    Closed,
    /// There is no gate; or it is 1, and the length is outside 1 to 4096, or the body and the next gate don't fit.
    Damaged,
}

/// A buffer of fixed room for a window, 4102 bytes.
#[derive(Drop)]
pub struct FrameBuf {
    bytes: [u8; WINDOW],
    len: usize,
}

impl Model for FrameBuf {
    ghost Value = { List ℕ };

    ghost view = { λ f. take f.len f.bytes };

    ghost invariant = { λ f. f.len ≤ WINDOW };
}

impl FrameBuf {
    /// A buffer that holds nothing.
    pub fn new() -> FrameBuf
        ensures { result ≡ [] }
    {
        FrameBuf {
            bytes: [0; WINDOW],
            len: 0,
        }
    }

    /// The bytes that it holds.
    pub fn as_slice(&self) -> &[u8]
        ensures value { result.now ≡ self.now }
        ensures fits { length self.now ≤ WINDOW }
    {
        &self.bytes[..self.len]
    }

    /// Makes it hold exactly these bytes.
    pub fn fill(&mut self, bytes: &[u8])
        requires { length bytes.now ≤ WINDOW }
        ensures { self.new ≡ bytes.now }
    {
        put_all(&mut self.bytes, bytes);
        self.len = bytes.len();
    }
}

fn put_all(room: &mut [u8], bytes: &[u8])
    requires { length bytes.now ≤ length room.old }
    ensures { take (length bytes.now) room.new ≡ bytes.now }
{
    room[..bytes.len()].copy_from_slice(bytes);
}

/// Fills the buffer with the length, the body and a closed gate byte.
pub fn frame_bytes(body: &[u8], out: &mut FrameBuf)
    requires { IsBody body.now }
    //= A frame is its body's length, greatest byte first, the body, and a closed gate.
    ensures { out.new ≡ frame body.now }
{
    put_frame(&mut out.bytes, body);
    out.len = body.len() + 5;
}

fn put_frame(room: &mut [u8], body: &[u8])
    requires size { IsBody body.now }
    requires fits { length body.now + 5 ≤ length room.old }
    ensures { take (length body.now + 5) room.new ≡ frame body.now }
{
    put_at(room, 0, &(body.len() as u32).to_be_bytes());
    put_at(room, 4, body);
    put_at(room, 4 + body.len(), &[0]);
}

fn put_at(room: &mut [u8], at: usize, bytes: &[u8])
    requires { at + length bytes.now ≤ length room.old }
    ensures { take (at + length bytes.now) room.new ≡ take at room.old ++ bytes.now }
{
    room[at..at + bytes.len()].copy_from_slice(bytes);
}

/// What stands at a gate. The window is the file from the gate on, cut after `WINDOW` bytes.
pub fn read_frame(window: &[u8]) -> Frame
    //= A window is read as a counted frame, as closed or as damaged, by the file's table.
    ensures frame { IsFrame window.now result }
    ensures within { IsWithin window.now result }
{
    let Some((gate, behind)) = window.split_first() else {
        return Frame::Damaged;
    };
    if *gate != 1 {
        return Frame::Closed;
    }
    match behind {
        [a, b, c, d, rest @ ..] => counted([*a, *b, *c, *d], rest),
        _ => Frame::Damaged,
    }
}

fn counted(head: [u8; 4], rest: &[u8]) -> Frame
    ensures frame { IsFrame ((1 ∷ head) ++ rest.now) result }
    ensures within { IsWithin ((1 ∷ head) ++ rest.now) result }
{
    let len = u32::from_be_bytes(head);
    if len >= 1 && len <= FRAME as u32 && rest.len() > len as usize {
        return Frame::Counted { len: len as u16 };
    }
    Frame::Damaged
}
