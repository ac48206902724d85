//! Reads the lines of a source one by one, in constant memory. A line is what stands up to an LF; the last one may lack
//! it, and is told as such. A line of more than `MAX_LINE` bytes is dropped up to its LF, and told as that. Nothing is
//! asked of the source while a whole line is at hand.
//!
//! - `chunk`: what a source gave and no line has taken yet
//! - `laws`: laws of lines
//! - `parts`: the parts of a line that come in chunks
//! - `reader`: the reader of lines
//!
//! `Lists` says what the lines of bytes are, with an LF or without, `Read` how far a reader is in them; `Lines` what
//! one call gives, `Held` what there is of the last read, by which a call's clause tells what was read ahead of it. The
//! reader keeps the front of a line apart from the 4096 bytes that it reads at a time, so each byte is looked at once.
//!
//! Left to others: what a line means (`script`, `dialogue`).
#![tactic(auto)]

mod chunk;
mod laws;
mod parts;
mod reader;

pub use chunk::CHUNK;
pub use laws::bytes_have_one_list_of_lines;
pub use reader::{LineReader, MAX_LINE, Next};
