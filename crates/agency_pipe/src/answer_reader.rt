//! Reads the answer to a message.
ghost use Rattle.std.specs.Prelude.{◌≤◌, vec_capacity};
ghost use Rattle.ports.specs.Sources.{this_source};
ghost use Rattle.agency_pipe.specs.Hearing.{Hears, IsHeard};
ghost use Rattle.agency_pipe.specs.declared.reader.TheConstants.{MAX_ANSWER};

use crate::Unheard;
use crate::answers::ours;
use crate::reader::{Came, read_line};
use ports::Source;
use serde_json::Value;
use std::alloc::Global;

/// How many lines may be passed over for one answer: an answer is among the first `MOST_EARLIER` lines. The limit is this project's own.
pub const MOST_EARLIER: u32 = 1024;

/// Why no answer was heard.
#[derive(Clone, Copy, Debug, PartialEq, Eq)]
pub enum Deaf {
    /// The source failed.
    Source,
    /// It ended, in mid-line perhaps.
    End,
    /// A line is too long.
    TooLong,
    /// A line is no answer.
    Line(Unheard),
    /// As many lines were passed over as may be.
    Earlier,
}

// The value of a line that answers the message of this number. An empty line is passed over.
#[tactic(auto, using(crate::proofs::Hearings::heard))]
fn heard_in(alloc: Global, number: u64, line: &[u8]) -> Result<Value, Unheard>
    ensures { IsHeard number line.now result }
{
    if line.is_empty() {
        Err(Unheard::Earlier)
    } else {
        ours(alloc, number, line)
    }
}

/// The value of the line that answers the message of this number. Empty lines and those that answer earlier messages are passed over.
pub(crate) fn read_answer<S: Source>(
    alloc: Global,
    source: &mut S,
    text: &mut Vec<u8>,
    number: u64,
) -> Result<Value, Deaf>
    requires room { MAX_ANSWER ≤ vec_capacity text.old }
    ensures hears { Hears (this_source S.left S.faults source.old source.new) number result }
    ensures room { MAX_ANSWER ≤ vec_capacity text.new }
{
    for _ in 0..MOST_EARLIER {
        match read_line(source, text) {
            Err(_) => return Err(Deaf::Source),
            Ok(Came::End) => return Err(Deaf::End),
            Ok(Came::TooLong) => return Err(Deaf::TooLong),
            Ok(Came::Line) => match heard_in(alloc, number, text) {
                Ok(value) => return Ok(value),
                Err(Unheard::Earlier) => {}
                Err(why) => return Err(Deaf::Line(why)),
            },
        }
    }
    Err(Deaf::Earlier)
}
