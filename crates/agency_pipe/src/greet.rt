//! Begins a call: nothing of its message is written before the other side has answered the begin.
ghost use Rattle.std.specs.Prelude.{◌≡◌, ◌≤◌, IfOk, vec_capacity};
ghost use Rattle.serde_json.specs.View.{view};
ghost use Rattle.export.specs.Lines.{value_read};
ghost use Rattle.ports.specs.Sinks.{this_sink};
ghost use Rattle.ports.specs.Sources.{this_source};
ghost use Rattle.agency_pipe.specs.Standing.{tells_begun};
ghost use Rattle.agency_pipe.specs.Greeting.{Greets, Heeds, Steps, greeting_by, greeting_if, greeting_in};
ghost use Rattle.agency_pipe.specs.declared.reader.TheConstants.{MAX_ANSWER};

use crate::Unheard;
use crate::answer_reader::{Deaf, MOST_EARLIER};
use crate::exchange::Quiet;
use crate::reader::{Came, read_line};
use crate::standing::{Standing, standing_of};
use crate::write::write_text;
use export::{LineFault, value_of};
use ports::{NoMemory, Sink, Source};
use serde_json::Value;
use std::alloc::Global;

/// What a line is to the begin that waits for its answer.
#[derive(Clone, Copy, Debug, PartialEq, Eq)]
pub(crate) enum Greeting {
    /// The message may follow.
    Begun,
    /// The other side failed at it.
    Fault,
    /// The other side has opened the files anew.
    Hello,
    /// It is none of these.
    Other,
}

fn tells_begun(value: &Value) -> bool
    ensures { result ≡ tells_begun (view value.now) }
{
    value.get("begun").and_then(Value::as_bool).unwrap_or(false)
}

fn greeting_by(standing: Standing, begun: bool) -> Greeting
    ensures { result ≡ greeting_by standing begun }
{
    match standing {
        Standing::Hello => Greeting::Hello,
        Standing::Fault => Greeting::Fault,
        Standing::Ours if begun => Greeting::Begun,
        Standing::Ours | Standing::Earlier | Standing::Odd => Greeting::Other,
    }
}

fn greeting_in(value: &Value, number: u64) -> Greeting
    ensures { result ≡ greeting_in number (view value.now) }
{
    greeting_by(standing_of(value, number), tells_begun(value))
}

fn greeting_of(alloc: Global, line: &[u8], number: u64) -> Result<Greeting, NoMemory>
    ensures { IfOk result (λ greeting. greeting ≡ greeting_if number (value_read line.now)) }
{
    match value_of(alloc, line) {
        Ok(value) => Ok(greeting_in(&value, number)),
        Err(LineFault::NoMemory) => Err(NoMemory),
        Err(_) => Ok(Greeting::Other),
    }
}

// What the line that comes next is to the begin of this number. Of one that is too long a piece comes.
fn heed<S: Source>(
    alloc: Global,
    source: &mut S,
    text: &mut Vec<u8>,
    number: u64,
) -> Result<Greeting, Deaf>
    requires room { MAX_ANSWER ≤ vec_capacity text.old }
    ensures heeds { Heeds (this_source S.left S.faults source.old source.new) number result }
    ensures later { S.faults source.old ≤ S.faults source.new }
    ensures room { MAX_ANSWER ≤ vec_capacity text.new }
{
    match read_line(source, text) {
        Err(_) => Err(Deaf::Source),
        Ok(Came::End) => Err(Deaf::End),
        Ok(Came::TooLong) => Ok(Greeting::Other),
        Ok(Came::Line) => match greeting_of(alloc, text, number) {
            Ok(greeting) => Ok(greeting),
            Err(NoMemory) => Err(Deaf::Line(Unheard::NoMemory)),
        },
    }
}

// Whether what comes next answers the begin. At a hello the opening is written once more.
fn heed_once<S: Source, K: Sink>(
    alloc: Global,
    source: &mut S,
    sink: &mut K,
    text: &mut Vec<u8>,
    number: u64,
    opening: &[u8],
) -> Result<bool, Quiet>
    requires room { MAX_ANSWER ≤ vec_capacity text.old }
    ensures steps { Steps (this_source S.left S.faults source.old source.new) (this_sink K.taken K.faults sink.old sink.new)
        number opening.now result }
    ensures source_later { S.faults source.old ≤ S.faults source.new }
    ensures sink_later { K.faults sink.old ≤ K.faults sink.new }
    ensures room { MAX_ANSWER ≤ vec_capacity text.new }
{
    match heed(alloc, source, text, number) {
        Ok(Greeting::Begun) => Ok(true),
        Ok(Greeting::Fault) => Err(Quiet::Unbegun(Deaf::Line(Unheard::Fault))),
        Ok(Greeting::Hello) => match write_text(sink, opening) {
            Ok(()) => Ok(false),
            Err(_) => Err(Quiet::Sink),
        },
        Ok(Greeting::Other) => Ok(false),
        Err(why) => Err(Quiet::Unbegun(why)),
    }
}

/// Writes the opening, whose begin has this number, and waits until a line answers it. Whatever else comes is passed over.
pub(crate) fn greet<S: Source, K: Sink>(
    alloc: Global,
    source: &mut S,
    sink: &mut K,
    text: &mut Vec<u8>,
    number: u64,
    opening: &[u8],
) -> Result<(), Quiet>
    requires room { MAX_ANSWER ≤ vec_capacity text.old }
    ensures greets { Greets (this_source S.left S.faults source.old source.new) (this_sink K.taken K.faults sink.old sink.new)
        number opening.now result }
    ensures source_later { S.faults source.old ≤ S.faults source.new }
    ensures sink_later { K.faults sink.old ≤ K.faults sink.new }
    ensures room { MAX_ANSWER ≤ vec_capacity text.new }
{
    if let Err(_) = write_text(sink, opening) {
        return Err(Quiet::Sink);
    }
    for _ in 0..MOST_EARLIER {
        match heed_once(alloc, source, sink, text, number, opening) {
            Ok(true) => return Ok(()),
            Ok(false) => {}
            Err(why) => return Err(why),
        }
    }
    Err(Quiet::Unbegun(Deaf::Earlier))
}
