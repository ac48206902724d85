//! Writes a message.
ghost use Rattle.std.specs.Prelude.{◌≤◌};
ghost use Rattle.ports.specs.Sinks.{this_sink, OutputIs};

use ports::{Failed, Sink};

/// Writes all of the text; where the sink fails, a front of it. Each turn writes one byte at least.
pub(crate) fn write_text<K: Sink>(sink: &mut K, text: &[u8]) -> Result<(), Failed>
    ensures output { OutputIs (this_sink K.taken K.faults sink.old sink.new) text.now result }
    ensures later { K.faults sink.old ≤ K.faults sink.new }
{
    let mut done = 0;
    while done < text.len() {
        done += sink.write(&text[done..])?;
    }
    Ok(())
}
