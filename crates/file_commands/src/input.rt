//! Reads a source to its end.
ghost use Rattle.std.specs.Prelude.{◌≡◌, ◌≤◌, IsTrue};
ghost use Rattle.ports.specs.Sources.{this_source};
ghost use Rattle.file_commands.specs.Input.{EndsAtFault, InputIs};

use ports::Source;
use std::alloc::Global;

/// The greatest input, in bytes. The limit is this project's own.
pub const MAX_INPUT: usize = 16_777_216;

/// Why a source wasn't read to its end.
#[derive(Clone, Copy, Debug, PartialEq, Eq)]
pub enum InputFault {
    ReadFault,
    TooBig,
    NoMemory,
}

/// All the bytes of a source. Each turn takes one at least.
pub fn read_input<S: Source>(alloc: Global, source: &mut S) -> Result<Vec<u8>, InputFault>
    //= A source is read to its end, or it gave more than 16,777,216 bytes, or its count of faults rose.
    //= No body: it is of `read` of the source
    ensures input { InputIs (this_source S.left S.faults source.old source.new) result }
    ensures later { S.faults source.old ≤ S.faults source.new }
    //= The first failed read ends the reading, of a source that counts each.
    ensures once { IsTrue S.counts → EndsAtFault (this_source S.left S.faults source.old source.new) result }
{
    let mut bytes = Vec::new(alloc);
    let mut buf = [0u8; 65_536];
    for _turn in 0..=MAX_INPUT {
        let Ok(count) = source.read(&mut buf) else {
            return Err(InputFault::ReadFault);
        };
        if count == 0 {
            return Ok(bytes);
        }
        if bytes.len() + count > MAX_INPUT {
            return Err(InputFault::TooBig);
        }
        if bytes.extend_from_slice(&buf[..count]).is_err() {
            return Err(InputFault::NoMemory);
        }
    }
    Err(InputFault::TooBig)
}
