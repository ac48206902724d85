//! Reads a source as a script for several issuers.
ghost use Rattle.std.specs.Prelude.{◌≡◌, All, IfOk, IsTrue, length};
ghost use Rattle.ports.specs.Sources.{this_source};
ghost use Rattle.command_ends.specs.Scripts.{EndsAtFault};
ghost use Rattle.issuers.specs.Parts.{HasLines};
ghost use Rattle.many_issuers.specs.Scripts.{PartsRead};

use command_ends::NoScript;
use file_commands::{InputFault, read_input};
use issuers::{Parts, read_many};
use parties::Nif;
use ports::Source;
use script::ScriptFault;
use std::alloc::Global;

/// The parts of the script that the source is, one for each of these issuers. The source is read to its end.
pub fn read_parts<S: Source>(
    alloc: Global,
    issuers: &[Nif],
    source: &mut S,
) -> Result<Parts, NoScript>
    ensures parts { PartsRead issuers.now (this_source S.left S.faults source.old source.new) result }
    ensures once { IsTrue S.counts → EndsAtFault (this_source S.left S.faults source.old source.new) result }
    ensures one_each { IfOk result (λ parts. length parts ≡ length issuers.now) }
    ensures lines { IfOk result (λ parts. All HasLines parts) }
{
    let bytes = match read_input(alloc, source) {
        Ok(bytes) => bytes,
        Err(InputFault::ReadFault) => return Err(NoScript::ReadFault),
        Err(InputFault::TooBig) => return Err(NoScript::TooBig),
        Err(InputFault::NoMemory) => return Err(NoScript::NoMemory),
    };
    match read_many(alloc, &bytes, issuers) {
        Ok(parts) => Ok(parts),
        Err(ScriptFault::BadLine { line, fault }) => Err(NoScript::BadLine { line, fault }),
        Err(ScriptFault::NoMemory) => Err(NoScript::NoMemory),
    }
}
