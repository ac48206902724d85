//! Reads a source as a script.
ghost use Rattle.std.specs.Prelude.{◌≡◌, IsTrue};
ghost use Rattle.ports.specs.Sources.{this_source};
ghost use Rattle.command_ends.specs.Scripts.{EndsAtFault, ScriptIs};
ghost use Rattle.command_ends.specs.Scripts as spec;

use file_commands::{InputFault, read_input};
use ports::Source;
use report::Detail;
use script::{Form, Script, ScriptFault, read_script};
use shop_core::Word;
use std::alloc::Global;

/// Why a source gave no script.
#[derive(Clone, Copy, Debug, PartialEq, Eq)]
pub enum NoScript {
    ReadFault,
    TooBig,
    BadLine { line: u32, fault: Word },
    NoMemory,
}

impl NoScript {
    /// The end of a command that was given no script.
    pub fn detail(self) -> Detail
        ensures { result ≡ spec.no_script_end self }
    {
        match self {
            NoScript::ReadFault => Detail::ReadFault,
            NoScript::TooBig => Detail::TooBig,
            NoScript::BadLine { line, fault } => Detail::Script { line, fault },
            NoScript::NoMemory => Detail::NoMemory,
        }
    }
}

/// The script of this form that the source is, which is read to its end.
pub fn read_source<S: Source>(alloc: Global, source: &mut S, form: Form) -> Result<Script, NoScript>
    //= A source is read to its end as a script, or why there is none: it gave more than 16,777,216 bytes, failed
    //= with its count of faults risen, or this is its first bad line, with its word.
    //= No body: it is of `read_input` and of `read_script`
    ensures script { ScriptIs form (this_source S.left S.faults source.old source.new) result }
    //= The first failed read ends the reading of a script, of a source that counts each.
    ensures once { IsTrue S.counts → EndsAtFault (this_source S.left S.faults source.old source.new) result }
{
    let bytes = match read_input(alloc, source) {
        Ok(bytes) => bytes,
        Err(InputFault::ReadFault) => return Err(NoScript::ReadFault),
        Err(InputFault::TooBig) => return Err(NoScript::TooBig),
        Err(InputFault::NoMemory) => return Err(NoScript::NoMemory),
    };
    match read_script(alloc, &bytes, form) {
        Ok(script) => Ok(script),
        Err(ScriptFault::BadLine { line, fault }) => Err(NoScript::BadLine { line, fault }),
        Err(ScriptFault::NoMemory) => Err(NoScript::NoMemory),
    }
}
