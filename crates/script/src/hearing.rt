//! Lines that are said one by one.
ghost use Rattle.std.specs.Prelude.{◌≡◌, []};

use crate::cuts::without_return;
use crate::faults::Fault;
use crate::forms::Form;
use crate::lines::Meaning;
use crate::saying::line;
use crate::scripts::SoFar;
use ports::NoMemory;
use std::alloc::Global;

/// What lines that are said one by one leave: a clock, customers and plans. A command leaves nothing.
#[derive(Drop)]
pub struct Heard {
    read: SoFar,
    ghost no_asks: { read.asks.items ≡ [] },
}

impl Heard {
    ghost use Rattle.std.specs.Prelude.{◌≡◌, ◌++◌, [], List, IfOk, OnErr, OnOk};
    ghost use Rattle.std.specs.Str.Lines.{strip_carriage_return};
    ghost use Rattle.script.specs.Heard.{IsIn, kept_in, known_of};
    ghost use Rattle.script.specs.Lines as spec;
    ghost use Rattle.script.specs.Lines.{above_of};
    ghost use Rattle.script.specs.SoFar.{IsNew, IsSaid};
    ghost use Rattle.script.specs.declared.lines.Meaning.{Meaning as AnyMeaning};

    pub fn nothing(alloc: Global) -> Heard
        ensures { known_of result ≡ above_of [] }
    {
        Heard {
            read: SoFar::nothing(alloc),
        }
    }

    /// What a line says after those, one CR at its end dropped.
    pub fn say(&self, alloc: Global, form: Form, text: &[u8]) -> Result<Meaning, Fault>
        //= A line that is said by itself is read by the same grammar, after those that were kept.
        //= No body: it is the line reader of `read_script`, with its bodies
        ensures said { IsSaid (spec.line_said form (known_of self.now) (strip_carriage_return text.now)) result }
        ensures new { IfOk result (λ meaning. IsNew (known_of self.now) meaning) }
        //= Nothing is said that the form lacks.
        //= No body: what breaks it breaks `said` too
        ensures form { IfOk result (λ meaning. IsIn form meaning) }
    {
        line(alloc, form, &self.read, without_return(text))
    }

    /// Keeps what a line said. Without memory all that was known stays so.
    pub fn keep(&mut self, meaning: Meaning) -> Result<(), NoMemory>
        requires { IsNew (known_of self.old) meaning }
        //= What a line said is kept for the lines after it.
        //= No body: it is the loop's step of `read_script`, with its bodies
        ensures ok { (before : List AnyMeaning) → known_of self.old ≡ above_of before →
            OnOk result (known_of self.new ≡ above_of (before ++ kept_in meaning)) }
        //= Without memory all that was known stays so.
        ensures err { OnErr result (known_of self.new ≡ known_of self.old) }
    {
        if meaning.is_command() {
            return Ok(());
        }
        self.read.add(meaning)
    }
}
