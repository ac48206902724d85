//! Scripts: what their lines say, or the first bad line.
ghost use Rattle.std.specs.Prelude.{◌≡◌, ◌≤◌, ◌<◌, IfOk, OnErr, ◌++◌, ◌∷◌, [], List, length, false};
ghost use Rattle.script.specs.SoFar.{IsSoFar, IsNew, Reads, known, script_kept};
ghost use Rattle.script.specs.Planned.{IsPlanned};
ghost use Rattle.script.specs.Lines.{is_command};
ghost use Rattle.script.specs.Script.{IsScript};
ghost use Rattle.script.specs.declared.forms.Form.TheVariants.{NoCommands};
ghost use Rattle.script.specs.declared.limits.TheConstants.{MAX_COMMANDS};
ghost use Rattle.script.specs.declared.lines.Meaning.{Meaning as AnyMeaning};
ghost use Rattle.script.specs.Numbered.{IsNumberedScript, Rising};

use crate::customers::Customers;
use crate::cuts::{Cuts, without_return};
use crate::faults::Fault;
use crate::forms::Form;
use crate::lines::Meaning;
use crate::numbered::{LineNumbers, number_line};
use crate::planned::{FateLines, VerdictLines};
use crate::saying::line;
use agency_rules::Plan;
use pacing::FIRST_WAIT;
use ports::NoMemory;
use record_fields::ListOf;
use shop_core::{Ask, Word};
use std::alloc::Global;

/// The asks of a script, in line order.
pub type Asks = ListOf<Ask>;

/// A script: START and STEP of its clock line, where it has one, its asks, and the plan of the practice agency.
#[derive(Drop)]
pub struct Script {
    pub clock: Option<(u64, u64)>,
    pub asks: Asks,
    pub plan: Plan,
}

/// Why there is no script.
#[derive(Clone, Copy, Debug, PartialEq, Eq)]
pub enum ScriptFault {
    /// The first line that says nothing, by its number from 1, and the first thing that is wrong in it.
    BadLine { line: u32, fault: Word },
    /// There was no memory for it.
    NoMemory,
}

impl From<NoMemory> for ScriptFault {
    ghost use Rattle.std.specs.Prelude.{◌≡◌};
    ghost use Rattle.script.specs.declared.scripts.ScriptFault.TheVariants as fault;

    ghost from_gives = { λ _ e. e ≡ fault.NoMemory };

    fn from(_: NoMemory) -> Self {
        ScriptFault::NoMemory
    }
}

/// What was read of the lines so far.
#[derive(Drop)]
pub struct SoFar {
    pub clock: Option<(u64, u64)>,
    pub customers: Customers,
    pub asks: Vec<Ask>,
    pub verdicts: VerdictLines,
    pub wait: Option<u32>,
    pub fates: FateLines,
}

impl SoFar {
    pub(crate) fn nothing(alloc: Global) -> SoFar
        ensures { IsSoFar [] result }
    {
        SoFar {
            clock: None,
            customers: Customers::new(alloc),
            asks: Vec::new(alloc),
            verdicts: VerdictLines::nothing(alloc),
            wait: None,
            fates: FateLines::nothing(alloc),
        }
    }

    // One more line that says something below the others.
    pub(crate) fn add(&mut self, line: Meaning) -> Result<(), NoMemory>
        requires { IsNew (known self.old) line }
        ensures reads { (lines : List AnyMeaning) → IsSoFar lines self.old → Reads (lines ++ line ∷ []) self.new result }
        ensures asks { is_command line ≡ false → self.new.asks ≡ self.old.asks }
        ensures err { OnErr result (known self.new ≡ known self.old) }
    {
        match line {
            Meaning::Skip => Ok(()),
            Meaning::Clock { start, step } => {
                self.clock = Some((start, step));
                Ok(())
            }
            Meaning::Customer { key, party } => {
                self.customers.add(key, party)?;
                Ok(())
            }
            Meaning::Command(ask) => {
                self.asks.push(ask)?;
                Ok(())
            }
            Meaning::Verdict(verdict) => {
                self.verdicts.add(verdict)?;
                Ok(())
            }
            Meaning::Wait { seconds } => {
                self.wait = Some(seconds);
                Ok(())
            }
            Meaning::Link(fate) => {
                self.fates.add(fate)?;
                Ok(())
            }
        }
    }

    // The script of these lines. Where none says a pause it is the agency's first.
    fn into_script(self) -> Script
        ensures { result ≡ script_kept self }
    {
        Script {
            clock: self.clock,
            asks: Asks::of(self.asks),
            plan: Plan {
                verdicts: self.verdicts.into_verdicts(),
                wait: self.wait.unwrap_or(FIRST_WAIT),
                fates: self.fates.into_fates(),
            },
        }
    }
}

/// The script of these bytes, or its first bad line: its number from 1, and the first thing that is wrong in it. It walks
/// the bytes once, and keeps the customers, the asks and the numbers of their lines alone. Line numbers are u32, so there are
/// fewer bytes than that. The grammar is this project's own: each single space or tab parts two fields of a line.
pub fn read_script(alloc: Global, bytes: &[u8], form: Form) -> Result<Script, ScriptFault>
    requires { length bytes.now < 4_294_967_295 }
    //= A script is read line after line by the whole grammar, each line after those before it; or its first bad line
    //= is named with its word, or memory ran out.
    ensures script { IsScript form bytes.now result }
    //= A script has at most 100,000 commands.
    //= No body: a command more is a bad line, which `script` says
    ensures few { IfOk result (λ script. length script.asks ≤ MAX_COMMANDS) }
    //= A plan's numbers are in their ranges, and no record has two verdicts and no call two fates.
    //= No body: a second verdict or fate is a bad line, which `script` says
    ensures plan { IfOk result (λ script. IsPlanned script.plan) }
    //= A form without commands has none.
    //= No body: what breaks it breaks `script` too
    ensures commands { form ≡ NoCommands → IfOk result (λ script. script.asks ≡ []) }
{
    let (script, _) = read_numbered(alloc, bytes, form)?;
    Ok(script)
}

/// The same, and the line of each ask.
pub fn read_numbered(
    alloc: Global,
    bytes: &[u8],
    form: Form,
) -> Result<(Script, LineNumbers), ScriptFault>
    requires { length bytes.now < 4_294_967_295 }
    ensures script { IsNumberedScript form bytes.now result }
    ensures few { IfOk result (λ read. length read.0.asks ≤ MAX_COMMANDS) }
    ensures plan { IfOk result (λ read. IsPlanned read.0.plan) }
    ensures commands { form ≡ NoCommands → IfOk result (λ read. read.0.asks ≡ []) }
    //= There is the number of a line, from 1, for each command.
    //= No body: it follows from `script`
    ensures one_each { IfOk result (λ read. length read.1 ≡ length read.0.asks) }
    //= The numbers of the commands' lines rise.
    //= No body: each is the number of the line that is being read
    ensures rising { IfOk result (λ read. Rising read.1) }
{
    let mut lines = Cuts::of(bytes, b'\n');
    let mut read = SoFar::nothing(alloc);
    let mut numbers = Vec::new(alloc);
    let mut number = 0u32;
    while let Some(text) = lines.next() {
        number += 1;
        match line(alloc, form, &read, without_return(text)) {
            Ok(line) => {
                number_line(&mut numbers, number, &line)?;
                read.add(line)?;
            }
            Err(Fault::Bad(fault)) => {
                return Err(ScriptFault::BadLine {
                    line: number,
                    fault,
                });
            }
            Err(Fault::NoMemory) => return Err(ScriptFault::NoMemory),
        }
    }
    Ok((read.into_script(), LineNumbers::of(numbers)))
}
