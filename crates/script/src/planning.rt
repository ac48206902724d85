//! What the lines of the forms say that plan what the practice agency does.
ghost use Rattle.std.specs.Prelude.{◌≡◌};
ghost use Rattle.std.specs.Int.{IsInRange};
ghost use Rattle.script.specs.SoFar.{known};
ghost use Rattle.script.specs.Lines as spec;

use crate::fields::Fields;
use crate::limits::{MAX_CALL, MAX_CODE, MAX_LATE, MAX_NTH, MAX_WAIT};
use crate::lines::Meaning;
use crate::options::is_word;
use crate::readings::{fate_of, num, number};
use crate::scripts::SoFar;
use agency_rules::{Fate, PlannedFate, PlannedVerdict, Verdict};
use shop_core::Word;

/// Which verdict a line plans.
#[derive(Clone, Copy, Drop)]
pub enum Judging {
    Vet,
    Warn,
}

impl Judging {
    fn with(self, code: u16) -> Verdict
        ensures { result ≡ spec.verdict_of self code }
    {
        match self {
            Judging::Vet => Verdict::Vet(code),
            Judging::Warn => Verdict::Warn(code),
        }
    }
}

// `NUM N CODE`
fn verdict(read: &SoFar, judging: Judging, fields: &mut Fields) -> Result<Meaning, Word>
    ensures { result ≡ spec.verdict_said judging (known read.now) fields.old }
{
    let num = num(fields)?;
    let n = number(fields, 1, MAX_NTH, Word::Number)?;
    let code = number(fields, 1, MAX_CODE, Word::Number)?;
    fields.end()?;
    if read.verdicts.has(num, n as u32) {
        return Err(Word::Twice);
    }
    Ok(Meaning::Verdict(PlannedVerdict {
        num,
        n: n as u32,
        verdict: judging.with(code as u16),
    }))
}

// `SECONDS`
fn wait(read: &SoFar, fields: &mut Fields) -> Result<Meaning, Word>
    ensures { result ≡ spec.wait_said (known read.now) fields.old }
{
    let seconds = number(fields, 0, MAX_WAIT, Word::Number)?;
    fields.end()?;
    if read.wait.is_some() {
        return Err(Word::Twice);
    }
    Ok(Meaning::Wait {
        seconds: seconds as u32,
    })
}

// `late D`, after its word
fn late(fields: &mut Fields) -> Result<Fate, Word>
    ensures { result ≡ spec.late_said fields.old }
{
    let calls = number(fields, 1, MAX_LATE, Word::Number)?;
    fields.end()?;
    Ok(Fate::Late(calls as u32))
}

// What befalls a call, up to the end of its line.
fn fate(fields: &mut Fields) -> Result<Fate, Word>
    ensures { result ≡ spec.fate_said fields.old }
{
    let word = fields.field()?;
    if is_word(word, "late") {
        return late(fields);
    }
    let Some(fate) = fate_of(word) else {
        return Err(Word::Fate);
    };
    fields.end()?;
    Ok(fate)
}

// `CALL FATE`
fn link(read: &SoFar, fields: &mut Fields) -> Result<Meaning, Word>
    ensures { result ≡ spec.link_said (known read.now) fields.old }
{
    let call = number(fields, 1, MAX_CALL, Word::Number)?;
    let fate = fate(fields)?;
    if read.fates.has(call as u32) {
        return Err(Word::Twice);
    }
    Ok(Meaning::Link(PlannedFate {
        call: call as u32,
        fate,
    }))
}

/// What the fields past the first say, where that is `vet`, `warn`, `wait` or `link`.
pub fn planned_line(read: &SoFar, verb: &str, fields: &mut Fields) -> Result<Meaning, Word>
    ensures { result ≡ spec.planned_said (known read.now) verb.now fields.old }
{
    if is_word(verb, "vet") {
        return verdict(read, Judging::Vet, fields);
    }
    if is_word(verb, "warn") {
        return verdict(read, Judging::Warn, fields);
    }
    if is_word(verb, "wait") {
        return wait(read, fields);
    }
    if is_word(verb, "link") {
        return link(read, fields);
    }
    Err(Word::Verb)
}
