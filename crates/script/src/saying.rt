//! What a line of a script says, below those that were read.
ghost use Rattle.std.specs.Prelude.{◌≡◌, ◌+◌, Ok, Err, if◌then◌else◌};
ghost use Rattle.shop_core.specs.declared.words.Word.TheVariants as word;
ghost use Rattle.script.specs.Forms.{has_clock};
ghost use Rattle.script.specs.Fields.{fields_of};
ghost use Rattle.script.specs.SoFar.{IsSaid, known};
ghost use Rattle.script.specs.Lines as spec;

use crate::faults::{Fault, worded};
use crate::fields::{Fields, behind_third_blank};
use crate::forms::Form;
use crate::keys::Key;
use crate::limits::{MAX_COMMANDS, MAX_CUSTOMERS, MAX_START, MAX_STEP};
use crate::lines::Meaning;
use crate::options::is_word;
use crate::planning::planned_line;
use crate::readings::{key, nif, number};
use crate::requests::{RequestKind, request};
use crate::scripts::SoFar;
use parties::{Name, NameFault, Nif, Party};
use record_codec::LAST_TILL;
use shop_core::{Ask, Word};
use std::alloc::Global;

// `clock START STEP`
fn clock(read: &SoFar, fields: &mut Fields) -> Result<Meaning, Word>
    ensures { result ≡ spec.clock_said (known read.now) fields.old }
{
    let start = number(fields, 0, MAX_START, Word::Number)?;
    let step = number(fields, 0, MAX_STEP, Word::Number)?;
    fields.end()?;
    if read.clock.is_some() {
        return Err(Word::Twice);
    }
    Ok(Meaning::Clock { start, step })
}

// The same, where the form has it.
fn clock_line(form: Form, read: &SoFar, fields: &mut Fields) -> Result<Meaning, Word>
    ensures { result ≡ (if has_clock form then spec.clock_said (known read.now) fields.old else Err word.Verb) }
{
    if !form.has_clock() {
        return Err(Word::Verb);
    }
    clock(read, fields)
}

// The name of a party, after the third blank of its line.
fn name(alloc: Global, line: &str) -> Result<Name, Fault>
    ensures { IsSaid (spec.name_said line.now) result }
{
    let Some(text) = behind_third_blank(line) else {
        return Err(Fault::Bad(Word::Fields));
    };
    match Name::read(alloc, text) {
        Ok(name) => Ok(name),
        Err(fault) => match fault {
            NameFault::NoMemory => Err(Fault::NoMemory),
            _ => Err(Fault::Bad(Word::Name)),
        },
    }
}

// `customer KEY NIF NAME`
fn customer(alloc: Global, read: &SoFar, line: &str, fields: &mut Fields) -> Result<Meaning, Fault>
    ensures { IsSaid (spec.customer_said (known read.now) line.now fields.old) result }
{
    if read.customers.len() >= MAX_CUSTOMERS {
        return Err(Fault::Bad(Word::TooMany));
    }
    let key = key(fields)?;
    let nif = nif(fields)?;
    let name = name(alloc, line)?;
    if read.customers.get(key).is_some() {
        return Err(Fault::Bad(Word::Twice));
    }
    let key = Key::of(alloc, key)?;
    Ok(Meaning::Customer {
        key,
        party: Party { nif, name },
    })
}

// `TILL SERIAL`, and then what the command asks for
fn command(
    alloc: Global,
    form: Form,
    read: &SoFar,
    command: RequestKind,
    fields: &mut Fields,
) -> Result<Meaning, Fault>
    ensures { IsSaid (spec.command_said form (known read.now) command fields.old) result }
{
    if form == Form::NoCommands {
        return Err(Fault::Bad(Word::Command));
    }
    if read.asks.len() >= MAX_COMMANDS {
        return Err(Fault::Bad(Word::TooMany));
    }
    let till = number(fields, 1, LAST_TILL as u64, Word::Till)?;
    let serial = number(fields, 1, 4_294_967_295, Word::Number)?;
    match request(alloc, &read.customers, command, fields) {
        Ok(request) => Ok(Meaning::Command(Ask::new(till as u8, serial as u32, request))),
        Err(fault) => Err(fault),
    }
}

// What a line says by its first field and those after it.
fn form_line(
    alloc: Global,
    form: Form,
    read: &SoFar,
    line: &str,
    verb: &str,
    fields: &mut Fields,
) -> Result<Meaning, Fault>
    ensures { IsSaid (spec.form_said form (known read.now) line.now verb.now fields.old) result }
{
    if is_word(verb, "clock") {
        return worded(clock_line(form, read, fields));
    }
    if is_word(verb, "customer") {
        return customer(alloc, read, line, fields);
    }
    if is_word(verb, "sale") {
        return command(alloc, form, read, RequestKind::Sale, fields);
    }
    if is_word(verb, "fix") {
        return command(alloc, form, read, RequestKind::Fix, fields);
    }
    if is_word(verb, "cancel") {
        return command(alloc, form, read, RequestKind::Cancel, fields);
    }
    if !form.has_plans() {
        return Err(Fault::Bad(Word::Verb));
    }
    worded(planned_line(read, verb, fields))
}

fn fields_line(alloc: Global, form: Form, read: &SoFar, line: &str) -> Result<Meaning, Fault>
    ensures { IsSaid (spec.fields_said form (known read.now) line.now (fields_of line.now)) result }
{
    let mut fields = Fields::of(line);
    match fields.next() {
        Some(verb) => form_line(alloc, form, read, line, verb, &mut fields),
        None => Err(Fault::Bad(Word::Verb)),
    }
}

/// What a line says below those that were read. It has no carriage return at its end any more.
pub fn line(alloc: Global, form: Form, read: &SoFar, text: &[u8]) -> Result<Meaning, Fault>
    ensures { IsSaid (spec.line_said form (known read.now) text.now) result }
{
    if text.is_empty() || text[0] == b'#' {
        return Ok(Meaning::Skip);
    }
    match str::from_utf8(text) {
        Ok(text) => fields_line(alloc, form, read, text),
        Err(_) => Err(Fault::Bad(Word::Utf8)),
    }
}
