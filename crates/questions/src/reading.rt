//! A line that is read as a question.
ghost use Rattle.std.specs.Prelude.{◌≡◌, drop, OnOk};
ghost use Rattle.script.specs.Fields.{fields_of};
ghost use Rattle.questions.specs.Reading as spec;

use crate::{QuestionFault, TillQuestion};
use record_codec::LAST_TILL;
use script::{Fields, cents, class, num, number};
use shop_core::Word;
use verify_link::Host;

// The first word of a question.
#[derive(Clone, Copy, PartialEq, Eq)]
enum Verb {
    Ticket,
    Record,
    Serial,
    Last,
    Lines,
    Chain,
}

fn verb_of(text: &str) -> Option<Verb>
    ensures { result ≡ spec.verb_in text.now }
{
    match text {
        "ticket" => Some(Verb::Ticket),
        "record" => Some(Verb::Record),
        "serial" => Some(Verb::Serial),
        "last" => Some(Verb::Last),
        "lines" => Some(Verb::Lines),
        "chain" => Some(Verb::Chain),
        _ => None,
    }
}

fn host_of(text: &str) -> Option<Host>
    ensures { result ≡ spec.host_in text.now }
{
    match text {
        "real" => Some(Host::Real),
        "test" => Some(Host::Practice),
        _ => None,
    }
}

fn host(fields: &mut Fields) -> Result<Host, QuestionFault>
    ensures value { result ≡ spec.host_at fields.old }
    ensures rest { OnOk result (fields.new ≡ drop 1 fields.old) }
{
    let name = fields.field()?;
    match host_of(name) {
        Some(host) => Ok(host),
        None => Err(QuestionFault::Host),
    }
}

// `NUM HOST`
fn ticket(fields: &mut Fields) -> Result<TillQuestion, QuestionFault>
    ensures { result ≡ spec.ticket_said fields.old }
{
    let num = num(fields)?;
    let host = host(fields)?;
    fields.end()?;
    Ok(TillQuestion::Ticket { num, host })
}

// `PLACE`
fn record(fields: &mut Fields) -> Result<TillQuestion, QuestionFault>
    ensures { result ≡ spec.record_said fields.old }
{
    let place = number(fields, 1, 4_294_967_295, Word::Number)?;
    fields.end()?;
    Ok(TillQuestion::Record {
        place: place as u32,
    })
}

// `TILL SERIAL`
fn serial(fields: &mut Fields) -> Result<TillQuestion, QuestionFault>
    ensures { result ≡ spec.serial_said fields.old }
{
    let till = number(fields, 1, u64::from(LAST_TILL), Word::Till)?;
    let serial = number(fields, 1, 4_294_967_295, Word::Number)?;
    fields.end()?;
    Ok(TillQuestion::Serial {
        till: till as u8,
        serial: serial as u32,
    })
}

// `TILL`
fn last(fields: &mut Fields) -> Result<TillQuestion, QuestionFault>
    ensures { result ≡ spec.last_said fields.old }
{
    let till = number(fields, 1, u64::from(LAST_TILL), Word::Till)?;
    fields.end()?;
    Ok(TillQuestion::Last { till: till as u8 })
}

// `CLASS TOTAL`
fn lines(fields: &mut Fields) -> Result<TillQuestion, QuestionFault>
    ensures { result ≡ spec.lines_said fields.old }
{
    let key = class(fields)?;
    let total = cents(fields)?;
    fields.end()?;
    Ok(TillQuestion::Lines { key, total })
}

fn chain(fields: &mut Fields) -> Result<TillQuestion, QuestionFault>
    ensures { result ≡ spec.chain_said fields.old }
{
    fields.end()?;
    Ok(TillQuestion::Chain)
}

// What the fields after the first word ask.
fn said_by(verb: Verb, fields: &mut Fields) -> Result<TillQuestion, QuestionFault>
    ensures { result ≡ spec.said_by verb fields.old }
{
    match verb {
        Verb::Ticket => ticket(fields),
        Verb::Record => record(fields),
        Verb::Serial => serial(fields),
        Verb::Last => last(fields),
        Verb::Lines => lines(fields),
        Verb::Chain => chain(fields),
    }
}

fn in_fields(text: &str) -> Option<Result<TillQuestion, QuestionFault>>
    ensures { result ≡ spec.in_fields (fields_of text.now) }
{
    let mut fields = Fields::of(text);
    let word = fields.next()?;
    let verb = verb_of(word)?;
    Some(said_by(verb, &mut fields))
}

/// What a line asks, or what is wrong in it; None exactly where it is no question's, by its first field. It has no carriage
/// return at its end any more.
pub fn question_of(text: &[u8]) -> Option<Result<TillQuestion, QuestionFault>>
    //= A line is a question, or none, or a question with this fault, by its definition.
    ensures { result ≡ spec.question_of text.now }
{
    match str::from_utf8(text) {
        Ok(text) => in_fields(text),
        Err(_) => None,
    }
}
