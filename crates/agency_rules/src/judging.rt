//! The agency's line for a record, and the past of its invoice.
ghost use Rattle.std.specs.Prelude.{◌≡◌, ◌+◌, ◌-◌, ◌^◌, ◌<◌, [], ◌∷◌, ◌++◌, List, None, unwrap_or};
ghost use Rattle.record_fields.specs.Records.{id_of};
ghost use Rattle.record_fields.specs.declared.records.Sealed.{Sealed};
ghost use Rattle.record_fields.specs.declared.lines.Line.{Line as AnyLine};
ghost use Rattle.record_fields.specs.declared.lines.Line.TheVariants.{Correcto as correct};
ghost use Rattle.agency_rules.specs.Judging as spec;
ghost use Rattle.agency_rules.specs.Clashes as register;

use crate::Verdict;
use record_fields::{Cause, Line, Previo, Record};

/// What the agency has processed of one invoice: how many records, whether the last accepted one is an alta (the invoice
/// is held), whether it is an anulación (the invoice is gone).
#[derive(Clone, Copy, Debug, PartialEq, Eq)]
pub struct Past {
    pub count: u32,
    pub held: bool,
    pub gone: bool,
}

impl Past {
    ghost use Rattle.agency_rules.specs.Judging.{past_of};

    /// The past after one more record of the invoice.
    pub fn after(self, body: &Record, line: &Line) -> Past
        requires { self.count < 2 ^ 32 - 1 }
        ensures value { result ≡ spec.past_after self body.now line.now }
        //= The past after a record more is that of the list with it.
        ensures next { (processed : List (Sealed × AnyLine)) (s : Sealed) → s.body ≡ body.now
            → self ≡ past_of processed (id_of body.now)
            → result ≡ past_of (processed ++ (s, line.now) ∷ []) (id_of body.now) }
    {
        let count = self.count + 1;
        if !is_accepted(line) {
            return Past {
                count,
                held: self.held,
                gone: self.gone,
            };
        }
        let held = body.is_alta();
        Past {
            count,
            held,
            gone: !held,
        }
    }
}

fn is_accepted(line: &Line) -> bool
    ensures { result ≡ spec.is_accepted line.now }
{
    match line {
        Line::Correcto | Line::ConErrores(_) => true,
        Line::Incorrecto(_) => false,
    }
}

// Whether RechazoPrevio is X.
fn is_x(rechazo: Previo) -> bool
    ensures { result ≡ spec.is_x rechazo }
{
    match rechazo {
        Previo::N | Previo::S => false,
        Previo::X => true,
    }
}

fn alta_clash(held: bool, subsanacion: bool, x: bool) -> Option<Cause>
    ensures { result ≡ register.alta_clash held subsanacion x }
{
    match (held, subsanacion, x) {
        (true, false, _) | (true, true, true) => Some(Cause::Held),
        (false, true, false) => Some(Cause::NotHeld),
        _ => None,
    }
}

fn anulacion_clash(held: bool, sin_registro: bool) -> Option<Cause>
    ensures { result ≡ register.anulacion_clash held sin_registro }
{
    match (held, sin_registro) {
        (true, true) => Some(Cause::Held),
        (false, false) => Some(Cause::NotHeld),
        _ => None,
    }
}

// Why the register refuses a record.
fn clash(held: bool, body: &Record) -> Option<Cause>
    ensures { result ≡ register.clash held body.now }
{
    match body {
        Record::Alta(alta) => alta_clash(held, alta.subsanacion, is_x(alta.rechazo)),
        Record::Anulacion(anulacion) => anulacion_clash(held, anulacion.sin_registro),
    }
}

// The code of an error to be mended.
fn warned(verdict: Option<Verdict>) -> Line
    ensures { result ≡ unwrap_or (spec.warned verdict) correct }
{
    match verdict {
        Some(Verdict::Warn(code)) => Line::ConErrores(code),
        Some(Verdict::Vet(_)) | None => Line::Correcto,
    }
}

// The line of a record that no check of its own refuses.
fn judge_by_register(past: &Past, verdict: Option<Verdict>, body: &Record) -> Line
    requires { spec.vetted verdict ≡ None }
    ensures { result ≡ spec.judge past.now verdict body.now }
{
    if past.gone {
        return Line::Incorrecto(Cause::Gone);
    }
    match clash(past.held, body) {
        Some(why) => Line::Incorrecto(why),
        None => warned(verdict),
    }
}

/// The line of a record of an invoice with this past and this verdict.
pub fn judge(past: &Past, verdict: Option<Verdict>, body: &Record) -> Line
    //= The agency's line for a record is the first row of its table that holds, by the invoice's past and the planned
    //= verdict.
    //= No body: the table is one `match`, and tests have each of its rows
    ensures { result ≡ spec.judge past.now verdict body.now }
{
    match verdict {
        Some(Verdict::Vet(code)) => Line::Incorrecto(Cause::Vet(code)),
        Some(Verdict::Warn(_)) | None => judge_by_register(past, verdict, body),
    }
}
