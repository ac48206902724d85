//! The line of a record.
ghost use Rattle.std.specs.Prelude.{◌≡◌, ◌++◌, OnOk};
ghost use Rattle.report.specs.Listing as spec;

use crate::pieces::{put, put_counted, put_huella, put_number};
use amounts::text_of;
use record_fields::{Alta, Anulacion, Cause, Line, Previo, Record, Sealed};
use series::InvoiceId;
use stamps::date_text;
use std::alloc::AllocError;

fn flag(value: bool) -> &'static [u8]
    ensures { result.now ≡ spec.flag_text value }
{
    if value { b"S" } else { b"N" }
}

fn previo(value: Previo) -> &'static [u8]
    ensures { result.now ≡ spec.previo_text value }
{
    match value {
        Previo::N => b"N",
        Previo::S => b"S",
        Previo::X => b"X",
    }
}

pub fn put_id(text: &mut Vec<u8>, id: &InvoiceId) -> Result<(), AllocError>
    ensures { OnOk result (text.new.items ≡ text.old.items ++ spec.id_text id.now.num id.now.day) }
{
    put(text, id.num.as_slice())?;
    put(text, b" ")?;
    put(text, date_text(id.day).as_slice())
}

pub fn put_amounts(text: &mut Vec<u8>, alta: &Alta) -> Result<(), AllocError>
    ensures { OnOk result (text.new.items ≡ text.old.items ++ spec.amounts_text alta.now) }
{
    put(text, text_of(alta.draft.lines.cuota()).as_slice())?;
    put(text, b" ")?;
    put(text, text_of(alta.draft.lines.total()).as_slice())?;
    put(text, b" ")
}

fn put_alta(text: &mut Vec<u8>, alta: &Alta) -> Result<(), AllocError>
    ensures { OnOk result (text.new.items ≡ text.old.items ++ spec.alta_line alta.now) }
{
    put(text, b"alta ")?;
    put_id(text, &alta.id)?;
    put(text, b" ")?;
    put(text, alta.draft.kind.text().as_bytes())?;
    put(text, b" ")?;
    put_amounts(text, alta)?;
    put(text, flag(alta.subsanacion))?;
    put(text, b" ")?;
    put(text, previo(alta.rechazo))
}

fn put_anulacion(text: &mut Vec<u8>, anulacion: &Anulacion) -> Result<(), AllocError>
    ensures { OnOk result (text.new.items ≡ text.old.items ++ spec.anulacion_line anulacion.now) }
{
    put(text, b"anulacion ")?;
    put_id(text, &anulacion.id)?;
    put(text, b" ")?;
    put(text, flag(anulacion.sin_registro))?;
    put(text, b" ")?;
    put(text, flag(anulacion.rechazo))
}

fn put_body(text: &mut Vec<u8>, body: &Record) -> Result<(), AllocError>
    ensures { OnOk result (text.new.items ≡ text.old.items ++ spec.body_text body.now) }
{
    match body {
        Record::Alta(alta) => put_alta(text, alta),
        Record::Anulacion(anulacion) => put_anulacion(text, anulacion),
    }
}

fn put_cause(text: &mut Vec<u8>, cause: Cause) -> Result<(), AllocError>
    ensures { OnOk result (text.new.items ≡ text.old.items ++ spec.cause_text cause) }
{
    match cause {
        Cause::Vet(code) => put_counted(text, b"vet ", u64::from(code)),
        Cause::Held => put(text, b"held"),
        Cause::NotHeld => put(text, b"not-held"),
        Cause::Gone => put(text, b"gone"),
    }
}

pub fn put_line(text: &mut Vec<u8>, line: Option<Line>) -> Result<(), AllocError>
    ensures { OnOk result (text.new.items ≡ text.old.items ++ spec.line_text line) }
{
    match line {
        None => put(text, b"pending"),
        Some(Line::Correcto) => put(text, b"correcto"),
        Some(Line::ConErrores(code)) => put_counted(text, b"con-errores ", u64::from(code)),
        Some(Line::Incorrecto(cause)) => put_cause(text, cause),
    }
}

/// The line of a record at its place, with the agency's line for it.
pub fn put_record(
    text: &mut Vec<u8>,
    place: u32,
    sealed: &Sealed,
    line: Option<Line>,
) -> Result<(), AllocError>
    ensures { OnOk result (text.new.items ≡ text.old.items ++ spec.record_line place sealed.now line) }
{
    put_number(text, u64::from(place))?;
    put(text, b" ")?;
    put_body(text, &sealed.body)?;
    put(text, b" ")?;
    put_huella(text, &sealed.huella)?;
    put(text, b" ")?;
    put_line(text, line)?;
    put(text, b"\n")
}
