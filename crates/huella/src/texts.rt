//! The field text, as a text.
ghost use Rattle.std.specs.Prelude.{◌≡◌, ◌++◌, IfOk, OnOk, codes, option_copied};
ghost use Rattle.huella.specs.Texts as spec;

use amounts::text_of;
use ports::NoMemory;
use record_fields::{Alta, Anulacion, Bytes, Link, Record};
use stamps::{date_text, moment_text};
use std::alloc::Global;

/// A Huella as 64 capital hexadecimal digits.
pub fn huella_text(huella: &[u8; 32]) -> [u8; 64]
    //= A Huella's text is 64 capital hexadecimal digits.
    ensures { result ≡ spec.huella_text huella.now }
{
    let mut text = [0; 64];
    let Ok(()) = hex::encode_to_slice(huella.as_slice(), &mut text) else {
        unreachable!()
    };
    text.make_ascii_uppercase();
    text
}

/// The field text of a record: `name=value` parts with `&` between them.
pub fn field_text(alloc: Global, body: &Record) -> Result<Bytes, NoMemory>
    //= The field text is the agency's: its fields in order, with the Huella of the record before.
    ensures { IfOk result (λ text. text ≡ spec.field_text body.now) }
{
    match body {
        Record::Alta(alta) => alta_text(alloc, alta),
        Record::Anulacion(anulacion) => anulacion_text(alloc, anulacion),
    }
}

fn alta_text(alloc: Global, alta: &Alta) -> Result<Bytes, NoMemory>
    ensures { IfOk result (λ text. text ≡ spec.alta_text alta.now) }
{
    joined(
        alloc,
        alta.issuer.bytes().as_slice(),
        alta.id.num.as_slice(),
        date_text(alta.id.day).as_slice(),
        alta.draft.kind.text().as_bytes(),
        text_of(alta.draft.lines.cuota()).as_slice(),
        text_of(alta.draft.lines.total()).as_slice(),
        huella_before(&alta.link),
        moment_text(&alta.moment).as_slice(),
    )
}

fn anulacion_text(alloc: Global, anulacion: &Anulacion) -> Result<Bytes, NoMemory>
    ensures { IfOk result (λ text. text ≡ spec.anulacion_text anulacion.now) }
{
    joined_cancel(
        alloc,
        anulacion.issuer.bytes().as_slice(),
        anulacion.id.num.as_slice(),
        date_text(anulacion.id.day).as_slice(),
        huella_before(&anulacion.link),
        moment_text(&anulacion.moment).as_slice(),
    )
}

fn huella_before(link: &Link) -> Option<&[u8; 32]>
    ensures { spec.previous_digits (option_copied result) ≡ spec.previous_text link.now }
{
    match link {
        Link::First => None,
        Link::After { huella, .. } => Some(huella),
    }
}

/// The field text of an alta, joined from its values. `previous` is the Huella of the record before, None in a chain's
/// first record.
pub fn field_text_of(
    alloc: Global,
    issuer: &str,
    num: &str,
    date: &str,
    kind: &str,
    cuota: &str,
    total: &str,
    previous: Option<&[u8; 32]>,
    moment: &str,
) -> Result<Bytes, NoMemory>
    ensures { IfOk result (λ text. text ≡ spec.joined_fields issuer.now num.now date.now kind.now cuota.now total.now
        (spec.previous_digits (option_copied previous.entry)) moment.now) }
{
    joined(
        alloc,
        issuer.as_bytes(),
        num.as_bytes(),
        date.as_bytes(),
        kind.as_bytes(),
        cuota.as_bytes(),
        total.as_bytes(),
        previous,
        moment.as_bytes(),
    )
}

fn joined(
    alloc: Global,
    issuer: &[u8],
    num: &[u8],
    date: &[u8],
    kind: &[u8],
    cuota: &[u8],
    total: &[u8],
    previous: Option<&[u8; 32]>,
    moment: &[u8],
) -> Result<Bytes, NoMemory>
    ensures { IfOk result (λ text. text ≡ spec.joined_fields issuer.now num.now date.now kind.now cuota.now total.now
        (spec.previous_digits (option_copied previous.entry)) moment.now) }
{
    let mut text = Vec::new(alloc);
    add(&mut text, b"IDEmisorFactura=", issuer)?;
    add(&mut text, b"&NumSerieFactura=", num)?;
    add(&mut text, b"&FechaExpedicionFactura=", date)?;
    add(&mut text, b"&TipoFactura=", kind)?;
    add(&mut text, b"&CuotaTotal=", cuota)?;
    add(&mut text, b"&ImporteTotal=", total)?;
    add_previous(&mut text, previous)?;
    add(&mut text, b"&FechaHoraHusoGenRegistro=", moment)?;
    Ok(Bytes::of(text))
}

fn joined_cancel(
    alloc: Global,
    issuer: &[u8],
    num: &[u8],
    date: &[u8],
    previous: Option<&[u8; 32]>,
    moment: &[u8],
) -> Result<Bytes, NoMemory>
    ensures { IfOk result (λ text. text
        ≡ spec.joined_cancel issuer.now num.now date.now (spec.previous_digits (option_copied previous.entry)) moment.now) }
{
    let mut text = Vec::new(alloc);
    add(&mut text, b"IDEmisorFacturaAnulada=", issuer)?;
    add(&mut text, b"&NumSerieFacturaAnulada=", num)?;
    add(&mut text, b"&FechaExpedicionFacturaAnulada=", date)?;
    add_previous(&mut text, previous)?;
    add(&mut text, b"&FechaHoraHusoGenRegistro=", moment)?;
    Ok(Bytes::of(text))
}

fn add(text: &mut Vec<u8>, name: &[u8], value: &[u8]) -> Result<(), NoMemory>
    ensures { OnOk result (text.new.items ≡ text.old.items ++ name.now ++ value.now) }
{
    text.extend_from_slice(name)?;
    text.extend_from_slice(value)?;
    Ok(())
}

fn add_previous(text: &mut Vec<u8>, previous: Option<&[u8; 32]>) -> Result<(), NoMemory>
    ensures { OnOk result (text.new.items
        ≡ text.old.items ++ codes "&Huella=" ++ spec.previous_digits (option_copied previous.entry)) }
{
    match previous {
        None => add(text, b"&Huella=", b""),
        Some(huella) => add(text, b"&Huella=", huella_text(huella).as_slice()),
    }
}
