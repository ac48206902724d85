//! The values of fields.
ghost use Rattle.std.specs.Prelude.{◌≡◌, IfOk, IsUtf8};
ghost use Rattle.serde_json.specs.Data.{string};
ghost use Rattle.serde_json.specs.View.{view};
ghost use Rattle.tax_lines.specs.Keys.{key_text};
ghost use Rattle.export.specs.Objects as spec;

use huella::huella_text;
use invoice_kinds::RectKind;
use parties::{Nif, Party};
use record_fields::{Link, Previo};
use serde_json::{Map, Value, put};
use series::NumSerie;
use stamps::{Day, date_text};
use std::alloc::{AllocError, Global};
use std::str::from_utf8;
use tax_lines::LineKey;

/// The value of a text.
pub fn text_value(alloc: Global, bytes: &[u8]) -> Result<Value, AllocError>
    requires { IsUtf8 bytes.now }
    ensures { IfOk result (λ v. view v ≡ string bytes.now) }
{
    let Ok(text) = from_utf8(bytes) else {
        unreachable!()
    };
    Value::try_from_str(alloc, text)
}

/// The value of a NIF.
pub fn nif_value(alloc: Global, nif: &Nif) -> Result<Value, AllocError>
    ensures { IfOk result (λ v. view v ≡ spec.word nif.now) }
{
    text_value(alloc, nif.bytes().as_slice())
}

/// The value of a number of an invoice.
pub fn num_value(alloc: Global, num: &NumSerie) -> Result<Value, AllocError>
    ensures { IfOk result (λ v. view v ≡ spec.word num.now) }
{
    text_value(alloc, num.as_slice())
}

/// The value of a day: DD-MM-YYYY.
pub fn day_value(alloc: Global, day: Day) -> Result<Value, AllocError>
    ensures { IfOk result (λ v. view v ≡ spec.day_value day) }
{
    let _date = day.date();
    text_value(alloc, date_text(day).as_slice())
}

/// The value of a Huella: its 64 capital hexadecimal digits.
pub fn huella_value(alloc: Global, huella: &[u8; 32]) -> Result<Value, AllocError>
    ensures { IfOk result (λ v. view v ≡ spec.huella_value huella.now) }
{
    text_value(alloc, huella_text(huella).as_slice())
}

pub(crate) fn key_value(alloc: Global, key: LineKey) -> Result<Value, AllocError>
    ensures { IfOk result (λ v. view v ≡ spec.word (key_text key)) }
{
    text_value(alloc, key.text().as_slice())
}

fn party_value(alloc: Global, party: &Party) -> Result<Value, AllocError>
    ensures { IfOk result (λ v. view v ≡ spec.customer_value (Some party.now)) }
{
    let name = text_value(alloc, party.name.as_slice())?;
    let nif = nif_value(alloc, &party.nif)?;
    let mut members = Map::new(alloc);
    put(&mut members, alloc, "name", name)?;
    put(&mut members, alloc, "nif", nif)?;
    Ok(Value::Object(members))
}

pub(crate) fn customer_value(alloc: Global, customer: &Option<Party>) -> Result<Value, AllocError>
    ensures { IfOk result (λ v. view v ≡ spec.customer_value customer.now) }
{
    match customer {
        None => Ok(Value::Null),
        Some(party) => party_value(alloc, party),
    }
}

pub(crate) fn rect_value(alloc: Global, rect: Option<RectKind>) -> Result<Value, AllocError>
    ensures { IfOk result (λ v. view v ≡ spec.rect_value rect) }
{
    match rect {
        None => Ok(Value::Null),
        Some(RectKind::S) => Value::try_from_str(alloc, "S"),
        Some(RectKind::I) => Value::try_from_str(alloc, "I"),
    }
}

pub(crate) fn previo_value(alloc: Global, previo: Previo) -> Result<Value, AllocError>
    ensures { IfOk result (λ v. view v ≡ spec.previo_value previo) }
{
    match previo {
        Previo::N => Value::try_from_str(alloc, "N"),
        Previo::S => Value::try_from_str(alloc, "S"),
        Previo::X => Value::try_from_str(alloc, "X"),
    }
}

pub(crate) fn link_value(alloc: Global, link: &Link) -> Result<Value, AllocError>
    ensures { IfOk result (λ v. view v ≡ spec.link_value link.now) }
{
    match link {
        Link::First => Ok(Value::Null),
        Link::After { id, huella } => {
            let day = day_value(alloc, id.day)?;
            let huella = huella_value(alloc, huella)?;
            let num = num_value(alloc, &id.num)?;
            let mut members = Map::new(alloc);
            put(&mut members, alloc, "day", day)?;
            put(&mut members, alloc, "huella", huella)?;
            put(&mut members, alloc, "num", num)?;
            Ok(Value::Object(members))
        }
    }
}
