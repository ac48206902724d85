//! The objects of a history.
ghost use Rattle.std.specs.Prelude.{◌≡◌, IfOk, OnOk};
ghost use Rattle.serde_json.specs.View.{members_view, view};
ghost use Rattle.export.specs.Building as building;
ghost use Rattle.export.specs.Objects as spec;

use crate::elements::list_value;
use crate::values::{
    customer_value, day_value, huella_value, link_value, nif_value, num_value, previo_value,
    rect_value,
};
use parties::Nif;
use record_codec::{Entry, Version};
use record_fields::{Alta, Anulacion, Line, Record, Sealed};
use serde_json::{Map, Value, put};
use std::alloc::{AllocError, Global};

pub(crate) fn head_value(alloc: Global, issuer: &Nif, version: Version) -> Result<Value, AllocError>
    ensures { IfOk result (λ v. view v ≡ spec.head_object issuer.now version) }
{
    let issuer = nif_value(alloc, issuer)?;
    let chain = Value::try_from_str(alloc, "chain")?;
    let mut members = Map::new(alloc);
    put(&mut members, alloc, "issuer", issuer)?;
    put(&mut members, alloc, "t", chain)?;
    put(
        &mut members,
        alloc,
        "version",
        Value::from(version.number()),
    )?;
    Ok(Value::Object(members))
}

// What every record's object has, its till and serial aside.
fn put_sealed(
    members: &mut Map<String, Value>,
    alloc: Global,
    sealed: &Sealed,
) -> Result<(), AllocError>
    ensures { OnOk result (members_view members.new.entries ≡ building.with_sealed sealed.now (members_view members.old.entries)) }
{
    let id = sealed.body.id();
    let moment = sealed.body.moment();
    let day = day_value(alloc, id.day)?;
    put(members, alloc, "day", day)?;
    let huella = huella_value(alloc, &sealed.huella)?;
    put(members, alloc, "huella", huella)?;
    let link = link_value(alloc, &sealed.body.link())?;
    put(members, alloc, "link", link)?;
    let num = num_value(alloc, &id.num)?;
    put(members, alloc, "num", num)?;
    put(members, alloc, "offset", Value::from(moment.offset_minutes))?;
    put(members, alloc, "seconds", Value::from(moment.seconds))
}

// What else an alta's has.
fn put_alta(members: &mut Map<String, Value>, alloc: Global, alta: &Alta) -> Result<(), AllocError>
    ensures { OnOk result (members_view members.new.entries ≡ building.with_alta alta.now (members_view members.old.entries)) }
{
    let customer = customer_value(alloc, &alta.draft.customer)?;
    put(members, alloc, "customer", customer)?;
    put(members, alloc, "fix", Value::from(alta.subsanacion))?;
    let kind = Value::try_from_str(alloc, alta.draft.kind.text())?;
    put(members, alloc, "kind", kind)?;
    let lines = list_value(alloc, alta.draft.lines.lines())?;
    put(members, alloc, "lines", lines)?;
    let rechazo = previo_value(alloc, alta.rechazo)?;
    put(members, alloc, "rechazo", rechazo)?;
    let rect = rect_value(alloc, alta.draft.rect)?;
    put(members, alloc, "rect", rect)?;
    let refs = list_value(alloc, alta.draft.refs.as_slice())?;
    put(members, alloc, "refs", refs)?;
    let sort = Value::try_from_str(alloc, "alta")?;
    put(members, alloc, "t", sort)
}

// What else an anulación's has.
fn put_anulacion(
    members: &mut Map<String, Value>,
    alloc: Global,
    anulacion: &Anulacion,
) -> Result<(), AllocError>
    ensures { OnOk result (members_view members.new.entries
        ≡ building.with_anulacion anulacion.now (members_view members.old.entries)) }
{
    let sort = Value::try_from_str(alloc, "anulacion")?;
    put(members, alloc, "rechazo", Value::from(anulacion.rechazo))?;
    put(
        members,
        alloc,
        "sin_registro",
        Value::from(anulacion.sin_registro),
    )?;
    put(members, alloc, "t", sort)
}

fn put_body(
    members: &mut Map<String, Value>,
    alloc: Global,
    body: &Record,
) -> Result<(), AllocError>
    ensures { OnOk result (members_view members.new.entries ≡ building.with_body body.now (members_view members.old.entries)) }
{
    match body {
        Record::Alta(alta) => put_alta(members, alloc, alta),
        Record::Anulacion(anulacion) => put_anulacion(members, alloc, anulacion),
    }
}

/// The members of a record's object, without its till and serial.
pub fn sealed_members(alloc: Global, sealed: &Sealed) -> Result<Map<String, Value>, AllocError>
    ensures { IfOk result (λ members. members_view members.entries
        ≡ spec.members_from (spec.record_fields_of sealed.now.body sealed.now.huella)) }
{
    let mut members = Map::new(alloc);
    put_sealed(&mut members, alloc, sealed)?;
    put_body(&mut members, alloc, &sealed.body)?;
    Ok(members)
}

fn record_value(alloc: Global, till: u8, serial: u32, sealed: &Sealed) -> Result<Value, AllocError>
    ensures { IfOk result (λ v. view v ≡ spec.body_object till serial sealed.now.body sealed.now.huella) }
{
    let mut members = sealed_members(alloc, sealed)?;
    put(&mut members, alloc, "serial", Value::from(serial))?;
    put(&mut members, alloc, "till", Value::from(till))?;
    Ok(Value::Object(members))
}

fn notes_value(alloc: Global, first: u32, lines: &[Line]) -> Result<Value, AllocError>
    ensures { IfOk result (λ v. view v ≡ spec.notes_object first lines.now) }
{
    let lines = list_value(alloc, lines)?;
    let sort = Value::try_from_str(alloc, "notes")?;
    let mut members = Map::new(alloc);
    put(&mut members, alloc, "first", Value::from(first))?;
    put(&mut members, alloc, "lines", lines)?;
    put(&mut members, alloc, "t", sort)?;
    Ok(Value::Object(members))
}

/// The object of an entry.
#[tactic(auto, unfolding(crate::specs::Objects::object_of))]
pub(crate) fn entry_value(alloc: Global, entry: &Entry) -> Result<Value, AllocError>
    ensures { IfOk result (λ v. view v ≡ spec.object_of entry.now) }
{
    match entry {
        Entry::Rec {
            till,
            serial,
            sealed,
        } => record_value(alloc, *till, *serial, sealed),
        Entry::Notes { first, lines } => notes_value(alloc, *first, lines.as_slice()),
    }
}
