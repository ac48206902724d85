//! What the fields of an object say. Each reader gives the field's value where the object has it.
ghost use Rattle.std.specs.Prelude.{◌≡◌, ℕ, ◌≤◌, ◌<◌, ◌^◌, ℤ, List, Bool, Option, Some, IsTrue, codes};
ghost use Rattle.std.specs.Option.{ForSome};
ghost use Rattle.serde_json.specs.Data.{Data, boolean, number, string};
ghost use Rattle.serde_json.specs.Find.{get, of_integer};
ghost use Rattle.serde_json.specs.View.{view};
ghost use Rattle.parties.specs.Nif.{IsNif};
ghost use Rattle.parties.specs.NameForm.{IsName};
ghost use Rattle.parties.specs.declared.name.Party.{Party as AnyParty};
ghost use Rattle.invoice_kinds.specs.Kinds.{kind_text};
ghost use Rattle.invoice_kinds.specs.declared.kind.Kind.{Kind as AnyKind};
ghost use Rattle.invoice_kinds.specs.declared.kind.RectKind.{RectKind as AnyRect};
ghost use Rattle.series.specs.Numbers.{is_num_serie};
ghost use Rattle.series.specs.declared.numbers.InvoiceId.{InvoiceId as AnyId};
ghost use Rattle.stamps.specs.Clock.{IsStampOffset};
ghost use Rattle.stamps.specs.Day.{last_day};
ghost use Rattle.stamps.specs.Stamp.{Moment};
ghost use Rattle.stamps.specs.Text.{date_text_of};
ghost use Rattle.huella.specs.Texts.{huella_text};
ghost use Rattle.record_fields.specs.Valid.{IsHuella, IsId, IsMoment, IsParty};
ghost use Rattle.record_fields.specs.declared.records.Link.{Link as AnyLink};
ghost use Rattle.record_fields.specs.declared.records.Previo.{Previo as AnyPrevio};
ghost use Rattle.record_codec.specs.Validity.{IsLink};
ghost use Rattle.export.specs.Objects as spec;
ghost use Rattle.export.specs.Fields.{Gives, GivesBy, HasId, HasMoment, HasParty};

use crate::faults::Unread;
use invoice_kinds::{Kind, RectKind};
use parties::{Name, NameFault, Nif, Party};
use record_fields::{Link, Previo};
use serde_json::Value;
use series::{InvoiceId, NumSerie};
use stamps::{Day, Stamp, text_determines_day};
use std::alloc::Global;

// ---- values

pub(crate) fn text_of(value: &Value) -> Result<&str, Unread>
    ensures { (t : List ℕ) → view value.now ≡ string t → GivesBy (λ s. s.now) t result }
{
    value.as_str().ok_or(Unread::Shape)
}

pub(crate) fn number_of(value: &Value) -> Result<u64, Unread>
    ensures { (n : ℕ) → view value.now ≡ spec.number_of n → Gives n result }
{
    value.as_u64().ok_or(Unread::Shape)
}

// A number of two bytes.
pub(crate) fn short_of(value: &Value) -> Result<u16, Unread>
    ensures { (n : ℕ) → n < 2 ^ 16 → view value.now ≡ spec.number_of n → Gives n result }
{
    let n = number_of(value)?;
    if n <= 0xffff {
        Ok(n as u16)
    } else {
        Err(Unread::Shape)
    }
}

// ---- what texts say

pub(crate) fn day_of(text: &str) -> Result<Day, Unread>
    ensures { (n : ℕ) → n ≤ last_day → text.now ≡ date_text_of n → Gives n result }
{
    text_determines_day();
    Day::read(text).ok_or(Unread::Shape)
}

pub(crate) fn num_of(text: &str) -> Result<NumSerie, Unread>
    ensures { (t : List ℕ) → IsTrue (is_num_serie t) → text.now ≡ t → Gives t result }
{
    NumSerie::read(text).ok_or(Unread::Shape)
}

pub(crate) fn nif_of(text: &str) -> Result<Nif, Unread>
    ensures { (t : List ℕ) → IsNif t → text.now ≡ t → Gives t result }
{
    match Nif::read(text) {
        Ok(nif) => Ok(nif),
        Err(_) => Err(Unread::Shape),
    }
}

// ---- fields of an object

pub(crate) fn member<'v>(value: &'v Value, key: &str) -> Result<&'v Value, Unread>
    ensures { (d : Data) → get key.now (view value.now) ≡ Some d → GivesBy (λ v. view v.now) d result }
{
    value.get(key).ok_or(Unread::Shape)
}

pub(crate) fn text_at<'v>(value: &'v Value, key: &str) -> Result<&'v str, Unread>
    ensures { (t : List ℕ) → get key.now (view value.now) ≡ Some (string t) → GivesBy (λ s. s.now) t result }
{
    text_of(member(value, key)?)
}

pub(crate) fn flag_at(value: &Value, key: &str) -> Result<bool, Unread>
    ensures { (b : Bool) → get key.now (view value.now) ≡ Some (boolean b) → Gives b result }
{
    let flag = member(value, key)?;
    flag.as_bool().ok_or(Unread::Shape)
}

fn number_at(value: &Value, key: &str) -> Result<u64, Unread>
    ensures { (n : ℕ) → get key.now (view value.now) ≡ Some (spec.number_of n) → Gives n result }
{
    number_of(member(value, key)?)
}

// A number of one byte.
pub(crate) fn byte_at(value: &Value, key: &str) -> Result<u8, Unread>
    ensures { (n : ℕ) → n < 2 ^ 8 → get key.now (view value.now) ≡ Some (spec.number_of n) → Gives n result }
{
    let n = number_at(value, key)?;
    if n <= 0xff {
        Ok(n as u8)
    } else {
        Err(Unread::Shape)
    }
}

// A number of four bytes.
pub(crate) fn long_at(value: &Value, key: &str) -> Result<u32, Unread>
    ensures { (n : ℕ) → n < 2 ^ 32 → get key.now (view value.now) ≡ Some (spec.number_of n) → Gives n result }
{
    let n = number_at(value, key)?;
    if n <= 0xffff_ffff {
        Ok(n as u32)
    } else {
        Err(Unread::Shape)
    }
}

pub(crate) fn id_at(value: &Value) -> Result<InvoiceId, Unread>
    ensures { (id : AnyId) → IsId id → HasId id (view value.now) → Gives id result }
{
    let num = num_of(text_at(value, "num")?)?;
    let day = day_of(text_at(value, "day")?)?;
    Ok(InvoiceId { num, day })
}

fn huella_of(text: &str) -> Result<[u8; 32], Unread>
    ensures { (h : List ℕ) → IsHuella h → text.now ≡ huella_text h → Gives h result }
{
    let mut huella = [0; 32];
    match hex::decode_to_slice(text.as_bytes(), &mut huella) {
        Ok(()) => Ok(huella),
        Err(_) => Err(Unread::Shape),
    }
}

pub(crate) fn huella_at(value: &Value) -> Result<[u8; 32], Unread>
    ensures { (h : List ℕ) → IsHuella h → get (codes "huella") (view value.now) ≡ Some (spec.huella_value h) → Gives h result }
{
    huella_of(text_at(value, "huella")?)
}

fn link_of(value: &Value) -> Result<Link, Unread>
    ensures { (link : AnyLink) → IsLink link → view value.now ≡ spec.link_value link → Gives link result }
{
    if value.is_null() {
        return Ok(Link::First);
    }
    let id = id_at(value)?;
    let huella = huella_at(value)?;
    Ok(Link::After { id, huella })
}

pub(crate) fn link_at(value: &Value) -> Result<Link, Unread>
    ensures { (link : AnyLink) → IsLink link → get (codes "link") (view value.now) ≡ Some (spec.link_value link)
        → Gives link result }
{
    link_of(member(value, "link")?)
}

// The offset of a moment, in minutes.
fn offset_at(value: &Value) -> Result<i16, Unread>
    ensures { (minutes : ℤ) → IsStampOffset minutes → get (codes "offset") (view value.now) ≡ Some (number (of_integer minutes))
        → Gives minutes result }
{
    match number_at(value, "offset")? {
        60 => Ok(60),
        120 => Ok(120),
        _ => Err(Unread::Shape),
    }
}

pub(crate) fn moment_at(value: &Value) -> Result<Stamp, Unread>
    ensures { (moment : Moment) → IsMoment moment → HasMoment moment (view value.now) → Gives moment result }
{
    let seconds = number_at(value, "seconds")?;
    let offset = offset_at(value)?;
    Stamp::new(seconds, offset).ok_or(Unread::Shape)
}

pub(crate) fn kind_at(value: &Value) -> Result<Kind, Unread>
    ensures { (kind : AnyKind) → get (codes "kind") (view value.now) ≡ Some (spec.word (kind_text kind)) → Gives kind result }
{
    let text = text_at(value, "kind")?;
    Kind::read(text).ok_or(Unread::Shape)
}

fn rect_of(value: &Value) -> Result<Option<RectKind>, Unread>
    ensures { (rect : Option AnyRect) → view value.now ≡ spec.rect_value rect → Gives rect result }
{
    if value.is_null() {
        return Ok(None);
    }
    match text_of(value)? {
        "S" => Ok(Some(RectKind::S)),
        "I" => Ok(Some(RectKind::I)),
        _ => Err(Unread::Shape),
    }
}

pub(crate) fn rect_at(value: &Value) -> Result<Option<RectKind>, Unread>
    ensures { (rect : Option AnyRect) → get (codes "rect") (view value.now) ≡ Some (spec.rect_value rect) → Gives rect result }
{
    rect_of(member(value, "rect")?)
}

pub(crate) fn previo_at(value: &Value) -> Result<Previo, Unread>
    ensures { (previo : AnyPrevio) → get (codes "rechazo") (view value.now) ≡ Some (spec.previo_value previo)
        → Gives previo result }
{
    match text_at(value, "rechazo")? {
        "N" => Ok(Previo::N),
        "S" => Ok(Previo::S),
        "X" => Ok(Previo::X),
        _ => Err(Unread::Shape),
    }
}

fn name_of(alloc: Global, text: &str) -> Result<Name, Unread>
    ensures { (t : List ℕ) → IsName t → text.now ≡ t → Gives t result }
{
    match Name::read(alloc, text) {
        Ok(name) => Ok(name),
        Err(NameFault::NoMemory) => Err(Unread::NoMemory),
        Err(_) => Err(Unread::Shape),
    }
}

fn party_of(alloc: Global, value: &Value) -> Result<Party, Unread>
    ensures { (party : AnyParty) → IsParty party → HasParty party (view value.now) → Gives party result }
{
    let nif = nif_of(text_at(value, "nif")?)?;
    let name = name_of(alloc, text_at(value, "name")?)?;
    Ok(Party { nif, name })
}

fn customer_of(alloc: Global, value: &Value) -> Result<Option<Party>, Unread>
    ensures { (customer : Option AnyParty) → ForSome customer IsParty → view value.now ≡ spec.customer_value customer
        → Gives customer result }
{
    if value.is_null() {
        return Ok(None);
    }
    Ok(Some(party_of(alloc, value)?))
}

pub(crate) fn customer_at(alloc: Global, value: &Value) -> Result<Option<Party>, Unread>
    ensures { (customer : Option AnyParty) → ForSome customer IsParty
        → get (codes "customer") (view value.now) ≡ Some (spec.customer_value customer) → Gives customer result }
{
    customer_of(alloc, member(value, "customer")?)
}
