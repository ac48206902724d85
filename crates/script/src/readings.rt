//! The fields of a line as they are read, each with its own word.
ghost use Rattle.std.specs.Prelude.{◌≡◌, ◌≤◌, ℕ, drop, IfOk, OnOk, IfSome};
ghost use Rattle.std.specs.Int.{IsInRange};
ghost use Rattle.amounts.specs.declared.cents.TheConstants.{MAX_CENTS};
ghost use Rattle.parties.specs.declared.nif.Nif.{Nif as AnyNif};
ghost use Rattle.series.specs.Numbers.{is_series, is_num_serie};
ghost use Rattle.shop_core.specs.declared.words.Word.TheVariants as word;
ghost use Rattle.script.specs.Fields.{first_field, such, text_in};
ghost use Rattle.script.specs.Numbers as numbers;
ghost use Rattle.script.specs.Readings as spec;

use crate::fields::Fields;
use crate::keys::is_key;
use crate::numbers::{cents_of, number_in};
use agency_rules::Fate;
use amounts::Cents;
use invoice_kinds::{Kind, RectKind};
use parties::Nif;
use series::{NumSerie, SeriesName};
use shop_core::Word;
use stamps::{Day, text_determines_day};
use tax_lines::LineKey;

/// A number of this range.
pub fn number(fields: &mut Fields, low: u64, high: u64, word: Word) -> Result<u64, Word>
    requires { high ≤ MAX_CENTS }
    ensures value { result ≡ first_field fields.old (numbers.number_in low high) word }
    ensures rest { OnOk result (fields.new ≡ drop 1 fields.old) }
    ensures range { IfOk result (λ n. IsInRange low high n) }
{
    let field = fields.field()?;
    match number_in(low, high, field.as_bytes()) {
        Some(n) => Ok(n),
        None => Err(word),
    }
}

/// The name of a series.
pub fn series(fields: &mut Fields) -> Result<SeriesName, Word>
    ensures value { result ≡ first_field fields.old (such is_series) word.Series }
    ensures rest { OnOk result (fields.new ≡ drop 1 fields.old) }
{
    let field = fields.field()?;
    match SeriesName::read(field) {
        Some(name) => Ok(name),
        None => Err(Word::Series),
    }
}

/// The number of an invoice.
pub fn num(fields: &mut Fields) -> Result<NumSerie, Word>
    ensures value { result ≡ first_field fields.old (such is_num_serie) word.Num }
    ensures rest { OnOk result (fields.new ≡ drop 1 fields.old) }
{
    let field = fields.field()?;
    match NumSerie::read(field) {
        Some(num) => Ok(num),
        None => Err(Word::Num),
    }
}

fn kind_of(text: &str) -> Option<Kind>
    ensures { result ≡ spec.kind_of text.now }
{
    Kind::read(text)
}

/// The kind of an invoice.
pub fn kind(fields: &mut Fields) -> Result<Kind, Word>
    ensures value { result ≡ first_field fields.old spec.kind_of word.Kind }
    ensures rest { OnOk result (fields.new ≡ drop 1 fields.old) }
{
    let field = fields.field()?;
    match kind_of(field) {
        Some(kind) => Ok(kind),
        None => Err(Word::Kind),
    }
}

/// The key of a customer.
pub fn key<'a>(fields: &mut Fields<'a>) -> Result<&'a str, Word>
    ensures value { text_in result ≡ first_field fields.old (such spec.is_key) word.Customer }
    ensures rest { OnOk result (fields.new ≡ drop 1 fields.old) }
{
    let field = fields.field()?;
    if is_key(field) {
        Ok(field)
    } else {
        Err(Word::Customer)
    }
}

fn nif_of(text: &str) -> Option<Nif>
    ensures { result ≡ such spec.is_nif text.now }
{
    match Nif::read(text) {
        Ok(nif) => Some(nif),
        Err(_) => None,
    }
}

/// A tax number.
pub fn nif(fields: &mut Fields) -> Result<Nif, Word>
    ensures value { result ≡ first_field fields.old (such spec.is_nif) word.Nif }
    ensures rest { OnOk result (fields.new ≡ drop 1 fields.old) }
{
    let field = fields.field()?;
    match nif_of(field) {
        Some(nif) => Ok(nif),
        None => Err(Word::Nif),
    }
}

/// How a rectifying invoice rectifies.
pub fn rect_of(text: &str) -> Option<RectKind>
    ensures { result ≡ spec.rect_of text.now }
{
    match text {
        "S" => Some(RectKind::S),
        "I" => Some(RectKind::I),
        _ => None,
    }
}

/// The fate of a call that is one word.
pub fn fate_of(text: &str) -> Option<Fate>
    ensures { result ≡ spec.fate_of text.now }
{
    match text {
        "lost" => Some(Fate::Lost),
        "taken" => Some(Fate::Taken),
        "stale" => Some(Fate::Stale),
        "again" => Some(Fate::Again),
        _ => None,
    }
}

/// What a line is taxed by: its tax, class and rate.
pub fn class_of(text: &str) -> Option<LineKey>
    ensures { result ≡ spec.class_of text.now }
{
    LineKey::read(text)
}

/// The same as a field.
pub fn class(fields: &mut Fields) -> Result<LineKey, Word>
    ensures value { result ≡ first_field fields.old spec.class_of word.Class }
    ensures rest { OnOk result (fields.new ≡ drop 1 fields.old) }
{
    let field = fields.field()?;
    match class_of(field) {
        Some(key) => Ok(key),
        None => Err(Word::Class),
    }
}

/// Cents, with a minus in front where they are negative.
pub fn cents(fields: &mut Fields) -> Result<Cents, Word>
    ensures value { result ≡ first_field fields.old numbers.cents_of word.Number }
    ensures rest { OnOk result (fields.new ≡ drop 1 fields.old) }
{
    let field = fields.field()?;
    match cents_of(field.as_bytes()) {
        Some(cents) => Ok(Cents::of(cents)),
        None => Err(Word::Number),
    }
}

/// A day, written `DD-MM-YYYY`.
pub fn day_of(text: &str) -> Option<Day>
    ensures { result ≡ spec.day_of text.now }
{
    text_determines_day();
    match Day::read(text) {
        Some(day) => {
            let _number = day.get();
            Some(day)
        }
        None => None,
    }
}
