//! The options and the lines of an invoice, field by field.
ghost use Rattle.std.specs.Prelude.{◌≡◌, ◌∷◌, ◌++◌, [], ℕ, List, bytes_eq};
ghost use Rattle.script.specs.Options as spec;
ghost use Rattle.script.specs.SoFar.{IsSaid, party_of};

use crate::customers::Customers;
use crate::faults::{Fault, worded};
use crate::fields::{at_colon, at_equals, at_sign};
use crate::numbers::cents_of;
use crate::readings::{class_of, day_of, rect_of};
use amounts::Cents;
use invoice_kinds::RectKind;
use parties::Party;
use series::{InvoiceId, NumSerie};
use shop_core::Word;
use std::alloc::Global;
use tax_lines::TaxLine;

/// What a field past the kind of an invoice says.
#[derive(Drop)]
pub enum Item {
    /// The customer that it names.
    To(Party),
    /// How the invoice rectifies.
    Rect(RectKind),
    /// An invoice that it refers to.
    Ref(InvoiceId),
    /// A line.
    Line(TaxLine),
}

/// What stands among the fields before.
#[derive(Clone, Copy, Drop)]
pub struct FieldsSeen {
    pub to: bool,
    pub rect: bool,
    pub line: bool,
}

impl FieldsSeen {
    /// Nothing.
    pub fn nothing() -> FieldsSeen
        ensures { result ≡ spec.seen_in [] }
    {
        FieldsSeen {
            to: false,
            rect: false,
            line: false,
        }
    }

    /// What stands among them with this field.
    pub fn with(self, field: &str) -> FieldsSeen
        ensures { (before : List (List ℕ)) → self ≡ spec.seen_in before → result ≡ spec.seen_in (before ++ field.now ∷ []) }
    {
        match at_equals(field) {
            Some((name, _)) => FieldsSeen {
                to: self.to || is_word(name, "to"),
                rect: self.rect || is_word(name, "rect"),
                line: self.line,
            },
            None => FieldsSeen {
                to: self.to,
                rect: self.rect,
                line: true,
            },
        }
    }
}

/// The text is this word.
pub fn is_word(text: &str, word: &str) -> bool
    ensures { result ≡ bytes_eq text.now word.now }
{
    text == word
}

fn to_of(alloc: Global, customers: &Customers, seen: FieldsSeen, value: &str) -> Result<Item, Fault>
    ensures { IsSaid (spec.to_said (party_of customers.now) seen value.now) result }
{
    if seen.to {
        return Err(Fault::Bad(Word::Option));
    }
    let Some(party) = customers.get(value) else {
        return Err(Fault::Bad(Word::Customer));
    };
    match party.copied(alloc) {
        Ok(party) => Ok(Item::To(party)),
        Err(_) => Err(Fault::NoMemory),
    }
}

fn rect_item(seen: FieldsSeen, value: &str) -> Result<Item, Word>
    ensures { result ≡ spec.rect_said seen value.now }
{
    if seen.rect {
        return Err(Word::Option);
    }
    match rect_of(value) {
        Some(rect) => Ok(Item::Rect(rect)),
        None => Err(Word::Option),
    }
}

fn ref_item(value: &str) -> Result<Item, Word>
    ensures { result ≡ spec.ref_said value.now }
{
    let Some((num, day)) = at_sign(value) else {
        return Err(Word::Option);
    };
    let Some(num) = NumSerie::read(num) else {
        return Err(Word::Num);
    };
    let Some(day) = day_of(day) else {
        return Err(Word::Date);
    };
    Ok(Item::Ref(InvoiceId { num, day }))
}

fn line_item(field: &str) -> Result<Item, Word>
    ensures { result ≡ spec.tax_line_said field.now }
{
    let Some((class, base)) = at_colon(field) else {
        return Err(Word::Class);
    };
    let Some(key) = class_of(class) else {
        return Err(Word::Class);
    };
    let Some(base) = cents_of(base.as_bytes()) else {
        return Err(Word::Number);
    };
    Ok(Item::Line(TaxLine {
        key,
        base: Cents::of(base),
    }))
}

fn option_item(
    alloc: Global,
    customers: &Customers,
    seen: FieldsSeen,
    name: &str,
    value: &str,
) -> Result<Item, Fault>
    ensures { IsSaid (spec.option_said (party_of customers.now) seen name.now value.now) result }
{
    if seen.line {
        return Err(Fault::Bad(Word::Option));
    }
    if is_word(name, "to") {
        return to_of(alloc, customers, seen, value);
    }
    if is_word(name, "rect") {
        return worded(rect_item(seen, value));
    }
    if is_word(name, "ref") {
        return worded(ref_item(value));
    }
    Err(Fault::Bad(Word::Option))
}

/// What a field says after those in which that was seen.
pub fn said_by(
    alloc: Global,
    customers: &Customers,
    seen: FieldsSeen,
    field: &str,
) -> Result<Item, Fault>
    ensures { IsSaid (spec.item_said (party_of customers.now) seen field.now) result }
{
    match at_equals(field) {
        Some((name, value)) => option_item(alloc, customers, seen, name, value),
        None => worded(line_item(field)),
    }
}
