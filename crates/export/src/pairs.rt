//! Pairs: what an invoice refers to, its lines, and the agency's lines.
ghost use Rattle.std.specs.Prelude.{◌≡◌, ◌≤◌, ℤ, IfOk, unsigned_abs};
ghost use Rattle.serde_json.specs.Data.{Data, number};
ghost use Rattle.serde_json.specs.Find.{of_integer};
ghost use Rattle.serde_json.specs.View.{view};
ghost use Rattle.tax_lines.specs.Keys.{IsKey};
ghost use Rattle.tax_lines.specs.declared.lines.TheConstants.{MAX_BASE};
ghost use Rattle.record_fields.specs.Valid.{IsId};
ghost use Rattle.record_codec.specs.Validity.{IsLine};
ghost use Rattle.export.specs.Objects as spec;
ghost use Rattle.export.specs.Fields.{Gives, GivesBy};

use crate::elements::Element;
use crate::faults::Unread;
use crate::fields::{day_of, num_of, short_of, text_of};
use crate::line_words::{line_code, line_named, line_word};
use crate::values::{day_value, key_value, num_value};
use amounts::Cents;
use record_fields::Line;
use serde_json::{Value, push};
use series::InvoiceId;
use std::alloc::{AllocError, Global};
use tax_lines::{LineKey, TaxLine};

fn pair_value(alloc: Global, first: Value, second: Value) -> Result<Value, AllocError>
    ensures { IfOk result (λ v. view v ≡ spec.pair_of (view first) (view second)) }
{
    let mut items = Vec::new(alloc);
    push(&mut items, first)?;
    push(&mut items, second)?;
    Ok(Value::Array(items))
}

// The two values of a pair.
fn first_of(value: &Value) -> Result<&Value, Unread>
    ensures { (a b : Data) → view value.now ≡ spec.pair_of a b → GivesBy (λ v. view v.now) a result }
{
    value.get(0usize).ok_or(Unread::Shape)
}

fn second_of(value: &Value) -> Result<&Value, Unread>
    ensures { (a b : Data) → view value.now ≡ spec.pair_of a b → GivesBy (λ v. view v.now) b result }
{
    value.get(1usize).ok_or(Unread::Shape)
}

fn base_of(value: &Value) -> Result<Cents, Unread>
    ensures { (base : ℤ) → unsigned_abs base ≤ MAX_BASE → view value.now ≡ number (of_integer base) → Gives base result }
{
    let base = value.as_i64().ok_or(Unread::Shape)?;
    Cents::new(base).ok_or(Unread::Shape)
}

impl Element for InvoiceId {
    ghost data_of = { spec.id_value };

    ghost is_formed = { IsId };

    fn to_value(&self, alloc: Global) -> Result<Value, AllocError> {
        let num = num_value(alloc, &self.num)?;
        let day = day_value(alloc, self.day)?;
        pair_value(alloc, num, day)
    }

    fn of_value(value: &Value) -> Result<InvoiceId, Unread> {
        let num = num_of(text_of(first_of(value)?)?)?;
        let day = day_of(text_of(second_of(value)?)?)?;
        Ok(InvoiceId { num, day })
    }
}

impl Element for TaxLine {
    ghost data_of = { spec.tax_line_value };

    ghost is_formed = { λ line. IsKey line.key × (unsigned_abs line.base ≤ MAX_BASE) };

    fn to_value(&self, alloc: Global) -> Result<Value, AllocError> {
        let key = key_value(alloc, self.key)?;
        pair_value(alloc, key, Value::from(self.base.get()))
    }

    fn of_value(value: &Value) -> Result<TaxLine, Unread> {
        let key = LineKey::read(text_of(first_of(value)?)?).ok_or(Unread::Shape)?;
        let base = base_of(second_of(value)?)?;
        Ok(TaxLine { key, base })
    }
}

impl Element for Line {
    ghost data_of = { spec.line_value };

    ghost is_formed = { IsLine };

    fn to_value(&self, alloc: Global) -> Result<Value, AllocError> {
        let word = Value::try_from_str(alloc, line_word(*self))?;
        pair_value(alloc, word, Value::from(line_code(*self)))
    }

    fn of_value(value: &Value) -> Result<Line, Unread> {
        let word = text_of(first_of(value)?)?;
        let code = short_of(second_of(value)?)?;
        line_named(word, code).ok_or(Unread::Shape)
    }
}
