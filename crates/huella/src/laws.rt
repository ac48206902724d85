//! What holds of every record.
ghost use Rattle.std.specs.Prelude.{◌≡◌};
ghost use Rattle.huella.specs.Texts.{field_text};
ghost use Rattle.huella.specs.Stated.{IsStated, SameStated};
ghost use Rattle.record_fields.specs.declared.records.Record.{Record as AnyRecord};

use amounts::text_determines_amount;
use stamps::{text_determines_day, text_determines_moment};

/// Two records with one field text are of one sort, and have one issuer, number, date, kind, totals, Huella before and
/// moment. So a Huella seals all of these: whoever changes one of them in a record and keeps its Huella has found two texts
/// with one SHA-256. That every record meets the premise is said by `is_stated`.
pub fn text_determines_record()
    //= Two records with one field text are of one sort and have one issuer, number, date, Huella before and moment,
    //= and altas one kind and totals.
    //= No body: a law over definitions, which has no body
    ensures { (a b : AnyRecord) → IsStated a → IsStated b → field_text a ≡ field_text b → SameStated a b }
{
    text_determines_amount();
    text_determines_day();
    text_determines_moment();
}
