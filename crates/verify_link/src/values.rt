//! What the bytes of a field's value say.
ghost use Rattle.std.specs.Prelude.{◌≡◌, ◌≢◌, ◌≤◌, ℕ, ℤ, IsTrue, IfSome, IfNone};
ghost use Rattle.amounts.specs.Cents.{IsCents};
ghost use Rattle.amounts.specs.Text.{amount_text};
ghost use Rattle.parties.specs.Nif.{IsNif};
ghost use Rattle.series.specs.Numbers.{is_num_serie};
ghost use Rattle.stamps.specs.Day.{last_day};
ghost use Rattle.stamps.specs.Text.{date_text_of};

use amounts::{Cents, read_cents};
use parties::Nif;
use series::NumSerie;
use stamps::Day;
use std::str::from_utf8;

pub(crate) fn nif_of(bytes: &[u8]) -> Option<Nif>
    ensures value { IfSome result (λ nif. IsNif nif × (bytes.now ≡ nif)) }
    ensures none { IfNone result (¬ (IsNif bytes.now)) }
{
    match from_utf8(bytes) {
        Ok(text) => match Nif::read(text) {
            Ok(nif) => Some(nif),
            Err(_) => None,
        },
        Err(_) => None,
    }
}

pub(crate) fn num_of(bytes: &[u8]) -> Option<NumSerie>
    ensures value { IfSome result (λ num. IsTrue (is_num_serie num) × (bytes.now ≡ num)) }
    ensures none { IfNone result (¬ (IsTrue (is_num_serie bytes.now))) }
{
    match from_utf8(bytes) {
        Ok(text) => NumSerie::read(text),
        Err(_) => None,
    }
}

pub(crate) fn day_of(bytes: &[u8]) -> Option<Day>
    ensures value { IfSome result (λ day. (day ≤ last_day) × (bytes.now ≡ date_text_of day)) }
    ensures none { IfNone result ((n : ℕ) → n ≤ last_day → bytes.now ≢ date_text_of n) }
{
    match from_utf8(bytes) {
        Ok(text) => Day::read(text),
        Err(_) => None,
    }
}

pub(crate) fn total_of(bytes: &[u8]) -> Option<Cents>
    ensures value { IfSome result (λ total. IsCents total × (bytes.now ≡ amount_text total)) }
    ensures none { IfNone result ((v : ℤ) → IsCents v → bytes.now ≢ amount_text v) }
{
    match from_utf8(bytes) {
        Ok(text) => match read_cents(text) {
            Ok(total) => Some(total),
            Err(_) => None,
        },
        Err(_) => None,
    }
}
