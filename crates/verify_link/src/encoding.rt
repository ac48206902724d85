//! Values of a link, percent-encoded and read.
ghost use Rattle.std.specs.Prelude.{◌≡◌, ℕ, List, ◌++◌, IfOk, OnOk, MatchBool, MatchOption, IfSome, IfNone, IsAscii, ◌<◌, length};
ghost use Rattle.std.specs.Prelude.{false, slice_index};
ghost use Rattle.std.specs.String.{string_bytes};
ghost use Rattle.std.specs.Char.{is_digit};
ghost use Rattle.percent_encoding.specs.Percent.{percent_decode as decoded_bytes};
ghost use Rattle.verify_link.specs.Writing as spec;

use percent_encoding::{AsciiSet, NON_ALPHANUMERIC, ascii_set, percent_decode, percent_encode};
use ports::NoMemory;
use std::alloc::Global;

// The ASCII bytes that are escaped: all but `A-Z a-z 0-9 - . _ ~`.
const ESCAPED: AsciiSet = ascii_set!(
    NON_ALPHANUMERIC
        .remove(b'-')
        .remove(b'.')
        .remove(b'_')
        .remove(b'~')
);

/// Writes a value after the text.
pub(crate) fn encode_onto(value: &[u8], text: &mut String) -> Result<(), NoMemory>
    ensures { OnOk result (string_bytes text.new ≡ string_bytes text.old ++ spec.encoded value.now) }
{
    percent_encode(value, ESCAPED).append_to(text)?;
    Ok(())
}

/// The bytes whose encoding the value is, the case of escape digits aside. None where it's that of no ASCII text.
pub(crate) fn decode(alloc: Global, value: &[u8]) -> Result<Option<Vec<u8>>, NoMemory>
    ensures { IfOk result (λ found. MatchOption found
        ((said : List ℕ) → IsAscii said → ¬ (spec.AgreeButInCase value.now (spec.encoded said)))
        (λ bytes. (bytes.items ≡ decoded_bytes value.now) × spec.AgreeButInCase value.now (spec.encoded bytes.items))) }
{
    let mut bytes = Vec::new(alloc);
    percent_decode(value).append_to(&mut bytes)?;
    let mut again = String::new(alloc);
    encode_onto(&bytes, &mut again)?;
    if agree_but_in_case(value, again.as_bytes()) {
        Ok(Some(bytes))
    } else {
        Ok(None)
    }
}

fn agree_but_in_case(text: &[u8], written: &[u8]) -> bool
    ensures { MatchBool result (spec.AgreeButInCase text.now written.now) (¬ (spec.AgreeButInCase text.now written.now)) }
{
    if text.len() != written.len() {
        return false;
    }
    for (k, _) in text.iter().enumerate() {
        if !agrees_at(text, written, k) {
            return false;
        }
    }
    true
}

fn agrees_at(text: &[u8], written: &[u8], k: usize) -> bool
    requires text { k < length text.now }
    requires written { k < length written.now }
    ensures { result ≡ spec.agrees_at text.now written.now k }
{
    if is_behind_percent(text, k) {
        text[k].to_ascii_uppercase() == written[k]
    } else {
        text[k] == written[k]
    }
}

fn is_behind_percent(text: &[u8], k: usize) -> bool
    requires { k < length text.now }
    ensures { result ≡ spec.is_behind_percent text.now k }
{
    (k >= 1 && text[k - 1] == b'%') || (k >= 2 && text[k - 2] == b'%')
}

/// The place of the value's first `%` without two hexadecimal digits after it.
pub(crate) fn first_bad_escape(value: &[u8]) -> Option<usize>
    ensures first { IfSome result (λ k. spec.IsFirstBadEscape value.now k) }
    ensures within { IfSome result (λ k. k < length value.now) }
    ensures none { IfNone result ((k : ℕ) → spec.is_bad_escape value.now k ≡ false) }
{
    for (k, _) in value.iter().enumerate() {
        if is_bad_escape(value, k) {
            return Some(k);
        }
    }
    None
}

fn is_bad_escape(value: &[u8], k: usize) -> bool
    requires { k < length value.now }
    ensures { result ≡ spec.is_bad_escape value.now k }
{
    value[k] == b'%' && !(is_hex_digit_at(value, k + 1) && is_hex_digit_at(value, k + 2))
}

fn is_hex_digit_at(value: &[u8], k: usize) -> bool
    ensures { result ≡ is_digit (slice_index value.now k) 16 }
{
    k < value.len() && value[k].is_ascii_hexdigit()
}
