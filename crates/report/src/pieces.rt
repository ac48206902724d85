//! The pieces of printed lines. Each call appends to a text.
ghost use Rattle.std.specs.Prelude.{◌≡◌, ◌++◌, ◌+◌, ◌/◌, ◌%◌, ◌<◌, ◌∷◌, [], OnOk, decimal};
ghost use Rattle.std.specs.Fmt.{signed_decimal};
ghost use Rattle.amounts.specs.Text.{amount_text, cents_text};
ghost use Rattle.huella.specs.Texts.{huella_text};
ghost use Rattle.report.specs.Pieces.{chain_line, chain_text};

use huella::huella_text;
use itoa::Buffer;
use std::alloc::AllocError;

pub fn put(text: &mut Vec<u8>, part: &[u8]) -> Result<(), AllocError>
    ensures { OnOk result (text.new.items ≡ text.old.items ++ part.now) }
{
    text.extend_from_slice(part)
}

pub fn put_number(text: &mut Vec<u8>, n: u64) -> Result<(), AllocError>
    ensures { OnOk result (text.new.items ≡ text.old.items ++ decimal n) }
{
    let mut buffer = Buffer::new();
    text.extend_from_slice(buffer.format(n).as_bytes())
}

/// The same of a number that 64 bits may not hold.
pub fn put_wide(text: &mut Vec<u8>, n: u128) -> Result<(), AllocError>
    ensures { OnOk result (text.new.items ≡ text.old.items ++ decimal n) }
{
    let mut buffer = Buffer::new();
    text.extend_from_slice(buffer.format(n).as_bytes())
}

/// A word that ends with a blank, and a number.
pub fn put_counted(text: &mut Vec<u8>, word: &[u8], n: u64) -> Result<(), AllocError>
    ensures { OnOk result (text.new.items ≡ text.old.items ++ (word.now ++ decimal n)) }
{
    put(text, word)?;
    put_number(text, n)
}

/// The same with a number that may be negative.
pub fn put_signed(text: &mut Vec<u8>, word: &[u8], n: i64) -> Result<(), AllocError>
    ensures { OnOk result (text.new.items ≡ text.old.items ++ (word.now ++ signed_decimal n)) }
{
    let mut buffer = Buffer::new();
    put(text, word)?;
    put(text, buffer.format(n).as_bytes())
}

pub fn put_huella(text: &mut Vec<u8>, huella: &[u8; 32]) -> Result<(), AllocError>
    ensures { OnOk result (text.new.items ≡ text.old.items ++ huella_text huella.now) }
{
    text.extend_from_slice(huella_text(huella).as_slice())
}

/// Two digits.
fn put_pair(text: &mut Vec<u8>, n: u8) -> Result<(), AllocError>
    requires { n < 100 }
    ensures { OnOk result (text.new.items ≡ text.old.items ++ ((48 + n / 10) ∷ (48 + n % 10) ∷ [])) }
{
    put(text, &[b'0' + n / 10, b'0' + n % 10])
}

/// This many cents in euros.
fn put_cents(text: &mut Vec<u8>, cents: u128) -> Result<(), AllocError>
    ensures { OnOk result (text.new.items ≡ text.old.items ++ cents_text cents) }
{
    put_wide(text, cents / 100)?;
    put(text, b".")?;
    put_pair(text, (cents % 100) as u8)
}

/// An amount, of any size.
pub fn put_amount(text: &mut Vec<u8>, cents: i64) -> Result<(), AllocError>
    ensures { OnOk result (text.new.items ≡ text.old.items ++ amount_text cents) }
{
    put_wide_amount(text, i128::from(cents))
}

/// The same of one that 64 bits may not hold.
pub fn put_wide_amount(text: &mut Vec<u8>, cents: i128) -> Result<(), AllocError>
    ensures { OnOk result (text.new.items ≡ text.old.items ++ amount_text cents) }
{
    if cents < 0 {
        put(text, b"-")?;
        put_cents(text, cents.unsigned_abs())
    } else {
        put_cents(text, cents.unsigned_abs())
    }
}

/// How many records and noted lines there are.
pub fn put_chain(text: &mut Vec<u8>, records: u32, noted: u32) -> Result<(), AllocError>
    ensures { OnOk result (text.new.items ≡ text.old.items ++ chain_text records noted) }
{
    put_counted(text, b"chain ", u64::from(records))?;
    put_counted(text, b" noted ", u64::from(noted))
}

/// The same as a line.
pub fn put_chain_line(text: &mut Vec<u8>, records: u32, noted: u32) -> Result<(), AllocError>
    ensures { OnOk result (text.new.items ≡ text.old.items ++ chain_line records noted) }
{
    put_chain(text, records, noted)?;
    put(text, b"\n")
}
