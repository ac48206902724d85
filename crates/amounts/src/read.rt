//! Reading an amount.
ghost use Rattle.std.specs.Prelude.{◌≡◌, ℕ, ◌≢◌, IfSome, IfNone, ℤ, Ok};
ghost use Rattle.amounts.specs.Text.{cents_text, amount_text};
ghost use Rattle.amounts.specs.Cents.{IsSize, IsCents};
ghost use Rattle.amounts.specs.Reading.{IsReading, IsPositiveReading, IsNegativeReading};

use crate::{Cents, MAX_CENTS, read_whole};

// The cents of a text with no minus, or some number from 10^13 on where they are as many.
fn read_size(bytes: &[u8]) -> Option<u64>
    ensures value { IfSome result (λ n. (v : ℕ) × (bytes.now ≡ cents_text v) × IsSize n v) }
    ensures none { IfNone result ((v : ℕ) → bytes.now ≢ cents_text v) }
{
    if bytes.len() < 3 {
        return None;
    }
    let point = bytes.len() - 3;
    if bytes[point] != b'.' {
        return None;
    }
    if !bytes[point + 1].is_ascii_digit() {
        return None;
    }
    if !bytes[point + 2].is_ascii_digit() {
        return None;
    }
    match read_whole(&bytes[..point]) {
        Some(euros) => {
            let tens = (bytes[point + 1] - b'0') as u64;
            let ones = (bytes[point + 2] - b'0') as u64;
            Some(euros * 100 + tens * 10 + ones)
        }
        None => None,
    }
}

/// Why a text is no amount.
#[derive(Clone, Copy, Debug, PartialEq, Eq)]
pub enum AmountFault {
    /// The text doesn't have the form in which amounts are written.
    Shape,
    /// It has, and the amount is more than `MAX_CENTS` in absolute value.
    Range,
}

/// The amount that the text writes, in the form of `text_of`: `-0.00` and leading zeros are no amounts.
pub fn read_cents(text: &str) -> Result<Cents, AmountFault>
    //= An amount is read from its one text alone; any other text is out of range where it is that of a greater
    //= number, else out of form.
    ensures reading { IsReading text.now result }

    // Reading undoes writing.
    ensures inverse { (v : ℤ) → IsCents v → text.now ≡ amount_text v → result ≡ Ok v }
{
    let bytes = text.as_bytes();
    if !bytes.is_empty() && bytes[0] == b'-' {
        read_negative(&bytes[1..])
    } else {
        read_positive(bytes)
    }
}

// The amount that a text with no minus writes.
fn read_positive(bytes: &[u8]) -> Result<Cents, AmountFault>
    ensures { IsPositiveReading bytes.now result }
{
    match read_size(bytes) {
        Some(size) if size <= MAX_CENTS => Ok(Cents::of_size(size)),
        Some(_) => Err(AmountFault::Range),
        None => Err(AmountFault::Shape),
    }
}

// The amount of a text after its minus.
fn read_negative(bytes: &[u8]) -> Result<Cents, AmountFault>
    ensures { IsNegativeReading bytes.now result }
{
    match read_size(bytes) {
        Some(0) => Err(AmountFault::Shape),
        Some(size) if size <= MAX_CENTS => Ok(-Cents::of_size(size)),
        Some(_) => Err(AmountFault::Range),
        None => Err(AmountFault::Shape),
    }
}
