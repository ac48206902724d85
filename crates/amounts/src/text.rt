//! How an amount is written.
ghost use Rattle.std.specs.Prelude.{◌≡◌, ℕ, ◌≤◌, List, drop};
ghost use Rattle.std.specs.Int.{IsInRange};
ghost use Rattle.amounts.specs.Text.{cents_text, amount_text};
ghost use Rattle.amounts.specs.declared.cents.TheConstants.{MAX_CENTS};

use crate::Cents;
use itoa::write_digits;
use std::marker::Model;

/// The text of an amount, in the value itself.
#[derive(Debug, Drop)]
pub struct AmountText {
    bytes: [u8; 15],
    start: usize,
}

impl Model for AmountText {
    ghost Value = { List ℕ };

    ghost view = { λ t. drop t.start t.bytes };

    ghost invariant = { λ t. t.start ≤ 15 };
}

impl AmountText {
    /// Its bytes.
    pub fn as_slice(&self) -> &[u8]
        ensures { result.now ≡ self.now }
    {
        &self.bytes[self.start..]
    }
}

// Writes this many cents to the end of the buffer, and returns where the text starts.
fn write_cents(size: u64, bytes: &mut [u8; 15]) -> usize
    requires { size ≤ MAX_CENTS }
    ensures start { IsInRange 1 12 result }
    ensures written { drop result bytes.new ≡ cents_text size }
{
    bytes[12] = b'.';
    bytes[13] = b'0' + (size % 100 / 10) as u8;
    bytes[14] = b'0' + (size % 10) as u8;
    write_digits(size / 100, bytes, 12)
}

/// The amount in euros: a minus where it is negative, euros without leading zeros, a point and two digits of cents. That
/// there are always two decimals is this project's own.
pub fn text_of(v: Cents) -> AmountText
    ensures { result ≡ amount_text v }
{
    let mut bytes = [b'0'; 15];
    let start = write_cents(v.size(), &mut bytes);
    if v.is_negative() {
        bytes[start - 1] = b'-';
        AmountText {
            bytes,
            start: start - 1,
        }
    } else {
        AmountText { bytes, start }
    }
}
