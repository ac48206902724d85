//! Reading a whole number.
ghost use Rattle.std.specs.Prelude.{◌≡◌, ℕ, ◌≢◌, min, IfSome, IfNone, IsTrue, ◌↔◌, ◌<◌, length, slice_index};
ghost use Rattle.std.specs.Str.Parse.{digits_value};
ghost use Rattle.amounts.specs.Text.{whole_text};
ghost use Rattle.amounts.specs.declared.whole.TheConstants.{WHOLE_LIMIT};

/// Past every amount in cents, and past every number that is read: 10^13.
pub const WHOLE_LIMIT: u64 = 10_000_000_000_000;

// Something stands there, and no zero leads more bytes.
fn is_led(bytes: &[u8]) -> bool
    ensures { IsTrue result
        ↔ ((0 < length bytes.now) × (slice_index bytes.now 0 ≡ 48 → length bytes.now ≡ 1)) }
{
    !bytes.is_empty() && (bytes[0] != b'0' || bytes.len() == 1)
}

/// The number that decimal digits without leading zeros write, or `WHOLE_LIMIT` where it is more. None exactly where the
/// bytes are no such digits.
pub fn read_whole(bytes: &[u8]) -> Option<u64>
    ensures text { IfSome result (λ _. whole_text (digits_value 10 bytes.now) ≡ bytes.now) }
    //= Decimal digits without leading zeros are read as their number, or 10^13 where it is more.
    //= No body: it reads a script's numbers and a command line's, which sessions compare
    ensures value { IfSome result (λ n. n ≡ min (digits_value 10 bytes.now) WHOLE_LIMIT) }
    ensures none { IfNone result ((v : ℕ) → bytes.now ≢ whole_text v) }
{
    if !is_led(bytes) {
        return None;
    }
    let mut value: u64 = 0;
    for b in bytes {
        if !b.is_ascii_digit() {
            return None;
        }
        value = (value * 10 + (*b - b'0') as u64).min(WHOLE_LIMIT);
    }
    Some(value)
}
