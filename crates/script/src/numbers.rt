//! Numbers as a script writes them: decimal digits without leading zeros.
ghost use Rattle.std.specs.Prelude.{◌≡◌, ◌≤◌, ◌&&◌, nat_le, IfSome, unsigned_abs};
ghost use Rattle.std.specs.Int.{IsInRange};
ghost use Rattle.amounts.specs.declared.cents.TheConstants.{MAX_CENTS};
ghost use Rattle.script.specs.Numbers as spec;

use amounts::{MAX_CENTS, read_whole};

fn is_within(low: u64, high: u64, n: u64) -> bool
    ensures { result ≡ (nat_le low n && nat_le n high) }
{
    low <= n && n <= high
}

/// The number that a text writes, where it lies from `low` to `high`.
pub fn number_in(low: u64, high: u64, text: &[u8]) -> Option<u64>
    requires { high ≤ MAX_CENTS }
    ensures value { result ≡ spec.number_in low high text.now }
    ensures range { IfSome result (λ n. IsInRange low high n) }
{
    let n = read_whole(text)?;
    if is_within(low, high, n) {
        Some(n)
    } else {
        None
    }
}

/// Cents within the limit of amounts, with a minus in front where they are negative.
pub fn cents_of(text: &[u8]) -> Option<i64>
    ensures value { result ≡ spec.cents_of text.now }
    ensures range { IfSome result (λ z. unsigned_abs z ≤ MAX_CENTS) }
{
    match text {
        [b'-', digits @ ..] => match number_in(1, MAX_CENTS, digits) {
            Some(n) => Some(-(n as i64)),
            None => None,
        },
        _ => match number_in(0, MAX_CENTS, text) {
            Some(n) => Some(n as i64),
            None => None,
        },
    }
}
