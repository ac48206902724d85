//! Numbers of two digits.
ghost use Rattle.std.specs.Prelude.{◌≡◌, ◌≢◌, ℕ, ◌<◌, ◌+◌, ◌/◌, ◌%◌, IfSome, IfNone};

/// The number that two digits write; None exactly where one of the bytes is no digit.
pub fn read_two_digits(tens: u8, ones: u8) -> Option<u8>
    ensures bound { IfSome result (λ n. n < 100) }
    ensures tens { IfSome result (λ n. tens ≡ 48 + n / 10) }
    ensures ones { IfSome result (λ n. ones ≡ 48 + n % 10) }
    ensures none { IfNone result ((n : ℕ) → n < 100 → tens ≡ 48 + n / 10 → ones ≢ 48 + n % 10) }
{
    if tens.is_ascii_digit() && ones.is_ascii_digit() {
        Some((tens - b'0') * 10 + (ones - b'0'))
    } else {
        None
    }
}

/// A number below 100 as two digits.
pub fn two_digits(n: u8) -> (u8, u8)
    requires { n < 100 }
    ensures tens { result.0 ≡ 48 + n / 10 }
    ensures ones { result.1 ≡ 48 + n % 10 }
{
    (b'0' + n / 10, b'0' + n % 10)
}
