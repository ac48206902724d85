//! Numbers of invoices.
ghost use Rattle.std.specs.Prelude.{◌≡◌, ◌↔◌, ◌≤◌, length, IsTrue, IsSome, IfSome};
ghost use Rattle.std.specs.Int.{IsInRange};
ghost use Rattle.std.specs.List.{list_all};
ghost use Rattle.series.specs.Numbers as spec;

use crate::SeriesName;
use crate::inline::Inline;
use itoa::Buffer;
use stamps::Day;
use std::marker::Model;

/// The number of an invoice, `NumSerieFactura` of the record: 1 to 60 characters of printable ASCII without
/// `" ' < > =`, and no blank at either end.
#[derive(Clone, Copy, Debug, PartialEq, Eq, Hash)]
pub struct NumSerie {
    text: Inline<60>,
}

impl Model for NumSerie {
    ghost use Rattle.std.specs.Prelude.{List, ℕ, IsTrue};
    ghost use Rattle.series.specs.Numbers.{is_num_serie};

    ghost Value = { List ℕ };

    ghost view = { λ s. s.text };

    ghost invariant = { λ s. IsTrue (is_num_serie s.text) };

    ghost inverse = { λ v. record { text = v } };
}

fn is_number_char(c: u8) -> bool
    ensures { result ≡ spec.is_number_char c }
{
    b' ' <= c && c <= b'~' && !matches!(c, b'"' | b'\'' | b'<' | b'=' | b'>')
}

fn all_number_chars(text: &[u8]) -> bool
    ensures { result ≡ list_all spec.is_number_char text.now }
{
    text.iter().all(|c| is_number_char(*c))
}

fn is_num_serie(text: &[u8]) -> bool
    ensures { result ≡ spec.is_num_serie text.now }
{
    let n = text.len();
    1 <= n && n <= 60 && all_number_chars(text) && text[0] != b' ' && text[n - 1] != b' '
}

// What stands before the last dash, nothing where there is none.
fn before_dash(number: &[u8]) -> &[u8]
    ensures { result.now ≡ spec.series_of number.now }
{
    let mut end = number.len();
    while end > 0 {
        end -= 1;
        if number[end] == b'-' {
            return &number[..end];
        }
    }
    &number[..0]
}

impl NumSerie {
    /// The number that the text is, `None` exactly where it is none.
    pub fn read(text: &str) -> Option<NumSerie>
        //= An invoice's number is taken exactly in its form.
        ensures valid { IsSome result ↔ IsTrue (spec.is_num_serie text.now) }
        ensures value { IfSome result (λ number. number ≡ text.now) }
    {
        let bytes = text.as_bytes();
        if !is_num_serie(bytes) {
            return None;
        }
        let mut text = Inline::new();
        text.append(bytes);
        Some(NumSerie { text })
    }

    /// Its bytes.
    pub fn as_slice(&self) -> &[u8]
        ensures value { result.now ≡ self.now }
        ensures number { IsTrue (spec.is_num_serie result.now) }
    {
        self.text.as_slice()
    }

    /// What stands before its last dash: the series' name in a number that `number` made. Nothing where there is no dash.
    pub fn series(&self) -> &[u8]
        ensures { result.now ≡ spec.series_of self.now }
    {
        before_dash(self.as_slice())
    }

    /// The same as a name, `None` exactly where it is none.
    pub fn series_name(&self) -> Option<SeriesName>
        ensures valid { IsSome result ↔ IsTrue (spec.is_series (spec.series_of self.now)) }
        ensures value { IfSome result (λ name. name ≡ spec.series_of self.now) }
    {
        SeriesName::of(self.series())
    }
}

/// The n-th number of a series, from 1 to 99,999,999: `NAME-n`.
pub fn number(series: &SeriesName, n: u32) -> NumSerie
    requires { IsInRange 1 99_999_999 n }
    //= A number is `NAME-n`.
    ensures { result ≡ spec.number_text series.now n }
{
    let mut buffer = Buffer::new();
    let mut text = Inline::new();
    text.append(series.as_slice());
    text.append(b"-");
    text.append(buffer.format(n).as_bytes());
    NumSerie { text }
}

/// What identifies an invoice of one issuer: its number and its day of issue.
#[derive(Clone, Copy, Debug, PartialEq, Eq, Hash)]
pub struct InvoiceId {
    pub num: NumSerie,
    pub day: Day,
}
