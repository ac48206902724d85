//! Names of series.
ghost use Rattle.std.specs.Prelude.{◌≡◌, ◌↔◌, ◌≤◌, length, IsTrue, IsSome, IfSome};
ghost use Rattle.std.specs.List.{list_all};
ghost use Rattle.series.specs.Numbers as spec;

use crate::inline::Inline;
use std::marker::Model;

/// The name of a series of invoice numbers: 1 to 20 of `A-Z a-z 0-9 / _`.
#[derive(Clone, Copy, Debug, PartialEq, Eq, Hash)]
pub struct SeriesName {
    text: Inline<20>,
}

impl Model for SeriesName {
    ghost use Rattle.std.specs.Prelude.{List, ℕ, IsTrue};
    ghost use Rattle.series.specs.Numbers.{is_series};

    ghost Value = { List ℕ };

    ghost view = { λ s. s.text };

    ghost invariant = { λ s. IsTrue (is_series s.text) };

    ghost inverse = { λ v. record { text = v } };
}

fn is_series_char(c: u8) -> bool
    ensures { result ≡ spec.is_series_char c }
{
    c.is_ascii_alphanumeric() || c == b'/' || c == b'_'
}

fn all_series_chars(text: &[u8]) -> bool
    ensures { result ≡ list_all spec.is_series_char text.now }
{
    text.iter().all(|c| is_series_char(*c))
}

fn is_series(text: &[u8]) -> bool
    ensures { result ≡ spec.is_series text.now }
{
    1 <= text.len() && text.len() <= 20 && all_series_chars(text)
}

impl SeriesName {
    /// The name that the text is, `None` exactly where it is none.
    pub fn read(text: &str) -> Option<SeriesName>
        //= A series' name is taken exactly in its form.
        ensures valid { IsSome result ↔ IsTrue (spec.is_series text.now) }
        ensures value { IfSome result (λ name. name ≡ text.now) }
    {
        SeriesName::of(text.as_bytes())
    }

    // The name that the bytes are.
    pub(crate) fn of(bytes: &[u8]) -> Option<SeriesName>
        ensures valid { IsSome result ↔ IsTrue (spec.is_series bytes.now) }
        ensures value { IfSome result (λ name. name ≡ bytes.now) }
    {
        if !is_series(bytes) {
            return None;
        }
        let mut text = Inline::new();
        text.append(bytes);
        Some(SeriesName { text })
    }

    /// Its bytes.
    pub fn as_slice(&self) -> &[u8]
        ensures value { result.now ≡ self.now }
        ensures name { IsTrue (spec.is_series result.now) }
    {
        self.text.as_slice()
    }
}
