//! Texts that are cut at a byte.
ghost use Rattle.std.specs.Prelude.{◌≡◌, ◌==◌, [], ◌∷◌, MatchOption, position};
ghost use Rattle.std.specs.Str.Lines.{strip_carriage_return};
ghost use Rattle.script.specs.Cuts.{parts_of, parts_left};

use std::marker::Model;

/// The parts of bytes between the places of one byte. Contracts see the list of those that are still to come.
#[derive(Drop)]
pub struct Cuts<'a> {
    rest: Option<&'a [u8]>,
    cut: u8,
}

impl<'a> Model for Cuts<'a> {
    ghost use Rattle.std.specs.Prelude.{ℕ, List};
    ghost use Rattle.script.specs.Cuts.{parts_left};

    ghost Value = { List (List ℕ) };

    ghost view = { λ p. parts_left p.cut p.rest };
}

impl<'a> Cuts<'a> {
    /// The parts between the bytes that are `cut`.
    pub fn of(bytes: &'a [u8], cut: u8) -> Cuts<'a>
        ensures { result ≡ parts_of cut bytes.now }
    {
        Cuts {
            rest: Some(bytes),
            cut,
        }
    }

    /// The next part, where there is one.
    pub fn next(&mut self) -> Option<&'a [u8]>
        ensures { MatchOption result (self.old ≡ []) (λ part. self.old ≡ part.now ∷ self.new) }
    {
        match self.rest {
            None => None,
            Some(bytes) => {
                let (part, rest) = first_part(bytes, self.cut);
                self.rest = rest;
                Some(part)
            }
        }
    }
}

fn place_of(bytes: &[u8], byte: u8) -> Option<usize>
    ensures { result ≡ position (λ b. b == byte) bytes.now }
{
    bytes.iter().position(|b| *b == byte)
}

// The part before the first cut, and what is left after it, where there is a cut.
fn first_part(bytes: &[u8], cut: u8) -> (&[u8], Option<&[u8]>)
    ensures { parts_of cut bytes.now ≡ result.0.now ∷ parts_left cut result.1 }
{
    match place_of(bytes, cut) {
        Some(end) => (&bytes[..end], Some(&bytes[end + 1..])),
        None => (bytes, None),
    }
}

/// A line without the one carriage return at its end.
pub fn without_return(line: &[u8]) -> &[u8]
    ensures { result.now ≡ strip_carriage_return line.now }
{
    match line {
        [front @ .., b'\r'] => front,
        _ => line,
    }
}
