//! The fields of a line, one after another. A blank is a space or a tab.
ghost use Rattle.std.specs.Prelude.{◌≡◌, [], ◌∷◌, MatchOption, MatchResult, option_copied};
ghost use Rattle.shop_core.specs.declared.words.Word.TheVariants as word;
ghost use Rattle.script.specs.Cuts.{cut_where, cut_at_first, cut_at_last};
ghost use Rattle.script.specs.Fields as spec;
ghost use Rattle.script.specs.Fields.{is_blank, fields_of, fields_left, is_left, unless_any};
ghost use Rattle.record_fields.specs.Picks.{when};

use shop_core::Word;
use std::marker::Model;

/// The fields of a line, between its blanks. Contracts see the list of those that are still to come.
#[derive(Drop)]
pub struct Fields<'a> {
    rest: Option<&'a str>,
}

impl<'a> Model for Fields<'a> {
    ghost use Rattle.std.specs.Prelude.{ℕ, List};
    ghost use Rattle.script.specs.Fields.{fields_left};

    ghost Value = { List (List ℕ) };

    ghost view = { λ f. fields_left f.rest };
}

impl<'a> Fields<'a> {
    pub fn of(line: &'a str) -> Fields<'a>
        ensures { result ≡ fields_of line.now }
    {
        Fields { rest: Some(line) }
    }

    /// The next field, where there is one.
    pub fn next(&mut self) -> Option<&'a str>
        ensures { MatchOption result (self.old ≡ []) (λ field. self.old ≡ field.now ∷ self.new) }
    {
        match self.rest {
            None => None,
            Some(text) => {
                let (field, rest) = first_field(text);
                self.rest = rest;
                Some(field)
            }
        }
    }

    /// The next field, which is `Fields` where it is missing.
    pub fn field(&mut self) -> Result<&'a str, Word>
        ensures { MatchResult result (λ field. self.old ≡ field.now ∷ self.new) (λ w. (self.old ≡ []) × (w ≡ word.Fields)) }
    {
        match self.next() {
            Some(field) => Ok(field),
            None => Err(Word::Fields),
        }
    }

    /// No field is left.
    pub fn end(&mut self) -> Result<(), Word>
        ensures { result ≡ unless_any (when (is_left self.old) word.Fields ∷ []) (Ok tt) }
    {
        match self.next() {
            Some(_) => Err(Word::Fields),
            None => Ok(()),
        }
    }
}

// What stands before the first blank and after it.
fn at_blank(text: &str) -> Option<(&str, &str)>
    ensures { MatchOption result (cut_where is_blank text.now ≡ None)
        (λ cut. cut_where is_blank text.now ≡ Some (cut.0.now, cut.1.now)) }
{
    text.split_once([' ', '\t'])
}

// The field before the first blank, and what is left after it, where there is a blank.
fn first_field(text: &str) -> (&str, Option<&str>)
    ensures { fields_of text.now ≡ result.0.now ∷ fields_left result.1 }
{
    match at_blank(text) {
        Some((field, rest)) => (field, Some(rest)),
        None => (text, None),
    }
}

fn behind_blank(text: &str) -> Option<&str>
    ensures { option_copied result ≡ spec.behind_blank text.now }
{
    let (_, rest) = at_blank(text)?;
    Some(rest)
}

/// What stands after the third blank of a line, as it is written there, where it has three.
pub fn behind_third_blank(line: &str) -> Option<&str>
    ensures { option_copied result ≡ spec.behind_third_blank line.now }
{
    behind_blank(behind_blank(behind_blank(line)?)?)
}

/// What stands before the first place of `=` and after it.
pub fn at_equals(text: &str) -> Option<(&str, &str)>
    ensures { MatchOption result (cut_at_first 61 text.now ≡ None)
        (λ cut. cut_at_first 61 text.now ≡ Some (cut.0.now, cut.1.now)) }
{
    text.split_once('=')
}

/// What stands before the first place of `:` and after it.
pub fn at_colon(text: &str) -> Option<(&str, &str)>
    ensures { MatchOption result (cut_at_first 58 text.now ≡ None)
        (λ cut. cut_at_first 58 text.now ≡ Some (cut.0.now, cut.1.now)) }
{
    text.split_once(':')
}

/// What stands before the last place of `@` and after it.
pub fn at_sign(text: &str) -> Option<(&str, &str)>
    ensures { MatchOption result (cut_at_last 64 text.now ≡ None) (λ cut. cut_at_last 64 text.now ≡ Some (cut.0.now, cut.1.now)) }
{
    text.rsplit_once('@')
}
