//! The words of the agency's lines, with their codes.
ghost use Rattle.std.specs.Prelude.{◌≡◌, IfSome, Some};
ghost use Rattle.record_fields.specs.declared.lines.Line.{Line as AnyLine};
ghost use Rattle.export.specs.Objects as spec;

use record_fields::{Cause, Line};

fn cause_word(cause: Cause) -> &'static str
    ensures { result.now ≡ spec.cause_word cause }
{
    match cause {
        Cause::Vet(_) => "vet",
        Cause::Held => "held",
        Cause::NotHeld => "not-held",
        Cause::Gone => "gone",
    }
}

/// The word of the agency's line.
pub fn line_word(line: Line) -> &'static str
    ensures { result.now ≡ spec.line_word line }
{
    match line {
        Line::Correcto => "correcto",
        Line::ConErrores(_) => "con-errores",
        Line::Incorrecto(cause) => cause_word(cause),
    }
}

/// Its code, 0 where it has none.
pub fn line_code(line: Line) -> u16
    ensures { result ≡ spec.line_code line }
{
    match line {
        Line::ConErrores(code) | Line::Incorrecto(Cause::Vet(code)) => code,
        _ => 0,
    }
}

fn line_with(word: &str, code: u16) -> Option<Line>
    ensures found { (line : AnyLine) → word.now ≡ spec.line_word line → code ≡ spec.line_code line → result ≡ Some line }
    ensures word { IfSome result (λ line. word.now ≡ spec.line_word line) }
{
    match word {
        "correcto" => Some(Line::Correcto),
        "con-errores" => Some(Line::ConErrores(code)),
        "vet" => Some(Line::Incorrecto(Cause::Vet(code))),
        "held" => Some(Line::Incorrecto(Cause::Held)),
        "not-held" => Some(Line::Incorrecto(Cause::NotHeld)),
        "gone" => Some(Line::Incorrecto(Cause::Gone)),
        _ => None,
    }
}

/// The line that has this word and this code; None exactly where none has.
pub fn line_named(word: &str, code: u16) -> Option<Line>
    ensures found { (line : AnyLine) → word.now ≡ spec.line_word line → code ≡ spec.line_code line → result ≡ Some line }
    //= A word and a code name a line of the agency only where they are that line's.
    ensures only { IfSome result (λ line. (word.now ≡ spec.line_word line) × (code ≡ spec.line_code line)) }
{
    match line_with(word, code) {
        Some(line) if line_code(line) == code => Some(line),
        _ => None,
    }
}
