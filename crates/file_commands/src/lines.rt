//! The lines of a source.
ghost use Rattle.std.specs.Prelude.{◌≡◌, ◌≢◌, ◌<◌, ◌≤◌, ◌==◌, [], ◌∷◌, ◌++◌, ◌+◌, IfOk, MatchOption, flat_map, length, position};
ghost use Rattle.std.specs.Str.Lines.{strip_carriage_return};
ghost use Rattle.file_commands.specs.Lines.{lines_of};

use link_check::LinkLines;
use ports::NoMemory;
use record_fields::Bytes;
use std::alloc::Global;

/// The lines of these bytes, each in memory of its own.
pub(crate) fn read_lines(alloc: Global, bytes: &[u8]) -> Result<LinkLines, NoMemory>
    ensures { IfOk result (λ lines. lines ≡ lines_of bytes.now) }
{
    let mut lines = Vec::new(alloc);
    let mut rest = bytes;
    while !rest.is_empty() {
        let (line, after) = first_line(rest);
        lines.push(Bytes::of(Vec::from_slice(alloc, line)?))?;
        rest = after;
    }
    Ok(LinkLines::of(lines))
}

/// The bytes in at most this many pieces, each cut after a line's end.
pub(crate) fn cut(alloc: Global, bytes: &[u8], most: usize) -> Result<Vec<&[u8]>, NoMemory>
    requires { 0 < most }
    //= The lines of the pieces that `check` shares out, one after another, are those of the whole.
    ensures lines { IfOk result (λ pieces. flat_map (λ p. lines_of p.now) pieces.items ≡ lines_of bytes.now) }
    //= `check` shares its lines out among as many pieces as there are workers, at most.
    ensures few { IfOk result (λ pieces. length pieces.items ≤ most) }
{
    let size = bytes.len().div_ceil(most);
    let mut pieces = Vec::new(alloc);
    let mut rest = bytes;
    while rest.len() > size {
        let (piece, after) = split_behind_line(rest, size);
        pieces.push(piece)?;
        rest = after;
    }
    pieces.push(rest)?;
    Ok(pieces)
}

// What goes up to the first LF at this place or after it, and what is left.
fn split_behind_line(text: &[u8], at: usize) -> (&[u8], &[u8])
    requires { at ≤ length text.now }
    ensures lines { lines_of text.now ≡ lines_of result.0.now ++ lines_of result.1.now }
    ensures shorter { at < length text.now → at + length result.1.now < length text.now }
{
    match place_of_lf(&text[at..]) {
        Some(more) => text.split_at(at + more + 1),
        None => (text, &[]),
    }
}

/// The first line, and what is left after its LF; None where there is no line.
pub(crate) fn next_line(text: &[u8]) -> Option<(&[u8], &[u8])>
    ensures { MatchOption result
        (lines_of text.now ≡ [])
        (λ next. lines_of text.now ≡ next.0.now ∷ lines_of next.1.now) }
{
    if text.is_empty() {
        return None;
    }
    Some(first_line(text))
}

// The first line, and what is left after its LF.
fn first_line(text: &[u8]) -> (&[u8], &[u8])
    requires { text.now ≢ [] }
    ensures line { lines_of text.now ≡ result.0.now ∷ lines_of result.1.now }
    ensures shorter { length result.1.now < length text.now }
{
    match place_of_lf(text) {
        Some(end) => (without_return(&text[..end]), &text[end + 1..]),
        None => (without_return(text), &[]),
    }
}

fn place_of_lf(text: &[u8]) -> Option<usize>
    ensures { result ≡ position (λ b. b == 10) text.now }
{
    text.iter().position(|b| *b == b'\n')
}

// A line without the one carriage return at its end.
fn without_return(line: &[u8]) -> &[u8]
    ensures { result.now ≡ strip_carriage_return line.now }
{
    match line {
        [front @ .., b'\r'] => front,
        _ => line,
    }
}
