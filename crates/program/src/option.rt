//! The option ahead of a command's words.
use advice::{Place, WordsFault, place_fault};

/// The files by which an agency is spoken with: it reads `to` and writes `from`.
#[derive(Clone, Copy)]
pub struct PipeFiles<'a> {
    pub to: &'a str,
    pub from: &'a str,
}

fn is_option(word: Option<&String>) -> bool {
    match word {
        Some(word) => word.as_str() == "--agency",
        None => false,
    }
}

// The word of this number, which names a file.
fn file_at(words: &[String], number: usize, place: Place) -> Result<&str, WordsFault<'_>> {
    let Some(word) = words.get(number) else {
        return Err(WordsFault::Missing(place));
    };
    match place_fault(place, word.as_str()) {
        Some(fault) => Err(fault),
        None => Ok(word.as_str()),
    }
}

/// What `--agency TO FROM` names, and the command's words after it. Without a file it is no option.
pub fn split_option(
    words: &[String],
) -> Result<(Option<PipeFiles<'_>>, &[String]), WordsFault<'_>> {
    if !is_option(words.first()) {
        return Ok((None, words));
    }
    let to = match file_at(words, 1, Place::To) {
        Ok(to) => to,
        Err(fault) => return Err(fault),
    };
    let from = match file_at(words, 2, Place::From) {
        Ok(from) => from,
        Err(fault) => return Err(fault),
    };
    match words.get(3..) {
        Some(rest) => Ok((Some(PipeFiles { to, from }), rest)),
        None => Err(WordsFault::Missing(Place::From)),
    }
}
