//! Why a message has no answer, in words. Nothing is claimed of them.
use crate::Unheard;
use crate::answer_reader::Deaf;
use crate::ends::{PipeSink, PipeSource};
use crate::exchange::Quiet;
use crate::pipe::PipeAgency;
use export::value_of;
use std::alloc::{AllocError, AllocFailed, Global};
use std::fs::{File, Files};

const TOLD: usize = 200;

// Whether a terminal prints the character as itself: the Latin letters, signs and digits, and the euro sign. The soft hyphen
// isn't printed, and neither are characters that turn the direction of writing.
fn is_printed(c: char) -> bool {
    matches!(c, ' '..='~' | '\u{a1}'..='\u{ac}' | '\u{ae}'..='\u{24f}' | '\u{20ac}')
}

// The text's first characters, each that isn't printed as a question mark.
fn printed(alloc: Global, text: &str) -> Option<String> {
    let mut printed = String::new(alloc);
    for c in text.chars().take(TOLD) {
        printed.push(if is_printed(c) { c } else { '?' }).ok()?;
    }
    Some(printed)
}

/// What the other side tells of a fault of its own; None where the trouble is another one, it tells no text, or there is no memory.
pub(crate) fn told_in(alloc: Global, why: Quiet, line: &[u8]) -> Option<String> {
    let (Quiet::Unbegun(Deaf::Line(Unheard::Fault)) | Quiet::Deaf(Deaf::Line(Unheard::Fault))) = why
    else {
        return None;
    };
    let value = value_of(alloc, line).ok()?;
    printed(alloc, value.get("fault")?.as_str()?)
}

fn words_of(why: Deaf) -> &'static str {
    match why {
        Deaf::Source => "a read failed",
        Deaf::End => "the other side went away",
        Deaf::TooLong => "an answer of more than 4194304 bytes",
        Deaf::Line(Unheard::Json) => "a line that is no JSON",
        Deaf::Line(Unheard::Fault) => "a fault of the other side",
        Deaf::Line(Unheard::Hello) => "the other side began anew",
        Deaf::Line(_) => "an answer of another shape",
        Deaf::Earlier => "answers to earlier messages alone",
    }
}

impl<'a, R: Files<File = File>> PipeAgency<PipeSource<'a, R>, PipeSink<'a, R>> {
    /// Why the last message without an answer has none. Nothing is claimed of it.
    pub fn reason(&self) -> Option<&str> {
        match self.trouble()? {
            Quiet::Sink => self.sink().reason(),
            Quiet::Closed | Quiet::Unbegun(Deaf::Source) | Quiet::Deaf(Deaf::Source) => {
                self.source().reason()
            }
            Quiet::Unbegun(why) | Quiet::Deaf(why) => match (why, self.told()) {
                (Deaf::Line(Unheard::Fault), Some(told)) => Some(told),
                _ => Some(words_of(why)),
            },
        }
    }
}
