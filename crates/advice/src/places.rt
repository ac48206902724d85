//! What the words of a command line stand for, and what is wrong with one.
use parties::NifFault;
use std::fmt;

/// What a word after a command's name stands for.
#[derive(Clone, Copy, Debug, PartialEq, Eq)]
pub enum Place {
    /// The file that the adapter reads, of `--agency TO FROM`.
    To,
    /// The file that the adapter writes.
    From,
    File,
    New,
    Nif,
    Num,
    Host,
    Which,
    Workers,
    Period,
    Count,
}

impl Place {
    /// What such a word has to be.
    fn form(self) -> &'static str {
        match self {
            Place::To | Place::From | Place::File | Place::New => "the name of a file",
            Place::Nif => "a tax number of 9 characters",
            Place::Num => {
                "1 to 60 printable characters without \" ' < > =, and no blank at either end"
            }
            Place::Host => "real or test",
            Place::Which => "all, waiting or refused",
            Place::Workers => "a number from 1 to 16, without leading zeros",
            Place::Period => "a month from 01-2024 to 12-2100, or a day of one",
            Place::Count => "a number from 1 to 100000, without leading zeros",
        }
    }
}

impl fmt::Display for Place {
    fn fmt<W: fmt::Write>(&self, f: &mut fmt::Formatter<W>) -> fmt::Result {
        f.write_str(match self {
            Place::To => "TO",
            Place::From => "FROM",
            Place::File => "FILE",
            Place::New => "NEW",
            Place::Nif => "NIF",
            Place::Num => "NUM",
            Place::Host => "HOST",
            Place::Which => "WHICH",
            Place::Workers => "WORKERS",
            Place::Period => "MM-YYYY or DD-MM-YYYY",
            Place::Count => "N",
        })
    }
}

/// Why the words of a command line are no command, with the word that is meant.
#[derive(Clone, Copy, Debug, PartialEq, Eq)]
pub enum WordsFault<'a> {
    /// There is no word.
    NoWord,
    /// A word isn't UTF-8.
    NoText,
    /// No command has this name.
    NoCommand(&'a str),
    /// This word asks for help where it can't.
    Help(&'a str),
    /// The word for this place is missing.
    Missing(Place),
    /// The word for this place is empty.
    Empty(Place),
    /// The word for this place is none of its form.
    Wrong(Place, &'a str),
    /// This word is no tax number.
    NoNif(&'a str, NifFault),
    /// This word is one too many.
    Further(&'a str),
    /// This word stands twice, where two have to differ.
    Twice(&'a str),
    /// `many` with `--agency`.
    AgencyOfMany,
}

// Why a word is no tax number.
fn put_nif<W: fmt::Write>(f: &mut fmt::Formatter<W>, word: &str, fault: NifFault) -> fmt::Result {
    match fault {
        NifFault::Length => write!(
            f,
            "{word:?} is no NIF: it has to have 9 characters, 0-9 and A-Z"
        ),
        NifFault::Shape => write!(
            f,
            "{word:?} is no NIF: it is 8 digits and a letter, or X, Y or Z, 7 digits and a letter, or the letter of an entity, 7 digits and a digit or letter, all in capitals"
        ),
        NifFault::Control { wanted } => {
            let wanted = char::from(wanted);
            write!(
                f,
                "{word:?} is no NIF: its last character should be {wanted}"
            )
        }
    }
}

impl<'a> fmt::Display for WordsFault<'a> {
    fn fmt<W: fmt::Write>(&self, f: &mut fmt::Formatter<W>) -> fmt::Result {
        match *self {
            WordsFault::NoWord => f.write_str("no command is given"),
            WordsFault::NoText => f.write_str("a word isn't UTF-8"),
            WordsFault::NoCommand(word) => write!(f, "{word:?} is no command"),
            WordsFault::Help(word) => write!(
                f,
                "{word:?} stands alone or after a command's name alone; a file of this name is ./{word}"
            ),
            WordsFault::Missing(place) => write!(f, "{place} is missing"),
            WordsFault::Empty(place) => write!(f, "{place} is an empty word"),
            WordsFault::Wrong(place, word) => {
                let form = place.form();
                write!(f, "{word:?} is no {place}: {form}")
            }
            WordsFault::NoNif(word, fault) => put_nif(f, word, fault),
            WordsFault::Further(word) => write!(f, "{word:?} is one word too many"),
            WordsFault::Twice(word) => write!(
                f,
                "{word:?} stands twice, and the two have to differ"
            ),
            WordsFault::AgencyOfMany => f.write_str(
                "many takes no --agency: an adapter speaks for one issuer",
            ),
        }
    }
}
