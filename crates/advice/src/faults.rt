//! Which word of a command line is wrong, the first from the left.
use crate::forms::places_of;
use crate::places::{Place, WordsFault};
use amounts::read_whole;
use parties::{MAX_ISSUERS, Nif};
use series::NumSerie;
use statements::Period;

// The most that `generate` and `check` take.
const MAX_GENERATED: u64 = 100_000;

const MAX_WORKERS: u64 = 16;

// How many pairs `many` has at least. It has `MAX_ISSUERS` at most.
const FEWEST_PAIRS: usize = 2;

fn asks_help(word: &str) -> bool {
    word == "--help" || word == "-h"
}

fn is_count(word: &str, most: u64) -> bool {
    match read_whole(word.as_bytes()) {
        Some(n) => 1 <= n && n <= most,
        None => false,
    }
}

// Whether a word is of its place's form. A tax number and a file's name have faults of their own.
fn fits(place: Place, word: &str) -> bool {
    match place {
        Place::Num => NumSerie::read(word).is_some(),
        Place::Host => word == "real" || word == "test",
        Place::Which => word == "all" || word == "waiting" || word == "refused",
        Place::Workers => is_count(word, MAX_WORKERS),
        Place::Period => Period::read(word).is_some(),
        Place::Count => is_count(word, MAX_GENERATED),
        Place::To | Place::From | Place::File | Place::New | Place::Nif => !word.is_empty(),
    }
}

/// What is wrong with the word for this place.
pub fn place_fault(place: Place, word: &str) -> Option<WordsFault<'_>> {
    if asks_help(word) {
        return Some(WordsFault::Help(word));
    }
    if word.is_empty() {
        return Some(WordsFault::Empty(place));
    }
    if place == Place::Nif {
        return match Nif::read(word) {
            Ok(_) => None,
            Err(fault) => Some(WordsFault::NoNif(word, fault)),
        };
    }
    if !fits(place, word) {
        return Some(WordsFault::Wrong(place, word));
    }
    None
}

// What is wrong with a word after the last place.
fn further(word: &str) -> WordsFault<'_> {
    if asks_help(word) {
        WordsFault::Help(word)
    } else {
        WordsFault::Further(word)
    }
}

// What is wrong with the words for these places.
fn places_fault<'a>(places: &[Place], words: &'a [String]) -> Option<WordsFault<'a>> {
    for (number, place) in places.iter().enumerate() {
        let Some(word) = words.get(number) else {
            return Some(WordsFault::Missing(*place));
        };
        if let Some(fault) = place_fault(*place, word.as_str()) {
            return Some(fault);
        }
    }
    match words.get(places.len()) {
        Some(word) => Some(further(word.as_str())),
        None => None,
    }
}

// The word of this number stands before it too, two, four or more places ahead.
fn stands_ahead(words: &[String], number: usize, word: &str) -> bool {
    for (at, other) in words.iter().enumerate() {
        if at >= number {
            return false;
        }
        if at % 2 == number % 2 && other.as_str() == word {
            return true;
        }
    }
    false
}

// What is wrong with the words of `many`.
fn pairs_fault(words: &[String]) -> Option<WordsFault<'_>> {
    for number in 0..2 * MAX_ISSUERS {
        let place = if number % 2 == 0 {
            Place::File
        } else {
            Place::Nif
        };
        let Some(word) = words.get(number) else {
            let is_whole = number % 2 == 0 && number / 2 >= FEWEST_PAIRS;
            return if is_whole {
                None
            } else {
                Some(WordsFault::Missing(place))
            };
        };
        let word = word.as_str();
        if let Some(fault) = place_fault(place, word) {
            return Some(fault);
        }
        if stands_ahead(words, number, word) {
            return Some(WordsFault::Twice(word));
        }
    }
    match words.get(2 * MAX_ISSUERS) {
        Some(word) => Some(further(word.as_str())),
        None => None,
    }
}

// NEW, where it is FILE's name too.
fn same_file<'a>(name: &str, words: &'a [String]) -> Option<WordsFault<'a>> {
    let place = match name {
        "follow" => 1,
        "guard" => 2,
        _ => return None,
    };
    let file = words.first()?.as_str();
    let new = words.get(place)?.as_str();
    if file == new {
        Some(WordsFault::Twice(new))
    } else {
        None
    }
}

// What is wrong with the words after `help`.
fn help_fault(words: &[String]) -> Option<WordsFault<'_>> {
    let word = words.first()?.as_str();
    if asks_help(word) {
        return Some(WordsFault::Help(word));
    }
    if word != "many" && places_of(word).is_none() {
        return Some(WordsFault::NoCommand(word));
    }
    match words.get(1) {
        Some(word) => Some(further(word.as_str())),
        None => None,
    }
}

// What is wrong with the words after the one of `--version` or of a help.
fn alone_fault(words: &[String]) -> Option<WordsFault<'_>> {
    match words.first() {
        Some(word) => Some(further(word.as_str())),
        None => None,
    }
}

// What is wrong with the words after this name.
fn fault_behind<'a>(name: &'a str, words: &'a [String]) -> Option<WordsFault<'a>> {
    if asks_help(name) {
        return Some(WordsFault::Help(name));
    }
    match name {
        "help" => help_fault(words),
        "--version" => alone_fault(words),
        "many" => pairs_fault(words),
        _ => match places_of(name) {
            Some(places) => match places_fault(places, words) {
                Some(fault) => Some(fault),
                None => same_file(name, words),
            },
            None => Some(WordsFault::NoCommand(name)),
        },
    }
}

/// What is wrong with words that are no command, the first from the left: a missing word comes after those that are there, one
/// too many after them too. Of words that are a command it says nothing of use.
pub fn fault_in(words: &[String]) -> WordsFault<'_> {
    let Some((name, others)) = words.split_first() else {
        return WordsFault::NoWord;
    };
    match fault_behind(name.as_str(), others) {
        Some(fault) => fault,
        None => WordsFault::NoCommand(name.as_str()),
    }
}
