//! What to do about a status, in a sentence.
use report::Detail;
use shop_core::Word;

// What a line of a script has to be, where this word names its fault.
fn sentence_of(word: Word) -> &'static str {
    match word {
        Word::Utf8 => "save the script as UTF-8 text",
        Word::Verb => {
            "a line begins with clock, customer, sale, fix, cancel, vet, warn, wait or link, in many also with issuer, or with # where it is a comment"
        }
        Word::Command => {
            "drain and guard read no sale, fix or cancel: answer these by chain, day or serve"
        }
        Word::Fields => {
            "a field is missing or one too many, and fields are parted by one blank: verifactu help chain has the form of each line"
        }
        Word::Number => {
            "a number is decimal digits without leading zeros, within its limits: FORMAT.md has them"
        }
        Word::Till => "TILL is a number from 1 to 64",
        Word::Series => "SERIES is 1 to 20 of A-Z, a-z, 0-9, / and _",
        Word::Num => {
            "NUM is the number of an invoice: 1 to 60 printable characters without \" ' < > =, and no blank at either end"
        }
        Word::Kind => "KIND is F1, F2, F3 or R1 to R5",
        Word::Nif => {
            "the tax number's length, form or control letter is wrong; behind issuer it has to be one of the command line's"
        }
        Word::Name => {
            "NAME is 1 to 120 bytes of text without control characters, and no blank at either end"
        }
        Word::Class => {
            "LINE is CLASS:BASE: CLASS is 21, 10, 4, 0, 21+, 10+, 4+, S2, N1, N2, E1 to E6, or 02/ or 03/ and a rate or one of S2 to E6"
        }
        Word::Fate => "FATE is lost, taken, stale, again, or late and a number",
        Word::Option => {
            "an option is to=KEY, rect=S, rect=I or ref=NUM@DD-MM-YYYY, to and rect at most once, and stands ahead of the lines"
        }
        Word::Customer => {
            "KEY is 1 to 20 of A-Z, a-z and 0-9, and to= names one that a customer line above has"
        }
        Word::Date => "the date of a ref is a day, DD-MM-YYYY",
        Word::Lines =>
            "an invoice has 1 to 12 lines CLASS:BASE, BASE in cents with at most 13 digits",
        Word::Twice =>
            "this line, or its KEY, its NUM with its N or its CALL, stands above already",
        Word::TooMany => {
            "a script has at most 100000 commands and 10000 customers: split it, what was taken is answered again"
        }
    }
}

/// What to do about an end whose text is a code. None where the device's own reason or nothing comes next.
pub fn next_step(detail: &Detail) -> Option<&'static str> {
    match detail {
        Detail::Script { fault, .. } => Some(sentence_of(*fault)),
        Detail::Damaged { .. } => Some(
            "the file was left as it is: keep it, look at it with audit, and go on with a sound copy as OPERATING.md says under Restore",
        ),
        Detail::Undelivered { .. } => Some(
            "the agency didn't answer eight times, and the records are kept: send them later with drain",
        ),
        Detail::Broken { .. } => Some(
            "the records ahead of this place are sound: keep the file, and go on with a sound copy as OPERATING.md says under Restore",
        ),
        Detail::Contradiction(_) => Some(
            "nothing more was handed over: keep the file and what was printed, and compare both sides before anything is sent",
        ),
        Detail::TooBig => Some("standard input may have 16777216 bytes: split it"),
        Detail::OtherIssuer { .. } => Some(
            "the file was left as it is: name this issuer's tax number, or another file",
        ),
        Detail::Unknown => Some("look for the number in what export prints of the file"),
        Detail::Occupied { .. } => Some(
            "what stands at NEW was left as it is: name a file that isn't there",
        ),
        Detail::NotOld { held } if *held == 0 => Some("FILE isn't begun: there is nothing to move"),
        Detail::NotOld { .. } => Some("FILE is of version 2 already: go on with it"),
        Detail::Parted { entry } if *entry == 0 => Some(
            "NEW is another issuer's or another version's, and was left as it is: for a new copy name a file that isn't there",
        ),
        Detail::Parted { .. } => Some(
            "NEW differs from FILE from this entry on, and was left as it is: look at both, and for a new copy name a file that isn't there",
        ),
        Detail::Differs { .. } => Some(
            "this line is another one than the file's, is missing or is one too many: compare from here with what export prints",
        ),
        Detail::Issuer { .. } => Some(
            "issuers are counted from 0 in the order of the words: look at the last line of that one's block, ended STATUS",
        ),
        Detail::Done
        | Detail::Usage
        | Detail::ReadFault
        | Detail::WriteFault
        | Detail::DiskFault
        | Detail::NoMemory => None,
    }
}
