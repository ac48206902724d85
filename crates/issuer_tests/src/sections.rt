//! Scripts for several issuers, and the lines that commands stand in.
use issuers::{Part, read_many};
use parties::Nif;
use script::{Form, MAX_SCRIPT, ScriptFault, read_numbered};
use shop_core::Word;
use std::alloc::Global;
use std::test::Fail;
use test_rows::holds;

fn issuers() -> Option<[Nif; 2]> {
    let first = Nif::read("89890001K").ok()?;
    let second = Nif::read("12345678Z").ok()?;
    Some([first, second])
}

// The bad line that is answered.
fn bad_line(alloc: Global, bytes: &[u8], issuers: &[Nif]) -> Option<(u32, Word)> {
    if bytes.len() > MAX_SCRIPT {
        return None;
    }
    match read_many(alloc, bytes, issuers) {
        Err(ScriptFault::BadLine { line, fault }) => Some((line, fault)),
        _ => None,
    }
}

// A script, the number of its bad line, and the word for it.
const BAD_LINES: [(&str, u32, Word); 17] = [
    ("clock 1735722000 0\nissuer B12345674\n", 2, Word::Nif),
    ("issuer ", 1, Word::Nif),
    ("issuer 89890001k", 1, Word::Nif),
    ("issuer", 1, Word::Fields),
    ("\n#\nissuer\r\n", 3, Word::Fields),
    ("issuer 89890001K ", 1, Word::Fields),
    ("issuer B12345674 12345678Z", 1, Word::Fields),
    ("issuer\t89890001K\t", 1, Word::Fields),
    (" issuer 89890001K", 1, Word::Verb),
    ("Issuer 89890001K", 1, Word::Verb),
    // the smallest number of all parts and heads of sections
    ("issuer 89890001K\nsal\nissuer X", 2, Word::Verb),
    ("issuer X\nsal", 1, Word::Nif),
    (
        "issuer 12345678Z\nsal\nissuer 89890001K\nclock x",
        2,
        Word::Verb,
    ),
    (
        "issuer 12345678Z\n\nissuer 89890001K\nclock x\nissuer 12345678Z\nsal",
        4,
        Word::Number,
    ),
    // a line for all is one of each part, a line of another section of none
    ("clock 1 1\nissuer 12345678Z\nclock 1 1", 3, Word::Twice),
    ("clock x\nissuer 12345678Z\nsal", 1, Word::Number),
    (
        "issuer 12345678Z\ncustomer k 12345678Z Ana\nissuer 89890001K\nsale 1 1 A F1 to=k 21:1",
        4,
        Word::Customer,
    ),
];

#[test]
fn bad_lines_of_sections_have_their_words(rt: HostRuntime) -> Result<(), Fail> {
    let issuers = issuers().ok_or("tax numbers")?;
    for (text, line, fault) in BAD_LINES {
        let said = bad_line(rt.alloc(), text.as_bytes(), &issuers);
        holds(said == Some((line, fault)), text)?;
    }
    let said = bad_line(rt.alloc(), b"issuer \xff", &issuers);
    holds(said == Some((1, Word::Utf8)), "no UTF-8")?;
    Ok(())
}

// The lines of a part's asks, each with the ask's till and serial.
fn is_part(part: &Part, wanted: &[(u32, u8, u32)]) -> bool {
    let lines = part.lines.as_slice();
    let asks = part.script.asks.as_slice();
    if lines.len() != wanted.len() || asks.len() != wanted.len() {
        return false;
    }
    for (line, (number, _, _)) in lines.iter().zip(wanted) {
        if line != number {
            return false;
        }
    }
    for (ask, (_, till, serial)) in asks.iter().zip(wanted) {
        if ask.till != *till || ask.serial != *serial {
            return false;
        }
    }
    true
}

// Sections that come again, and a customer and a pause for both.
#[test]
fn parts_keep_their_lines(rt: HostRuntime) -> Result<(), Fail> {
    let bytes = b"wait 7\ncustomer k 12345678Z Ana\n\
        issuer 89890001K\r\nclock 5 6\nsale 1 1 A F2 21:100\n\
        issuer\t12345678Z\nsale 1 1 A F1 to=k 21:100\r\n# issuer 89890001K\ncancel 1 2 A-1\nclock 7 8\n\
        issuer 89890001K\nfix 64 4294967295 A-1 F1 to=k 21:200";
    let issuers = issuers().ok_or("tax numbers")?;
    let parts = read_many(rt.alloc(), bytes.as_slice(), &issuers)
        .ok()
        .ok_or("no parts")?;
    let [first, second] = parts.as_slice() else {
        return Err(Fail::from("two parts"));
    };
    holds(
        is_part(first, &[(5, 1, 1), (12, 64, 4_294_967_295)]),
        "the first",
    )?;
    holds(is_part(second, &[(7, 1, 1), (9, 1, 2)]), "the second")?;
    holds(first.script.clock == Some((5, 6)), "the first's clock")?;
    holds(second.script.clock == Some((7, 8)), "the second's clock")?;
    holds(first.script.plan.wait == 7, "the first's pause")?;
    holds(second.script.plan.wait == 7, "the second's pause")?;
    Ok(())
}

#[test]
fn commands_stand_in_their_lines(rt: HostRuntime) -> Result<(), Fail> {
    let bytes = b"sale 1 1 A F2 21:1\n\n#\ncancel 1 2 A-1\r\nclock 1 1\nsale 1 3 A F2 21:1\n";
    let (script, lines) = read_numbered(rt.alloc(), bytes.as_slice(), Form::Full)
        .ok()
        .ok_or("no script")?;
    holds(script.asks.len() == 3, "three asks")?;
    holds(lines.as_slice() == [1, 4, 6].as_slice(), "their lines")?;
    Ok(())
}
