//! Lines of an export. The texts were written by hand from the schema of the objects.
use crate::entries::{cancelled, noted, rectified};
use crate::records::{TEN, alta, draft_of, id, issuer, line, moment};
use export::{Head, LineFault, entry_text, head_text, objects_are_apart, read_entry, read_head};
use invoice_kinds::Kind;
use record_codec::{Entry, Version};
use record_fields::{Link, Record, Sealed};
use std::alloc::Global;
use std::test::Fail;
use tax_lines::LineKey;
use test_rows::holds;

const HEAD: &str = r#"{"issuer":"89890001K","t":"chain","version":2}"#;

const TWO_TAXES: &str =
    r#"{"customer":null,"day":"01-01-2025","fix":false,"huella":"0A0A0A0A0A0A0A0A0A0A0A0A0A0A0A0A0A0A0A0A0A0A0A0A0A0A0A0A0A0A0A0A","kind":"F2","lines":[["21",10000],["03/700",-5]],"link":null,"num":"A-1","offset":60,"rechazo":"N","rect":null,"refs":[],"seconds":1735722000,"serial":1,"t":"alta","till":1}"#;

const RECTIFIED: &str =
    r#"{"customer":{"name":"Ñandú, S.L.","nif":"B12345674"},"day":"01-07-2025","fix":true,"huella":"000102030405060708090A0B0C0D0E0F101112131415161718191A1B1C1D1E1F","kind":"R4","lines":[["4+",-1],["E6",9999999999],["0",-9999999999]],"link":{"day":"01-01-2025","huella":"D88B42F8D11C4EA2112502EC992F055A7E94F796D67095359B946A4A5B03E616","num":"A-1"},"num":"R-2","offset":120,"rechazo":"X","rect":"I","refs":[["A-1","01-01-2025"],["B/7 x","01-01-1970"]],"seconds":1751364000,"serial":300,"t":"alta","till":2}"#;

const CANCELLED: &str =
    r#"{"day":"01-01-2025","huella":"FFFFFFFFFFFFFFFFFFFFFFFFFFFFFFFFFFFFFFFFFFFFFFFFFFFFFFFFFFFFFFFF","link":{"day":"31-12-2100","huella":"000102030405060708090A0B0C0D0E0F101112131415161718191A1B1C1D1E1F","num":"R-2"},"num":"A-1","offset":60,"rechazo":false,"seconds":4102444799,"serial":4294967295,"sin_registro":true,"t":"anulacion","till":64}"#;

const NOTED: &str =
    r#"{"first":7,"lines":[["correcto",0],["con-errores",4100],["vet",65535],["held",0],["not-held",0],["gone",0]],"t":"notes"}"#;

fn two_taxes(alloc: Global) -> Result<Entry, Fail> {
    let own = LineKey::read("21").ok_or("a key")?;
    let other = LineKey::read("03/700").ok_or("a key")?;
    let draft = draft_of(alloc, Kind::F2, &[line(own, 10_000)?, line(other, -5)?])?;
    let id = id("A-1", "01-01-2025")?;
    let body = Record::Alta(alta(issuer()?, id, draft, Link::First, moment(TEN)?));
    let sealed = Sealed {
        body,
        huella: [10; 32],
    };
    Ok(Entry::Rec {
        till: 1,
        serial: 1,
        sealed,
    })
}

const NO_HEADS: [&str; 8] = [
    "{}",
    NOTED,
    r#"{"issuer":"89890001K","t":"chain","version":3}"#,
    r#"{"issuer":"89890001K","t":"chain","version":258}"#,
    r#"{"issuer":"89890001K","t":"chain","version":"2"}"#,
    r#"{"issuer":"89890001k","t":"chain","version":2}"#,
    r#"{"issuer":"89890001K","t":"alta","version":2}"#,
    r#"{"issuer":"89890001K","n":0,"t":"chain","version":2}"#,
];

#[test]
fn a_head_is_written_and_read(rt: HostRuntime) -> Result<(), Fail> {
    let issuer = issuer()?;
    let version = Version::Two;
    let text = head_text(rt.alloc(), &issuer, version)?;
    let is_read = read_head(rt.alloc(), HEAD.as_bytes()) == Ok(Head { issuer, version });
    holds(is_read && text.as_slice() == HEAD.as_bytes(), HEAD)
}

fn is_no_head(alloc: Global, line: &str, fault: LineFault) -> Result<(), Fail> {
    let found = read_head(alloc, line.as_bytes()).err();
    holds(found == Some(fault), line)
}

#[test]
fn lines_of_no_head_are_named(rt: HostRuntime) -> Result<(), Fail> {
    for line in &NO_HEADS {
        is_no_head(rt.alloc(), line, LineFault::Shape)?;
    }
    is_no_head(rt.alloc(), "{", LineFault::Json)
}

// The entry has this text.
fn has_text(alloc: Global, entry: &Entry, line: &str) -> Result<(), Fail> {
    let text = entry_text(alloc, entry)?;
    holds(text.as_slice() == line.as_bytes(), line)
}

// The entry that is read of this text.
fn entry_in(alloc: Global, line: &str) -> Result<Entry, Fail> {
    let issuer = issuer()?;
    match read_entry(alloc, Version::Two, &issuer, line.as_bytes()) {
        Ok(entry) => Ok(entry),
        Err(_) => Err(Fail::from("an entry")),
    }
}

#[derive(Clone, Copy)]
enum Made {
    TwoTaxes,
    Rectified,
    Cancelled,
    Noted,
}

// There are no clauses here, so that those of the entries stay out of the test's proof.
fn entry_of(alloc: Global, what: Made) -> Result<Entry, Fail> {
    match what {
        Made::TwoTaxes => two_taxes(alloc),
        Made::Rectified => rectified(alloc),
        Made::Cancelled => cancelled(),
        Made::Noted => noted(alloc),
    }
}

type Written = (Made, &'static str);

// The entry has its text, is read of it, and has it again.
fn is_line(alloc: Global, row: &Written) -> Result<(), Fail> {
    has_text(alloc, &entry_of(alloc, row.0)?, row.1)?;
    has_text(alloc, &entry_in(alloc, row.1)?, row.1)
}

const LINES: [Written; 4] = [
    (Made::TwoTaxes, TWO_TAXES),
    (Made::Rectified, RECTIFIED),
    (Made::Cancelled, CANCELLED),
    (Made::Noted, NOTED),
];

#[test]
fn entries_are_written_and_read(rt: HostRuntime) -> Result<(), Fail> {
    for row in &LINES {
        is_line(rt.alloc(), row)?;
    }
    Ok(())
}

#[test]
fn no_object_is_of_two_kinds() {
    objects_are_apart();
}

const NO_JSON: [&str; 7] = [
    "",
    "{",
    "\u{feff}{}",
    "{\"first\":07}",
    "{\"first\":1e999}",
    "{\"first\":7}\0",
    "{\"first\":7}{}",
];

// An array in an array, and so on.
fn nested(alloc: Global, levels: usize) -> Result<Vec<u8>, Fail> {
    let mut text = Vec::new(alloc);
    for _ in 0..levels {
        text.push(b'[')?;
    }
    for _ in 0..levels {
        text.push(b']')?;
    }
    Ok(text)
}

// What stands in a line, and what stands in its place in a line of no entry.
type Wrong = (&'static str, &'static str, &'static str);

const WRONG: [Wrong; 30] = [
    (NOTED, "7", "\"7\""),
    (NOTED, "7", "7.0"),
    (NOTED, "7", "-0"),
    (NOTED, "7", "4294967296"),
    (NOTED, "7", "123456789012345678901234567890"),
    (NOTED, "7,", "7,\"held\":0,"),
    (NOTED, "\"first\":7,", ""),
    (NOTED, "\"t\":\"notes\"", "\"t\":\"notes\",\"t\":\"alta\""),
    (NOTED, "4100", "65536"),
    (NOTED, "\"held\",0", "\"held\",1"),
    (NOTED, "\"held\",0", "\"held\""),
    (NOTED, "\"held\"", "\"Held\""),
    (CANCELLED, "FFF", "fff"),
    (CANCELLED, "FFF", "FF"),
    (CANCELLED, "\"till\":64", "\"till\":0"),
    (CANCELLED, "\"till\":64", "\"till\":65"),
    (CANCELLED, "\"till\":64", "\"till\":320"),
    (CANCELLED, ",\"till\":64", ""),
    (CANCELLED, "\"serial\":4294967295,", ""),
    (CANCELLED, "4294967295", "0"),
    (CANCELLED, "01-01-2025", "1-1-2025"),
    (CANCELLED, "\"rechazo\":false", "\"rechazo\":\"N\""),
    (CANCELLED, "\"offset\":60", "\"offset\":0"),
    (RECTIFIED, "\"X\"", "true"),
    (RECTIFIED, "\"I\"", "\"i\""),
    (RECTIFIED, "9999999999", "10000000000"),
    (RECTIFIED, "\"4+\"", "\"04+\""),
    (RECTIFIED, "B12345674", "B12345675"),
    (TWO_TAXES, "03/700", "03/2501"),
    (TWO_TAXES, "[[\"21\",10000],[\"03/700\",-5]]", "[]"),
];

const NO_ENTRIES: [&str; 6] = [
    "{}",
    "[]",
    "null",
    "7",
    HEAD,
    r#"{"first":7,"lines":[],"t":"notes"}"#,
];

fn fault_in(alloc: Global, version: Version, line: &[u8]) -> Result<Option<LineFault>, Fail> {
    let issuer = issuer()?;
    Ok(read_entry(alloc, version, &issuer, line).err())
}

// The text with another one in place of its first `old`.
fn with(alloc: Global, text: &str, old: &str, new: &str) -> Result<String, Fail> {
    let (front, back) = text.split_once(old).ok_or("the old text")?;
    Ok(format!(in alloc; "{front}{new}{back}")?)
}

// Fails at this row where the fault of a line is another than this.
fn has_fault(alloc: Global, line: &[u8], fault: LineFault, row: &str) -> Result<(), Fail> {
    holds(fault_in(alloc, Version::Two, line)? == Some(fault), row)
}

#[test]
fn lines_of_no_entry_are_named(rt: HostRuntime) -> Result<(), Fail> {
    for line in &NO_JSON {
        has_fault(rt.alloc(), line.as_bytes(), LineFault::Json, line)?;
    }
    for line in &NO_ENTRIES {
        has_fault(rt.alloc(), line.as_bytes(), LineFault::Shape, line)?;
    }
    has_fault(rt.alloc(), b"\"\xff\"", LineFault::Json, "no UTF-8")
}

// Fails where a change leaves a line of an entry, or none of the language.
fn is_wrong(alloc: Global, change: &Wrong) -> Result<(), Fail> {
    let line = with(alloc, change.0, change.1, change.2)?;
    has_fault(alloc, line.as_bytes(), LineFault::Shape, line.as_str())
}

type Nested = (&'static str, usize, LineFault);

const NESTED: [Nested; 2] = [
    ("200 levels", 200, LineFault::Json),
    ("100 levels", 100, LineFault::Shape),
];

fn is_nested(alloc: Global, row: &Nested) -> Result<(), Fail> {
    let line = nested(alloc, row.1)?;
    has_fault(alloc, &line, row.2, row.0)
}

#[test]
fn changed_and_nested_lines_are_named(rt: HostRuntime) -> Result<(), Fail> {
    for row in &NESTED {
        is_nested(rt.alloc(), row)?;
    }
    for change in &WRONG {
        is_wrong(rt.alloc(), change)?;
    }
    Ok(())
}

const IN_VERSION_ONE: [(&str, Option<LineFault>); 3] = [
    (TWO_TAXES, Some(LineFault::Shape)),
    (RECTIFIED, None),
    (NOTED, None),
];

#[test]
fn a_line_of_another_tax_is_none_of_version_one(rt: HostRuntime) -> Result<(), Fail> {
    for (line, fault) in &IN_VERSION_ONE {
        let found = fault_in(rt.alloc(), Version::One, line.as_bytes())?;
        holds(found == *fault, line)?;
    }
    Ok(())
}
