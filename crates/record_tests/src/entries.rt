//! Entries as bytes, each with the bytes that the format gives it.
ghost use Rattle.record_fields.specs.declared.checks.TheConstants.{MAX_REFS};
ghost use Rattle.std.specs.Prelude.{◌≤◌, length, IfOk};
ghost use Rattle.record_codec.specs.Validity.{InRanges};

use crate::records::{TEN, breakdown, draft_of, issuer, line, nif, number};
use invoice_kinds::{Kind, RectKind};
use parties::{Name, Party};
use record_codec::{
    BadEntry, Entry, Head, Version, decode, encode, fields_are_valid, fits, head_of, write_entry,
};
use record_fields::{
    Alta, Anulacion, Cause, Draft, Line, Lines, Link, Previo, Record, Refs, Sealed,
};
use series::InvoiceId;
use stamps::{Day, Stamp};
use std::alloc::Global;
use std::test::Fail;
use tax_lines::{Class, LineKey};
use test_rows::holds;

// The bytes below were made by another program from the fields that the functions after them give.

// A first record of one line.
const SALE: [u8; 73] = [
    0x01, 0x01, 0x00, 0x00, 0x00, 0x01, 0x03, 0x41, 0x2d, 0x31, 0x00, 0x00, 0x4e, 0x79, 0x01, 0x00,
    0x00, 0x00, 0x01, 0x00, 0x00, 0x00, 0x00, 0x00, 0x00, 0x00, 0x27, 0x10, 0x00, 0x00, 0x00, 0x00,
    0x00, 0x00, 0x00, 0x67, 0x75, 0x04, 0x10, 0x00, 0x3c, 0xd8, 0x8b, 0x42, 0xf8, 0xd1, 0x1c, 0x4e,
    0xa2, 0x11, 0x25, 0x02, 0xec, 0x99, 0x2f, 0x05, 0x5a, 0x7e, 0x94, 0xf7, 0x96, 0xd6, 0x70, 0x95,
    0x35, 0x9b, 0x94, 0x6a, 0x4a, 0x5b, 0x03, 0xe6, 0x16,
];

// A record with all that a record may have.
const RECTIFIED: [u8; 172] = [
    0x01, 0x02, 0x00, 0x00, 0x01, 0x2c, 0x03, 0x52, 0x2d, 0x32, 0x00, 0x00, 0x4f, 0x2e, 0x06, 0x02,
    0x01, 0x42, 0x31, 0x32, 0x33, 0x34, 0x35, 0x36, 0x37, 0x34, 0x0d, 0xc3, 0x91, 0x61, 0x6e, 0x64,
    0xc3, 0xba, 0x2c, 0x20, 0x53, 0x2e, 0x4c, 0x2e, 0x02, 0x03, 0x41, 0x2d, 0x31, 0x00, 0x00, 0x4e,
    0x79, 0x05, 0x42, 0x2f, 0x37, 0x20, 0x78, 0x00, 0x00, 0x00, 0x00, 0x03, 0x06, 0xff, 0xff, 0xff,
    0xff, 0xff, 0xff, 0xff, 0xff, 0x0f, 0x00, 0x00, 0x00, 0x02, 0x54, 0x0b, 0xe3, 0xff, 0x03, 0xff,
    0xff, 0xff, 0xfd, 0xab, 0xf4, 0x1c, 0x01, 0x01, 0x02, 0x01, 0x03, 0x41, 0x2d, 0x31, 0x00, 0x00,
    0x4e, 0x79, 0xd8, 0x8b, 0x42, 0xf8, 0xd1, 0x1c, 0x4e, 0xa2, 0x11, 0x25, 0x02, 0xec, 0x99, 0x2f,
    0x05, 0x5a, 0x7e, 0x94, 0xf7, 0x96, 0xd6, 0x70, 0x95, 0x35, 0x9b, 0x94, 0x6a, 0x4a, 0x5b, 0x03,
    0xe6, 0x16, 0x00, 0x00, 0x00, 0x00, 0x68, 0x63, 0xb1, 0xa0, 0x00, 0x78, 0x00, 0x01, 0x02, 0x03,
    0x04, 0x05, 0x06, 0x07, 0x08, 0x09, 0x0a, 0x0b, 0x0c, 0x0d, 0x0e, 0x0f, 0x10, 0x11, 0x12, 0x13,
    0x14, 0x15, 0x16, 0x17, 0x18, 0x19, 0x1a, 0x1b, 0x1c, 0x1d, 0x1e, 0x1f,
];

// A cancellation.
const CANCELLED: [u8; 99] = [
    0x02, 0x40, 0xff, 0xff, 0xff, 0xff, 0x03, 0x41, 0x2d, 0x31, 0x00, 0x00, 0x4e, 0x79, 0x01, 0x00,
    0x01, 0x03, 0x52, 0x2d, 0x32, 0x00, 0x00, 0xba, 0xe6, 0x00, 0x01, 0x02, 0x03, 0x04, 0x05, 0x06,
    0x07, 0x08, 0x09, 0x0a, 0x0b, 0x0c, 0x0d, 0x0e, 0x0f, 0x10, 0x11, 0x12, 0x13, 0x14, 0x15, 0x16,
    0x17, 0x18, 0x19, 0x1a, 0x1b, 0x1c, 0x1d, 0x1e, 0x1f, 0x00, 0x00, 0x00, 0x00, 0xf4, 0x86, 0x56,
    0xff, 0x00, 0x3c, 0xff, 0xff, 0xff, 0xff, 0xff, 0xff, 0xff, 0xff, 0xff, 0xff, 0xff, 0xff, 0xff,
    0xff, 0xff, 0xff, 0xff, 0xff, 0xff, 0xff, 0xff, 0xff, 0xff, 0xff, 0xff, 0xff, 0xff, 0xff, 0xff,
    0xff, 0xff, 0xff,
];

// Notes with each line.
const NOTED: [u8; 25] = [
    0x03, 0x00, 0x00, 0x00, 0x07, 0x00, 0x06, 0x00, 0x00, 0x00, 0x01, 0x10, 0x04, 0x02, 0xff, 0xff,
    0x03, 0x00, 0x00, 0x04, 0x00, 0x00, 0x05, 0x00, 0x00,
];

const FIRST_HUELLA: [u8; 32] = [
    0xd8, 0x8b, 0x42, 0xf8, 0xd1, 0x1c, 0x4e, 0xa2, 0x11, 0x25, 0x02, 0xec, 0x99, 0x2f, 0x05, 0x5a,
    0x7e, 0x94, 0xf7, 0x96, 0xd6, 0x70, 0x95, 0x35, 0x9b, 0x94, 0x6a, 0x4a, 0x5b, 0x03, 0xe6, 0x16,
];

// 0, 1, 2 and so on to 31.
const COUNTED: [u8; 32] = [
    0x00, 0x01, 0x02, 0x03, 0x04, 0x05, 0x06, 0x07, 0x08, 0x09, 0x0a, 0x0b, 0x0c, 0x0d, 0x0e, 0x0f,
    0x10, 0x11, 0x12, 0x13, 0x14, 0x15, 0x16, 0x17, 0x18, 0x19, 0x1a, 0x1b, 0x1c, 0x1d, 0x1e, 0x1f,
];

// The day is given by its number.
fn id(num: &str, day: u32) -> Result<InvoiceId, Fail> {
    let num = number(num)?;
    let day = Day::new(day).ok_or("a day")?;
    Ok(InvoiceId { num, day })
}

fn after(num: &str, day: u32, huella: [u8; 32]) -> Result<Link, Fail> {
    let id = id(num, day)?;
    Ok(Link::After { id, huella })
}

fn moment(seconds: u64, offset: i16) -> Result<Stamp, Fail> {
    Ok(Stamp::new(seconds, offset).ok_or("a moment")?)
}

// A first record of one line of 100 euros, whose key has this word.
fn sale(alloc: Global, word: &str) -> Result<Entry, Fail>
    ensures { IfOk result (λ entry. InRanges entry) }
{
    let key = LineKey::read(word).ok_or("a key")?;
    let alta = Alta {
        issuer: issuer()?,
        id: id("A-1", 20_089)?,
        draft: draft_of(alloc, Kind::F2, &[line(key, 10_000)?])?,
        subsanacion: false,
        rechazo: Previo::N,
        link: Link::First,
        moment: moment(TEN, 60)?,
    };
    let sealed = Sealed {
        body: Record::Alta(alta),
        huella: FIRST_HUELLA,
    };
    Ok(Entry::Rec {
        till: 1,
        serial: 1,
        sealed,
    })
}

fn rectifying_draft(alloc: Global) -> Result<Draft, Fail>
    ensures { IfOk result (λ draft. length draft.refs ≤ MAX_REFS) }
{
    let name = Name::read(alloc, "Ñandú, S.L.");
    let name = name.ok().ok_or("a name")?;
    let nif = nif("B12345674")?;
    let refs = [id("A-1", 20_089)?, id("B/7 x", 0)?];
    let lines = [
        line(LineKey::iva(Class::SuperReducedSurcharge), -1)?,
        line(LineKey::iva(Class::E6), 9_999_999_999)?,
        line(LineKey::iva(Class::Zero), -9_999_999_999)?,
    ];
    Ok(Draft {
        kind: Kind::R4,
        rect: Some(RectKind::I),
        customer: Some(Party { nif, name }),
        refs: Refs::of(refs.to_vec(alloc)?),
        lines: breakdown(alloc, &lines)?,
    })
}

pub fn rectified(alloc: Global) -> Result<Entry, Fail>
    ensures { IfOk result (λ entry. InRanges entry) }
{
    let alta = Alta {
        issuer: issuer()?,
        id: id("R-2", 20_270)?,
        draft: rectifying_draft(alloc)?,
        subsanacion: true,
        rechazo: Previo::X,
        link: after("A-1", 20_089, FIRST_HUELLA)?,
        moment: moment(1_751_364_000, 120)?,
    };
    let sealed = Sealed {
        body: Record::Alta(alta),
        huella: COUNTED,
    };
    Ok(Entry::Rec {
        till: 2,
        serial: 300,
        sealed,
    })
}

pub fn cancelled() -> Result<Entry, Fail>
    ensures { IfOk result (λ entry. InRanges entry) }
{
    let anulacion = Anulacion {
        issuer: issuer()?,
        id: id("A-1", 20_089)?,
        sin_registro: true,
        rechazo: false,
        link: after("R-2", 47_846, COUNTED)?,
        moment: moment(4_102_444_799, 60)?,
    };
    let sealed = Sealed {
        body: Record::Anulacion(anulacion),
        huella: [255; 32],
    };
    Ok(Entry::Rec {
        till: 64,
        serial: 4_294_967_295,
        sealed,
    })
}

pub fn noted(alloc: Global) -> Result<Entry, Fail>
    ensures { IfOk result (λ entry. InRanges entry) }
{
    let lines = [
        Line::Correcto,
        Line::ConErrores(4100),
        Line::Incorrecto(Cause::Vet(65_535)),
        Line::Incorrecto(Cause::Held),
        Line::Incorrecto(Cause::NotHeld),
        Line::Incorrecto(Cause::Gone),
    ];
    let lines = Lines::of(lines.to_vec(alloc)?);
    Ok(Entry::Notes { first: 7, lines })
}

// The bytes of an entry that fits.
fn written(alloc: Global, version: Version, entry: &Entry) -> Result<Vec<u8>, Fail>
    requires { InRanges entry.now }
{
    if !fits(version, entry) {
        return Err(Fail::from("an entry that doesn't fit"));
    }
    fields_are_valid(version, entry);
    let bytes = encode(alloc, version, entry)?;
    Ok(bytes.into_vec())
}

// The entry has these bytes, and they are read as an entry that has them.
fn is_coded(alloc: Global, entry: &Entry, bytes: &[u8]) -> Result<bool, Fail>
    requires { InRanges entry.now }
{
    let made = written(alloc, Version::One, entry)?;
    match decode(alloc, Version::One, &issuer()?, bytes) {
        Ok(read) => {
            let again = written(alloc, Version::One, &read)?;
            Ok(made.as_slice() == bytes && again.as_slice() == bytes)
        }
        Err(_) => Ok(false),
    }
}

#[derive(Clone, Copy)]
enum Made {
    Sale,
    Rectified,
    Cancelled,
    Noted,
}

fn entry_of(alloc: Global, what: Made) -> Result<Entry, Fail>
    ensures { IfOk result (λ entry. InRanges entry) }
{
    match what {
        Made::Sale => sale(alloc, "21"),
        Made::Rectified => rectified(alloc),
        Made::Cancelled => cancelled(),
        Made::Noted => noted(alloc),
    }
}

type Coded = (&'static str, Made, &'static [u8]);

const CODED: [Coded; 4] = [
    ("a sale", Made::Sale, &SALE),
    ("a rectification", Made::Rectified, &RECTIFIED),
    ("a cancellation", Made::Cancelled, &CANCELLED),
    ("notes", Made::Noted, &NOTED),
];

fn has_bytes(alloc: Global, row: &Coded) -> Result<(), Fail> {
    let entry = entry_of(alloc, row.1)?;
    holds(is_coded(alloc, &entry, row.2)?, row.0)
}

#[test]
fn entries_have_their_bytes(rt: HostRuntime) -> Result<(), Fail> {
    for row in &CODED {
        has_bytes(rt.alloc(), row)?;
    }
    Ok(())
}

#[test]
fn the_first_sale_is_written_in_73_bytes(rt: HostRuntime) -> Result<(), Fail> {
    let mut out = [0; 4096];
    let sale = sale(rt.alloc(), "21")?;
    if !fits(Version::One, &sale) {
        return Err(Fail::from("it fits"));
    }
    let n = write_entry(Version::One, &sale, &mut out);
    holds(n == 73 && out.starts_with(&SALE), "its bytes")
}

// The place of the first wrong field, None where the bytes are an entry's.
fn fault(alloc: Global, version: Version, bytes: &[u8]) -> Result<Option<usize>, Fail> {
    match decode(alloc, version, &issuer()?, bytes) {
        Ok(_) => Ok(None),
        Err(BadEntry::At { at }) => Ok(Some(at)),
        Err(BadEntry::NoMemory) => Err(Fail::from("memory")),
    }
}

// The fault of the bytes with another byte at this place.
fn fault_with(
    alloc: Global,
    version: Version,
    bytes: &[u8],
    place: usize,
    byte: u8,
) -> Result<Option<usize>, Fail> {
    let mut changed = Vec::from_slice(alloc, bytes)?;
    if let Some(at) = changed.get_mut(place) {
        *at = byte;
    }
    fault(alloc, version, &changed)
}

// A place, the byte that it is changed to, and the place of the field that is then wrong.
type Change = (usize, u8, usize);

const OF_SALE: [Change; 28] = [
    (0, 0, 0),
    (0, 4, 0),
    (1, 0, 1),
    (1, 65, 1),
    (5, 0, 2),
    (6, 0, 6),
    (6, 61, 6),
    (6, 255, 6),
    (7, b'=', 6),
    (7, b' ', 6),
    (7, 255, 6),
    (11, 1, 10),
    (14, 8, 14),
    (15, 3, 15),
    (16, 2, 16),
    (17, 9, 17),
    (18, 0, 18),
    (18, 13, 18),
    (19, 16, 19),
    (20, 1, 20),
    (20, 255, 20),
    (28, 2, 28),
    (29, 3, 29),
    (30, 2, 30),
    (31, 1, 31),
    (35, 0x65, 31),
    (39, 1, 39),
    (40, 61, 39),
];

const OF_RECTIFIED: [Change; 12] = [
    (25, b'5', 17),
    (26, 0, 26),
    (27, 255, 26),
    (29, 31, 26),
    (39, b' ', 26),
    (40, 9, 40),
    (45, 1, 45),
    (49, 0, 49),
    (76, 0xe4, 70),
    (86, 0, 79),
    (89, 2, 89),
    (95, 1, 94),
];

const OF_CANCELLED: [Change; 4] = [(14, 2, 14), (15, 2, 15), (24, 0xe7, 21), (63, 0x57, 57)];

const OF_NOTED: [Change; 9] = [
    (6, 0, 5),
    (5, 4, 5),
    (6, 7, 25),
    (6, 5, 22),
    (7, 6, 7),
    (8, 1, 7),
    (18, 1, 16),
    (21, 1, 19),
    (24, 1, 22),
];

fn is_named(alloc: Global, bytes: &[u8], change: &Change, row: &str) -> Result<(), Fail> {
    let at = fault_with(alloc, Version::One, bytes, change.0, change.1)?;
    holds(at == Some(change.2), row)
}

// Fails where a change doesn't name its field.
fn are_named(alloc: Global, bytes: &[u8], changes: &[Change], row: &str) -> Result<(), Fail> {
    for change in changes {
        is_named(alloc, bytes, change, row)?;
    }
    Ok(())
}

fn is_cut(alloc: Global, bytes: &[u8], cut: &Cut) -> Result<(), Fail> {
    let front = bytes.get(..cut.0).ok_or("a front")?;
    holds(fault(alloc, Version::One, front)? == Some(cut.1), "a front")
}

// How many bytes are left, and the place of the field that is then wrong.
type Cut = (usize, usize);

const CUTS: [Cut; 7] = [(0, 0), (1, 1), (5, 2), (9, 6), (26, 20), (40, 39), (72, 41)];

const CHANGES: [(&str, &[u8], &[Change]); 4] = [
    ("the sale", &SALE, &OF_SALE),
    ("the rectification", &RECTIFIED, &OF_RECTIFIED),
    ("the cancellation", &CANCELLED, &OF_CANCELLED),
    ("the notes", &NOTED, &OF_NOTED),
];

#[test]
fn the_first_wrong_field_is_named(rt: HostRuntime) -> Result<(), Fail> {
    for (row, bytes, changes) in &CHANGES {
        are_named(rt.alloc(), bytes, changes, row)?;
    }
    Ok(())
}

#[test]
fn a_front_and_more_bytes_are_no_entry(rt: HostRuntime) -> Result<(), Fail> {
    for cut in &CUTS {
        is_cut(rt.alloc(), &SALE, cut)?;
    }
    let mut more = Vec::from_slice(rt.alloc(), &SALE)?;
    more.push(0)?;
    let at = fault(rt.alloc(), Version::One, &more)?;
    holds(at == Some(73), "the sale and a byte")
}

// The bytes of a sale in version two.
fn new_bytes(alloc: Global, word: &str) -> Result<Vec<u8>, Fail> {
    let entry = sale(alloc, word)?;
    written(alloc, Version::Two, &entry)
}

// The bytes of a sale in version two have this line.
fn has_line(alloc: Global, word: &str, line: &[u8]) -> Result<(), Fail> {
    let bytes = new_bytes(alloc, word)?;
    holds(bytes.len() == 76 && &bytes[19..31] == line, word)
}

// The place, the byte that it is changed to, and the field that is then wrong.
type LineChange = (&'static str, usize, u8, Option<usize>);

const OF_LINE: [LineChange; 6] = [
    ("no change", 99, 0, None),
    ("tax 0", 19, 0, Some(19)),
    ("tax 4", 19, 4, Some(19)),
    ("class 16", 20, 16, Some(20)),
    ("class 17", 20, 17, Some(20)),
    ("rate 9", 21, 9, Some(21)),
];

const LINES: [(&str, [u8; 12]); 2] = [
    (
        "03/700",
        [0x03, 0x10, 0x02, 0xbc, 0, 0, 0, 0, 0, 0, 0x27, 0x10],
    ),
    ("21", [0x01, 0x00, 0x08, 0x34, 0, 0, 0, 0, 0, 0, 0x27, 0x10]),
];

#[test]
fn a_line_has_its_tax_its_class_and_its_rate_in_version_two(rt: HostRuntime) -> Result<(), Fail> {
    let fits = fits(Version::One, &sale(rt.alloc(), "03/700")?);
    holds(!fits, "version one")?;
    for (word, line) in &LINES {
        has_line(rt.alloc(), word, line)?;
    }
    Ok(())
}

fn is_named_in(alloc: Global, bytes: &[u8], row: &LineChange) -> Result<(), Fail> {
    let found = fault_with(alloc, Version::Two, bytes, row.1, row.2)?;
    holds(found == row.3, row.0)
}

#[test]
fn a_wrong_tax_class_or_rate_is_named(rt: HostRuntime) -> Result<(), Fail> {
    let bytes = new_bytes(rt.alloc(), "21")?;
    holds(head_of(&bytes) == head_of(&SALE), "the head")?;
    for row in &OF_LINE {
        is_named_in(rt.alloc(), &bytes, row)?;
    }
    Ok(())
}

#[test]
fn heads_are_read_from_the_bytes() -> Result<(), Fail> {
    let head = Head {
        id: id("A-1", 20_089)?,
        moment: moment(TEN, 60)?,
        huella: FIRST_HUELLA,
        is_alta: true,
        is_f2: true,
    };
    holds(head_of(&SALE) == Some(head), "of a sale")?;
    holds(head_of(&NOTED).is_none(), "of notes")
}
