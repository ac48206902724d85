//! Codes of classes, what each tax permits, and lines made of a total.
use amounts::Cents;
use std::alloc::Global;
use std::test::Fail;
use tax_lines::*;
use test_rows::holds;

fn breakdown(alloc: Global, lines: &[TaxLine]) -> Result<Breakdown, &'static str> {
    match Breakdown::of(alloc, lines) {
        Ok(breakdown) => Ok(breakdown),
        Err(_) => Err("no breakdown"),
    }
}

fn line(key: LineKey, base: i64) -> Result<TaxLine, &'static str> {
    match Cents::new(base) {
        Some(base) => Ok(TaxLine { key, base }),
        None => Err("a base"),
    }
}

// A class by its word, and its code in a file.
type Coded = (&'static str, u8);

const CODES: [Coded; 16] = [
    ("21", 0),
    ("10", 1),
    ("4", 2),
    ("0", 3),
    ("21+", 4),
    ("10+", 5),
    ("4+", 6),
    ("S2", 7),
    ("N1", 8),
    ("N2", 9),
    ("E1", 10),
    ("E2", 11),
    ("E3", 12),
    ("E4", 13),
    ("E5", 14),
    ("E6", 15),
];

fn has_code(row: &Coded) -> bool {
    match LineKey::read(row.0) {
        Some(key) => key.class().code() == row.1 && Class::of_code(row.1) == Some(key.class()),
        None => false,
    }
}

#[test]
fn each_class_has_its_code() -> Result<(), Fail> {
    for row in &CODES {
        holds(has_code(row), row.0)?;
    }
    let is_last = Class::of_code(16) == Some(Class::Free) && Class::of_code(17).is_none();
    holds(is_last, "the last code")
}

// A tax, a class and a rate, and whether the table permits them.
type Permit = (&'static str, Tax, Class, u16, bool);

const TABLE: [Permit; 7] = [
    ("IVA, general, 2100", Tax::Iva, Class::General, 2100, true),
    ("IVA, general, 2000", Tax::Iva, Class::General, 2000, false),
    ("IVA, free, 2100", Tax::Iva, Class::Free, 2100, false),
    (
        "IGIC, general, 2100",
        Tax::Igic,
        Class::General,
        2100,
        false,
    ),
    ("IGIC, free, 2501", Tax::Igic, Class::Free, 2501, false),
    ("IPSI, free, 2500", Tax::Ipsi, Class::Free, 2500, true),
    ("IPSI, E1, 0", Tax::Ipsi, Class::E1, 0, true),
];

fn is_permitted(row: &Permit) -> Result<(), Fail> {
    let key = LineKey::new(row.1, row.2, row.3);
    holds(key.is_some() == row.4, row.0)
}

#[test]
fn the_table_permits_a_tax_a_class_and_a_rate() -> Result<(), Fail> {
    for row in &TABLE {
        is_permitted(row)?;
    }
    Ok(())
}

const NEAR: i64 = -9_999_999_999;

const PAST: i64 = 10_000_000_000;

// Lines of these bases, and what is wrong with them.
type Faulty = (&'static str, &'static [i64], Option<LinesFault>);

const FAULTY: [Faulty; 4] = [
    ("no lines", &[], Some(LinesFault::NoLines)),
    ("thirteen", &[PAST; 13], Some(LinesFault::TooMany { n: 13 })),
    (
        "the second",
        &[NEAR, PAST, PAST],
        Some(LinesFault::Range { i: 1 }),
    ),
    ("twelve", &[NEAR; 12], None),
];

fn lines_of(alloc: Global, bases: &[i64]) -> Result<Vec<TaxLine>, Fail> {
    let mut lines = Vec::new(alloc);
    for base in bases {
        lines.push(line(LineKey::iva(Class::General), *base)?)?;
    }
    Ok(lines)
}

fn has_fault(alloc: Global, row: &Faulty) -> Result<(), Fail> {
    let lines = lines_of(alloc, row.1)?;
    let fault = Breakdown::of(alloc, &lines).err();
    holds(fault == row.2, row.0)
}

#[test]
fn lines_are_refused_in_order(rt: HostRuntime) -> Result<(), Fail> {
    for row in &FAULTY {
        has_fault(rt.alloc(), row)?;
    }
    Ok(())
}

// Lines with the cuota and the total of the first example of the agency's hash specification, 12.35 and 123.45 euros.
fn published() -> Result<[TaxLine; 2], &'static str> {
    let general = line(LineKey::iva(Class::General), 1127)?;
    let reduced = line(LineKey::iva(Class::Reduced), 9983)?;
    Ok([general, reduced])
}

fn is_published(lines: &Breakdown) -> bool {
    lines.cuota().get() == 1235 && lines.total().get() == 12_345
}

#[test]
fn taxes_round_line_by_line(rt: HostRuntime) -> Result<(), Fail> {
    let lines = published()?;
    let lines = breakdown(rt.alloc(), &lines)?;
    let copy = lines.copied(rt.alloc())?;
    let is_same = copy.lines() == lines.lines() && copy.lines().len() == 2;
    holds(is_same && is_published(&copy), "the copy")
}

// A key, a total with its tax in cents, and the bases of its lines, which another program found by trying all.
type Priced = (&'static str, i64, &'static [i64]);

const PRICED: [Priced; 16] = [
    ("21", 0, &[0]),
    ("21", 1, &[1]),
    ("21", 1000, &[413, 413]),
    ("21", -1000, &[-413, -413]),
    ("21", 1999, &[1652]),
    ("10", 5, &[3, 2]),
    ("10", 6, &[5]),
    ("10", 16, &[11, 4]),
    ("4", 13, &[7, 6]),
    ("21+", 1000, &[396, 396]),
    ("21+", 1003, &[795]),
    ("4+", 35, &[34]),
    ("0", 1000, &[1000]),
    ("03/1", 15_001, &[10_001, 4999]),
    ("03/2500", 2, &[1, 1]),
    ("21", 9_999_999_999_999, &[]),
];

fn are_bases(found: Option<TotalLines>, bases: &[i64]) -> bool {
    match found {
        None => bases.is_empty(),
        Some(TotalLines::One(line)) => bases.len() == 1 && line.base.get() == bases[0],
        Some(TotalLines::Two(first, second)) => {
            bases.len() == 2 && first.base.get() == bases[0] && second.base.get() == bases[1]
        }
    }
}

fn is_priced(row: &Priced) -> Result<(), Fail> {
    let (Some(key), Some(total)) = (LineKey::read(row.0), Cents::new(row.1)) else {
        return Err(Fail::new("a key and a total"));
    };
    holds(are_bases(lines_of_total(key, total), row.2), row.0)
}

#[test]
fn a_total_with_its_tax_becomes_lines() -> Result<(), Fail> {
    for row in &PRICED {
        is_priced(row)?;
    }
    Ok(())
}
