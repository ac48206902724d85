//! Tax numbers and names: what is refused, and why.
use parties::*;
use std::alloc::Global;
use std::test::Fail;
use test_rows::holds;

const NO_NUMBERS: [(&str, NifFault); 5] = [
    ("89890001L", NifFault::Control { wanted: b'K' }),
    ("A58818502", NifFault::Control { wanted: b'1' }),
    ("X1234567", NifFault::Length),
    ("K1234567A", NifFault::Shape),
    ("A5881850K", NifFault::Shape),
];

#[test]
fn a_fault_of_a_tax_number_is_named() -> Result<(), Fail> {
    for (text, fault) in &NO_NUMBERS {
        holds(Nif::read(text).err() == Some(*fault), text)?;
    }
    Ok(())
}

type NameRow = (&'static str, NameFault);

const NO_NAMES: [NameRow; 5] = [
    ("", NameFault::Length { n: 0 }),
    ("Bar\tSol ", NameFault::Char { at: 3 }),
    ("Bar\u{7f}", NameFault::Char { at: 3 }),
    (" Bar", NameFault::Edge),
    ("Bar ", NameFault::Edge),
];

fn is_named(alloc: Global, row: &NameRow) -> Result<(), Fail> {
    let fault = Name::read(alloc, row.0).err();
    holds(fault == Some(row.1), row.0)
}

#[test]
fn a_fault_of_a_name_is_named(rt: HostRuntime) -> Result<(), Fail> {
    for row in &NO_NAMES {
        is_named(rt.alloc(), row)?;
    }
    Ok(())
}

fn party(alloc: Global) -> Result<Party, &'static str> {
    let Ok(nif) = Nif::read("B12345674") else {
        return Err("no tax number");
    };
    match Name::read(alloc, "Bar Sol") {
        Ok(name) => Ok(Party { nif, name }),
        Err(_) => Err("no name"),
    }
}

fn is_copied(alloc: Global, party: &Party) -> Result<bool, Fail> {
    let copy = party.copied(alloc)?;
    Ok(copy == *party && copy.name.as_slice() == b"Bar Sol".as_slice())
}

#[test]
fn a_party_is_copied(rt: HostRuntime) -> Result<(), Fail> {
    let party = party(rt.alloc())?;
    holds(is_copied(rt.alloc(), &party)?, "the copy")
}
