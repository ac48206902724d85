//! What is printed on standard error.
ghost use Rattle.std.specs.Prelude.{◌≡◌, ◌++◌, OnOk, IfOk, codes, decimal};
ghost use Rattle.report.specs.Faults as spec;

use crate::Detail;
use crate::pieces::{put, put_counted, put_number};
use crate::verdicts::what_text;
use agency_port::Evidence;
use parties::Nif;
use ports::NoMemory;
use record_fields::Text;
use shop_core::Word;
use std::alloc::{AllocError, Global};

pub fn word_text(word: Word) -> &'static [u8]
    ensures { result.now ≡ spec.word_text word }
{
    match word {
        Word::Utf8 => b"Utf8",
        Word::Verb => b"Verb",
        Word::Command => b"Command",
        Word::Fields => b"Fields",
        Word::Number => b"Number",
        Word::Till => b"Till",
        Word::Series => b"Series",
        Word::Num => b"Num",
        Word::Kind => b"Kind",
        Word::Nif => b"Nif",
        Word::Name => b"Name",
        Word::Class => b"Class",
        Word::Fate => b"Fate",
        Word::Option => b"Option",
        Word::Customer => b"Customer",
        Word::Date => b"Date",
        Word::Lines => b"Lines",
        Word::Twice => b"Twice",
        Word::TooMany => b"TooMany",
    }
}

// A head that ends with a blank, a number, and the end of the line.
fn put_numbered(text: &mut Vec<u8>, head: &[u8], n: u64) -> Result<(), AllocError>
    ensures { OnOk result (text.new.items ≡ text.old.items ++ (head.now ++ decimal n ++ codes "\n")) }
{
    put_counted(text, head, n)?;
    put(text, b"\n")
}

// The same with a word after the number.
fn put_named(text: &mut Vec<u8>, head: &[u8], n: u32, word: &[u8]) -> Result<(), AllocError>
    ensures { OnOk result (text.new.items ≡ text.old.items ++ (head.now ++ decimal n ++ codes " " ++ word.now ++ codes "\n")) }
{
    put_counted(text, head, u64::from(n))?;
    put(text, b" ")?;
    put(text, word)?;
    put(text, b"\n")
}

// The same with two numbers.
fn put_counts(text: &mut Vec<u8>, head: &[u8], noted: u32, records: u32) -> Result<(), AllocError>
    ensures { OnOk result (text.new.items ≡ text.old.items ++ (head.now ++ spec.counts_text noted records)) }
{
    put_counted(text, head, u64::from(noted))?;
    put(text, b" of ")?;
    put_number(text, u64::from(records))?;
    put(text, b"\n")
}

// The same with a NIF.
fn put_nif(text: &mut Vec<u8>, head: &[u8], nif: &Nif) -> Result<(), AllocError>
    ensures { OnOk result (text.new.items ≡ text.old.items ++ (head.now ++ spec.nif_line nif.now)) }
{
    put(text, head)?;
    put(text, &nif.bytes())?;
    put(text, b"\n")
}

fn unseen_place(evidence: Evidence) -> u32
    ensures { result ≡ spec.unseen_place evidence }
{
    match evidence {
        Evidence::Hole { unseen, .. } => unseen,
        Evidence::Forgotten { place, .. } => place,
    }
}

fn put_fault(text: &mut Vec<u8>, detail: &Detail) -> Result<(), AllocError>
    ensures { OnOk result (text.new.items ≡ text.old.items ++ spec.fault_text detail.now) }
{
    match detail {
        Detail::Done => Ok(()),
        Detail::Usage => put(text, b"verifactu: usage\n"),
        Detail::Script { line, fault } => {
            put_named(text, b"verifactu: script line ", *line, word_text(*fault))
        }
        Detail::ReadFault => put(text, b"verifactu: read fault\n"),
        Detail::WriteFault => put(text, b"verifactu: write fault\n"),
        Detail::DiskFault => put(text, b"verifactu: disk fault\n"),
        Detail::Damaged { at } => put_numbered(text, b"verifactu: damaged at ", *at),
        Detail::Undelivered { noted, records } => {
            put_counts(text, b"verifactu: undelivered ", *noted, *records)
        }
        Detail::Broken { place, what } => {
            put_named(text, b"verifactu: broken ", *place, what_text(*what))
        }
        Detail::NoMemory => put(text, b"verifactu: no memory\n"),
        Detail::Contradiction(evidence) => {
            let place = u64::from(unseen_place(*evidence));
            put_numbered(text, b"verifactu: contradiction at ", place)
        }
        Detail::TooBig => put(text, b"verifactu: input too big\n"),
        Detail::OtherIssuer { held } => put_nif(text, b"verifactu: file of ", held),
        Detail::Unknown => put(text, b"verifactu: no such invoice\n"),
        Detail::Occupied { .. } => put(text, b"verifactu: occupied\n"),
        Detail::NotOld { held } => put_numbered(text, b"verifactu: not old ", u64::from(*held)),
        Detail::Parted { entry } => put_numbered(text, b"verifactu: parted at ", *entry),
        Detail::Differs { line } => put_numbered(text, b"verifactu: differs at line ", *line),
        Detail::Issuer { index, .. } => put_numbered(
            text,
            b"verifactu: issuer ",
            u64::from(*index),
        ),
    }
}

/// What the program prints on standard error where its status isn't 0: one line, and nothing at `Done`.
pub fn fault_text(alloc: Global, detail: &Detail) -> Result<Text, NoMemory>
    //= Standard error gets this one line at each end but the good one.
    //= No body: sessions compare it
    ensures { IfOk result (λ text. text ≡ spec.fault_text detail.now) }
{
    let mut text = Vec::new(alloc);
    put_fault(&mut text, detail)?;
    Ok(Text::of(text))
}
