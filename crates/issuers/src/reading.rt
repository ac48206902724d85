//! A script for several issuers.
ghost use Rattle.std.specs.Prelude.{◌≡◌, ◌≤◌, ◌<◌, ◌++◌, ◌∷◌, ◌&&◌, ℕ, List, [], not, is_some, All, IfOk, OnOk, length, if◌then◌else◌};
ghost use Rattle.std.specs.Option.{option_map_or};
ghost use Rattle.record_fields.specs.Picks.{when};
ghost use Rattle.script.specs.Cuts.{parts_of};
ghost use Rattle.script.specs.Fields.{fields_of};
ghost use Rattle.issuers.specs.Parts.{HasLines};
ghost use Rattle.issuers.specs.Reading as spec;
ghost use Rattle.issuers.specs.Reading.{Adds, IsSoonest, ManyIs, PartIs};

use crate::parts::{Part, Parts};
use parties::Nif;
use ports::NoMemory;
use script::{Cuts, Fields, Form, ScriptFault, read_numbered, without_return};
use shop_core::Word;
use std::alloc::Global;

/// A line that says nothing, by its number from 1, and what is wrong in it.
#[derive(Clone, Copy, Drop)]
pub(crate) struct BadLine {
    pub line: u32,
    pub fault: Word,
}

// The fields after a first one that is `issuer`.
fn behind_issuer(text: &str) -> Option<Fields<'_>>
    ensures { result ≡ spec.behind_issuer (fields_of text.now) }
{
    let mut fields = Fields::of(text);
    match fields.next() {
        Some(verb) => { if verb == "issuer" { Some(fields) } else { None } }
        None => None,
    }
}

// The fields of a line that begins a section, after its first one.
fn section_of(line: &[u8]) -> Option<Fields<'_>>
    ensures { result ≡ spec.section_of line.now }
{
    match str::from_utf8(without_return(line)) {
        Ok(text) => behind_issuer(text),
        Err(_) => None,
    }
}

// These fields name this issuer.
fn names(nif: &Nif, mut fields: Fields) -> bool
    ensures { result ≡ spec.names nif.now fields.entry }
{
    let Some(name) = fields.next() else {
        return false;
    };
    match fields.next() {
        Some(_) => false,
        None => name.as_bytes() == nif.bytes().as_slice(),
    }
}

fn is_one_of(name: &[u8], issuers: &[Nif]) -> bool
    ensures { result ≡ spec.is_one_of name.now issuers.now }
{
    issuers.iter().any(|nif| name == nif.bytes().as_slice())
}

fn name_fault(name: &[u8], issuers: &[Nif]) -> Option<Word>
    ensures { result ≡ when (not (spec.is_one_of name.now issuers.now)) Word.Nif }
{
    if is_one_of(name, issuers) {
        None
    } else {
        Some(Word::Nif)
    }
}

// What is wrong in a line that begins a section, by its fields after the first one.
fn section_fault(mut fields: Fields, issuers: &[Nif]) -> Option<Word>
    ensures { result ≡ spec.section_fault issuers.now fields.entry }
{
    let Some(name) = fields.next() else {
        return Some(Word::Fields);
    };
    match fields.next() {
        Some(_) => Some(Word::Fields),
        None => name_fault(name.as_bytes(), issuers),
    }
}

fn fault_at(number: u32, line: &[u8], issuers: &[Nif]) -> Option<BadLine>
    ensures { result ≡ spec.fault_at issuers.now (number, line.now) }
{
    match section_of(line) {
        None => None,
        Some(fields) => match section_fault(fields, issuers) {
            None => None,
            Some(fault) => Some(BadLine {
                line: number,
                fault,
            }),
        },
    }
}

// The one of the smaller line, of two in one line the first.
fn sooner_fault(best: Option<BadLine>, other: Option<BadLine>) -> Option<BadLine>
    ensures { result ≡ spec.sooner_fault best other }
{
    match (best, other) {
        (best, None) => best,
        (None, Some(other)) => Some(other),
        (Some(best), Some(other)) => {
            if other.line < best.line {
                Some(other)
            } else {
                Some(best)
            }
        }
    }
}

// The first bad one of the lines that begin sections.
fn bad_section(bytes: &[u8], issuers: &[Nif]) -> Option<BadLine>
    requires { length bytes.now < 4_294_967_295 }
    ensures { IsSoonest (spec.section_faults issuers.now (parts_of 10 bytes.now)) result }
{
    let mut lines = Cuts::of(bytes, b'\n');
    let mut bad = None;
    let mut number = 0u32;
    while let Some(line) = lines.next() {
        number += 1;
        bad = sooner_fault(bad, fault_at(number, line, issuers));
    }
    bad
}

// Ends the line above, where there is one.
fn end_line(part: &mut Vec<u8>, begun: bool) -> Result<(), NoMemory>
    ensures { OnOk result (part.new.items ≡ part.old.items ++ (if begun then 10 ∷ [] else [])) }
{
    if begun {
        part.push(b'\n')?;
    }
    Ok(())
}

// Adds a line to an issuer's part where it is its own, else none. Whether the line below it is its own.
fn add_line(part: &mut Vec<u8>, nif: &Nif, own: bool, line: &[u8]) -> Result<bool, NoMemory>
    ensures next { IfOk result (λ next. next ≡ option_map_or (spec.names nif.now) (spec.section_of line.now) own) }
    ensures added { OnOk result (part.new.items ≡ part.old.items
        ++ (if not (is_some (spec.section_of line.now)) && own then line.now else [])) }
{
    match section_of(line) {
        Some(fields) => Ok(names(nif, fields)),
        None => {
            if own {
                part.extend_from_slice(line)?;
            }
            Ok(own)
        }
    }
}

// The part of an issuer, as bytes.
fn part_bytes(alloc: Global, bytes: &[u8], nif: &Nif) -> Result<Vec<u8>, NoMemory>
    ensures part { IfOk result (λ part. part.items ≡ spec.part_of nif.now bytes.now) }
    ensures few { IfOk result (λ part. length part.items ≤ length bytes.now) }
{
    let mut part = Vec::new(alloc);
    let mut lines = Cuts::of(bytes, b'\n');
    let mut own = true;
    let mut begun = false;
    while let Some(line) = lines.next() {
        end_line(&mut part, begun)?;
        begun = true;
        own = add_line(&mut part, nif, own, line)?;
    }
    Ok(part)
}

// The part of an issuer, or its first bad line.
fn read_part(alloc: Global, bytes: &[u8], issuer: &Nif) -> Result<Part, ScriptFault>
    requires { length bytes.now < 4_294_967_295 }
    ensures part { PartIs bytes.now issuer.now result }
    ensures lines { IfOk result HasLines }
{
    let part = part_bytes(alloc, bytes, issuer)?;
    let (script, lines) = read_numbered(alloc, &part, Form::Full)?;
    Ok(Part { script, lines })
}

// One part more, or the soonest bad line, its own included.
fn add_part(
    parts: &mut Vec<Part>,
    bad: Option<BadLine>,
    read: Result<Part, ScriptFault>,
) -> Result<Option<BadLine>, NoMemory>
    ensures { IfOk result (λ now. Adds read bad parts.old.items now parts.new.items) }
{
    match read {
        Ok(part) => match parts.push(part) {
            Ok(()) => Ok(bad),
            Err(_) => Err(NoMemory),
        },
        Err(ScriptFault::NoMemory) => Err(NoMemory),
        Err(ScriptFault::BadLine { line, fault }) => {
            Ok(sooner_fault(bad, Some(BadLine { line, fault })))
        }
    }
}

/// The parts of a script for several issuers, in their order. A line `issuer NIF` begins a section; the lines before the first
/// one belong to every issuer. The part of an issuer is the script with every such line and every line of another's section made
/// empty, so line numbers stay, and limits count per issuer. Of the first bad lines of all parts and of those that begin sections
/// the one of the smallest number is answered.
pub fn read_many(alloc: Global, bytes: &[u8], issuers: &[Nif]) -> Result<Parts, ScriptFault>
    requires { length bytes.now < 4_294_967_295 }
    //= Each issuer's part of a script is the lines in front of all sections and those of its own, read as a script by
    //= itself; else the faulty line with the smallest number is named.
    ensures many { ManyIs issuers.now bytes.now result }
    ensures lines { IfOk result (λ parts. All HasLines parts) }
    // Each part, cut into lines, is the script's own lines, with those that aren't the issuer's made empty.
    ensures stay { (nif : List ℕ) → parts_of 10 (spec.part_of nif bytes.now) ≡ spec.own_lines nif [] (parts_of 10 bytes.now) }
{
    let mut bad = bad_section(bytes, issuers);
    let mut parts = Vec::new(alloc);
    for issuer in issuers {
        bad = add_part(&mut parts, bad, read_part(alloc, bytes, issuer))?;
    }
    match bad {
        None => Ok(Parts::of(parts)),
        Some(BadLine { line, fault }) => Err(ScriptFault::BadLine { line, fault }),
    }
}
