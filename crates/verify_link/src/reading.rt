//! A text read as a link.
ghost use Rattle.std.specs.Prelude.{◌≡◌, ◌+◌, ◌<◌, ◌≤◌, ℕ, List, length, drop, IfOk, IfErr, MatchOption, MatchResult, position};
ghost use Rattle.amounts.specs.Text.{amount_text};
ghost use Rattle.amounts.specs.Cents.{IsCents};
ghost use Rattle.stamps.specs.Day.{last_day};
ghost use Rattle.stamps.specs.Text.{date_text_of};
ghost use Rattle.verify_link.specs.Writing.{AgreeButInCase};
ghost use Rattle.verify_link.specs.Parts.{beginning, link_text, IsLinkParts};
ghost use Rattle.verify_link.specs.Reading as spec;
ghost use Rattle.verify_link.specs.declared.parts.Host.{Host as AnyHost};
ghost use Rattle.verify_link.specs.declared.parts.LinkParts.{LinkParts as AnyParts};
ghost use Rattle.verify_link.specs.declared.parts.LinkFault.TheVariants as link_fault;

use crate::encoding::{decode, first_bad_escape};
use crate::values::{day_of, nif_of, num_of, total_of};
use crate::{Host, LinkFault, LinkParts};
use amounts::{Cents, text_determines_amount};
use parties::Nif;
use series::NumSerie;
use stamps::{Day, text_determines_day};
use std::alloc::Global;

/// What the link says that the text is, the case of its escape digits aside. The beginning is looked at first, then the four
/// fields from the left: of each its name, the first `%` without two hexadecimal digits, and its value.
pub fn read_link(alloc: Global, text: &str) -> Result<LinkParts, LinkFault>
    //= A link is read as valid parts whose link the text is, but for the case of the two characters after each `%`;
    //= else its first fault from the left is told, with its field or its place.
    ensures reading { spec.IsLinkReading text.now result }

    // Only lack of memory keeps a link from being read.
    //= A text that is a link but for that case is read as its parts, or memory ran out.
    ensures read_back { (parts : AnyParts) → IsLinkParts parts → AgreeButInCase text.now (link_text parts)
        → MatchResult result (λ read. read ≡ parts) (λ fault. fault ≡ link_fault.NoMemory) }

    // Reading undoes writing.
    ensures inverse { (parts : AnyParts) → IsLinkParts parts → text.now ≡ link_text parts
        → MatchResult result (λ read. read ≡ parts) (λ fault. fault ≡ link_fault.NoMemory) }
{
    text_determines_day();
    text_determines_amount();
    read_bytes(alloc, text.as_bytes())
}

fn read_bytes(alloc: Global, text: &[u8]) -> Result<LinkParts, LinkFault>
    ensures { spec.IsLinkReading text.now result }
{
    match host_of(text) {
        Some(host) => read_fields(alloc, text, host),
        None => Err(LinkFault::Prefix),
    }
}

// The host whose links begin as the text does.
fn host_of(text: &[u8]) -> Option<Host>
    ensures { MatchOption result
        ((host : AnyHost) → ¬ (spec.Begins (beginning host) text.now))
        (λ host. spec.Begins (beginning host) text.now) }
{
    if text.starts_with(Host::Real.beginning().as_bytes()) {
        return Some(Host::Real);
    }
    if text.starts_with(Host::Practice.beginning().as_bytes()) {
        return Some(Host::Practice);
    }
    None
}

// The fields after the beginning of this host's links.
fn read_fields(alloc: Global, text: &[u8], host: Host) -> Result<LinkParts, LinkFault>
    requires { spec.Begins (beginning host) text.now }
    ensures { spec.IsLinkReading text.now result }
{
    let (nif, at) = read_nif(alloc, text, host.beginning().len())?;
    let (num, at) = read_num(alloc, text, at)?;
    let (day, at) = read_day(alloc, text, at)?;
    let total = read_total(alloc, text, at)?;
    Ok(LinkParts {
        host,
        nif,
        num,
        day,
        total,
    })
}

fn read_nif(alloc: Global, text: &[u8], at: usize) -> Result<(Nif, usize), LinkFault>
    requires { at ≤ length text.now }
    ensures ok { IfOk result (λ found. spec.IsFieldAt 0 text.now at found.0 found.1) }
    ensures err { IfErr result (λ fault. spec.IsFieldFault 0 at text.now fault) }
{
    let (bytes, end) = field_at(alloc, text, 0, at)?;
    match nif_of(&bytes) {
        Some(nif) => Ok((nif, end)),
        None => Err(LinkFault::Field { i: 0 }),
    }
}

fn read_num(alloc: Global, text: &[u8], at: usize) -> Result<(NumSerie, usize), LinkFault>
    requires { at ≤ length text.now }
    ensures ok { IfOk result (λ found. spec.IsFieldAt 1 text.now at found.0 found.1) }
    ensures err { IfErr result (λ fault. spec.IsFieldFault 1 at text.now fault) }
{
    let (bytes, end) = field_at(alloc, text, 1, at)?;
    match num_of(&bytes) {
        Some(num) => Ok((num, end)),
        None => Err(LinkFault::Field { i: 1 }),
    }
}

fn read_day(alloc: Global, text: &[u8], at: usize) -> Result<(Day, usize), LinkFault>
    requires { at ≤ length text.now }
    ensures ok { IfOk result (λ found. spec.IsFieldAt 2 text.now at (date_text_of found.0) found.1) }
    ensures day { IfOk result (λ found. found.0 ≤ last_day) }
    ensures err { IfErr result (λ fault. spec.IsFieldFault 2 at text.now fault) }
{
    let (bytes, end) = field_at(alloc, text, 2, at)?;
    match day_of(&bytes) {
        Some(day) => Ok((day, end)),
        None => Err(LinkFault::Field { i: 2 }),
    }
}

fn read_total(alloc: Global, text: &[u8], at: usize) -> Result<Cents, LinkFault>
    requires { at ≤ length text.now }
    ensures ok { IfOk result (λ total. spec.IsFieldAt 3 text.now at (amount_text total) (length text.now)) }
    ensures total { IfOk result (λ total. IsCents total) }
    ensures err { IfErr result (λ fault. spec.IsFieldFault 3 at text.now fault) }
{
    let (bytes, _end) = field_at(alloc, text, 3, at)?;
    match total_of(&bytes) {
        Some(total) => Ok(total),
        None => Err(LinkFault::Field { i: 3 }),
    }
}

// What the value of field `i` says, which has its place at `at`, and where the field ends.
fn field_at(alloc: Global, text: &[u8], i: usize, at: usize) -> Result<(Vec<u8>, usize), LinkFault>
    requires field { i < 4 }
    requires within { at ≤ length text.now }
    ensures ok { IfOk result (λ found. spec.IsWholeField i text.now at found.0.items found.1) }
    ensures err { IfErr result (λ fault. spec.IsFieldFault i at text.now fault) }
{
    let name = name_of(i);
    if !text[at..].starts_with(name) {
        return Err(LinkFault::Field { i });
    }
    let start = at + name.len();
    let value = value_in(i, &text[start..]);
    if let Some(k) = first_bad_escape(value) {
        return Err(LinkFault::Escape { at: start + k });
    }
    match decode(alloc, value)? {
        Some(bytes) => Ok((bytes, start + value.len())),
        None => Err(LinkFault::Field { i }),
    }
}

fn name_of(i: usize) -> &'static [u8]
    ensures { result.now ≡ spec.name_of i }
{
    match i {
        0 => b"nif=",
        1 => b"&numserie=",
        2 => b"&fecha=",
        _ => b"&importe=",
    }
}

fn value_in(i: usize, after: &[u8]) -> &[u8]
    ensures { result.now ≡ spec.value_in i after.now }
{
    if i == 3 {
        return after;
    }
    match first_ampersand(after) {
        Some(end) => &after[..end],
        None => after,
    }
}

fn first_ampersand(text: &[u8]) -> Option<usize>
    ensures { result ≡ position spec.is_ampersand text.now }
{
    text.iter().position(|b| *b == b'&')
}
