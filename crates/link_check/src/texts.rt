//! The answers as they are printed.
ghost use Rattle.std.specs.Prelude.{◌≡◌, ◌++◌, OnOk, IfOk, decimal};
ghost use Rattle.link_check.specs.Texts as spec;

use crate::{Checked, CheckedList};
use itoa::Buffer;
use ports::NoMemory;
use record_fields::Text;
use std::alloc::{AllocError, Global};
use verify_link::LinkFault;

fn put(text: &mut Vec<u8>, part: &[u8]) -> Result<(), AllocError>
    ensures { OnOk result (text.new.items ≡ text.old.items ++ part.now) }
{
    text.extend_from_slice(part)
}

// A word that ends with a blank, and a number.
fn put_counted(text: &mut Vec<u8>, word: &[u8], n: u64) -> Result<(), AllocError>
    ensures { OnOk result (text.new.items ≡ text.old.items ++ (word.now ++ decimal n)) }
{
    let mut buffer = Buffer::new();
    put(text, word)?;
    put(text, buffer.format(n).as_bytes())
}

fn put_fault(text: &mut Vec<u8>, fault: LinkFault) -> Result<(), AllocError>
    ensures { OnOk result (text.new.items ≡ text.old.items ++ spec.fault_text fault) }
{
    match fault {
        LinkFault::Prefix => put(text, b"prefix"),
        LinkFault::Field { i } => put_counted(text, b"field ", i as u64),
        LinkFault::Escape { at } => put_counted(text, b"escape ", at as u64),
        LinkFault::NoMemory => put(text, b"memory"),
    }
}

fn put_check(text: &mut Vec<u8>, answer: Checked) -> Result<(), AllocError>
    ensures { OnOk result (text.new.items ≡ text.old.items ++ spec.check_text answer) }
{
    match answer {
        Checked::Found { place } => put_counted(text, b"found ", u64::from(place)),
        Checked::Differs { place } => put_counted(text, b"differs ", u64::from(place)),
        Checked::Cancelled { place } => put_counted(text, b"cancelled ", u64::from(place)),
        Checked::Refused => put(text, b"refused"),
        Checked::Unknown => put(text, b"unknown"),
        Checked::OtherIssuer => put(text, b"other-issuer"),
        Checked::BadLink(fault) => {
            put(text, b"bad ")?;
            put_fault(text, fault)
        }
        Checked::NotText => put(text, b"bad text"),
    }
}

/// A line for each answer, in order, each ended by LF.
pub fn checks_text(alloc: Global, answers: &CheckedList) -> Result<Text, NoMemory>
    //= The text is a line for each answer, exactly.
    //= No body: sessions of `check` compare it
    ensures { IfOk result (λ text. text ≡ spec.checks_text answers.now) }
{
    let mut text = Vec::new(alloc);
    let mut rest = answers.as_slice();
    while let [answer, after @ ..] = rest {
        put_check(&mut text, *answer)?;
        put(&mut text, b"\n")?;
        rest = after;
    }
    Ok(Text::of(text))
}
