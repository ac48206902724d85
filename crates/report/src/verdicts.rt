//! The verdict on a file.
ghost use Rattle.std.specs.Prelude.{◌≡◌, ◌++◌, OnOk, IfOk};
ghost use Rattle.report.specs.Verdicts as spec;

use crate::pieces::{put, put_counted, put_huella};
use ports::NoMemory;
use record_fields::Text;
use shop_core::{AuditEnd, What};
use std::alloc::{AllocError, Global};

pub fn what_text(what: What) -> &'static [u8]
    ensures { result.now ≡ spec.what_text what }
{
    match what {
        What::Header => b"header",
        What::Frame => b"frame",
        What::Body => b"body",
        What::Notes => b"notes",
        What::Link => b"link",
        What::Seal => b"seal",
        What::Rule => b"rule",
    }
}

pub fn put_last(text: &mut Vec<u8>, last: &Option<[u8; 32]>) -> Result<(), AllocError>
    ensures { OnOk result (text.new.items ≡ text.old.items ++ spec.last_text last.now) }
{
    match last {
        None => put(text, b"-"),
        Some(huella) => put_huella(text, huella),
    }
}

fn put_verdict(text: &mut Vec<u8>, end: &AuditEnd) -> Result<(), AllocError>
    ensures { OnOk result (text.new.items ≡ text.old.items ++ spec.verdict_text end.now) }
{
    match end {
        AuditEnd::Sound {
            records,
            noted,
            last,
        } => {
            put_counted(text, b"sound ", u64::from(*records))?;
            put_counted(text, b" noted ", u64::from(*noted))?;
            put(text, b" last ")?;
            put_last(text, last)?;
            put(text, b"\n")
        }
        AuditEnd::Broken { place, at, what } => {
            put_counted(text, b"broken ", u64::from(*place))?;
            put_counted(text, b" at ", *at)?;
            put(text, b" ")?;
            put(text, what_text(*what))?;
            put(text, b"\n")
        }
    }
}

/// The line of a verdict.
pub fn verdict_text(alloc: Global, end: &AuditEnd) -> Result<Text, NoMemory>
    //= A verdict on a file is one line.
    //= No body: sessions of `audit` compare it
    ensures { IfOk result (λ text. text ≡ spec.verdict_text end.now) }
{
    let mut text = Vec::new(alloc);
    put_verdict(&mut text, end)?;
    Ok(Text::of(text))
}
