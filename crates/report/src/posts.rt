//! The lines round what is printed of each issuer of an installation.
ghost use Rattle.std.specs.Prelude.{◌≡◌, ◌++◌, OnOk, IfOk};
ghost use Rattle.report.specs.Posts as spec;

use crate::pieces::{put, put_counted};
use parties::Nif;
use ports::NoMemory;
use record_fields::Text;
use std::alloc::{AllocError, Global};

/// Why an issuer's file didn't open.
#[derive(Clone, Copy, Debug, PartialEq, Eq)]
pub enum Closed {
    /// It is damaged at this byte.
    Damaged { at: u64 },
    /// It holds the chain of another issuer, this one.
    FileOf { held: Nif },
    /// Its disk failed.
    Disk,
    /// There was no memory for it.
    Memory,
}

fn put_issuer(text: &mut Vec<u8>, issuer: &Nif) -> Result<(), AllocError>
    ensures { OnOk result (text.new.items ≡ text.old.items ++ issuer.now) }
{
    put(text, &issuer.bytes())
}

fn put_owner(text: &mut Vec<u8>, held: &Nif) -> Result<(), AllocError>
    ensures { OnOk result (text.new.items ≡ text.old.items ++ spec.owner_text held.now) }
{
    put(text, b"closed file-of ")?;
    put_issuer(text, held)
}

fn put_closed(text: &mut Vec<u8>, closed: &Closed) -> Result<(), AllocError>
    ensures { OnOk result (text.new.items ≡ text.old.items ++ spec.cause_text closed.now) }
{
    match closed {
        Closed::Damaged { at } => put_counted(text, b"closed damaged ", *at),
        Closed::FileOf { held } => put_owner(text, held),
        Closed::Disk => put(text, b"closed disk"),
        Closed::Memory => put(text, b"closed memory"),
    }
}

/// The line that begins what is printed of an issuer.
pub fn issuer_text(alloc: Global, issuer: &Nif) -> Result<Text, NoMemory>
    ensures { IfOk result (λ text. text ≡ spec.issuer_text issuer.now) }
{
    let mut text = Vec::new(alloc);
    put(&mut text, b"issuer ")?;
    put_issuer(&mut text, issuer)?;
    put(&mut text, b"\n")?;
    Ok(Text::of(text))
}

/// The line of an issuer whose file didn't open.
pub fn closed_text(alloc: Global, closed: &Closed) -> Result<Text, NoMemory>
    ensures { IfOk result (λ text. text ≡ spec.closed_text closed.now) }
{
    let mut text = Vec::new(alloc);
    put_closed(&mut text, closed)?;
    put(&mut text, b"\n")?;
    Ok(Text::of(text))
}

/// The line that ends what is printed of an issuer, by its status.
pub fn ended_text(alloc: Global, status: u8) -> Result<Text, NoMemory>
    ensures { IfOk result (λ text. text ≡ spec.ended_text status) }
{
    let mut text = Vec::new(alloc);
    put_counted(&mut text, b"ended ", u64::from(status))?;
    put(&mut text, b"\n")?;
    Ok(Text::of(text))
}
