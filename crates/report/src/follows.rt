//! The line of a copy that was brought up.
ghost use Rattle.std.specs.Prelude.{◌≡◌, ◌++◌, OnOk, IfOk};
ghost use Rattle.report.specs.Follows as spec;

use crate::pieces::{put, put_counted};
use ports::NoMemory;
use record_fields::Text;
use std::alloc::{AllocError, Global};

fn put_counts(text: &mut Vec<u8>, kept: u64, entries: u64) -> Result<(), AllocError>
    ensures { OnOk result (text.new.items ≡ text.old.items ++ spec.counts_text kept entries) }
{
    put_counted(text, b"followed ", kept)?;
    put_counted(text, b" entries ", entries)
}

/// How many entries a copy was given, and how many it has then.
pub fn followed_text(alloc: Global, kept: u64, entries: u64) -> Result<Text, NoMemory>
    ensures { IfOk result (λ text. text ≡ spec.followed_text kept entries) }
{
    let mut text = Vec::new(alloc);
    put_counts(&mut text, kept, entries)?;
    put(&mut text, b"\n")?;
    Ok(Text::of(text))
}
