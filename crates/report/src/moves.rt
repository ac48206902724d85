//! The line of a migration.
ghost use Rattle.std.specs.Prelude.{◌≡◌, ◌++◌, OnOk, IfOk};
ghost use Rattle.report.specs.Moves as spec;

use crate::pieces::{put, put_counted};
use ports::NoMemory;
use record_fields::Text;
use std::alloc::{AllocError, Global};

fn put_counts(text: &mut Vec<u8>, records: u32, noted: u32) -> Result<(), AllocError>
    ensures { OnOk result (text.new.items ≡ text.old.items ++ spec.counts_text records noted) }
{
    put_counted(text, b"migrated ", u64::from(records))?;
    put_counted(text, b" noted ", u64::from(noted))
}

/// How many records, and how many noted lines, stand in a file that was moved.
pub fn migrated_text(alloc: Global, records: u32, noted: u32) -> Result<Text, NoMemory>
    ensures { IfOk result (λ text. text ≡ spec.migrated_text records noted) }
{
    let mut text = Vec::new(alloc);
    put_counts(&mut text, records, noted)?;
    put(&mut text, b"\n")?;
    Ok(Text::of(text))
}
