//! The line of an export that was compared.
ghost use Rattle.std.specs.Prelude.{◌≡◌, IfOk};
ghost use Rattle.report.specs.Matching as spec;

use crate::pieces::{put, put_counted};
use ports::NoMemory;
use record_fields::Text;
use std::alloc::Global;

/// How many entries a history has that lines of JSON are the export of.
pub fn matches_text(alloc: Global, entries: u64) -> Result<Text, NoMemory>
    ensures { IfOk result (λ text. text ≡ spec.matches_text entries) }
{
    let mut text = Vec::new(alloc);
    put_counted(&mut text, b"matches ", entries)?;
    put(&mut text, b"\n")?;
    Ok(Text::of(text))
}
