//! What the agency says of records, one after another.
ghost use Rattle.std.specs.Prelude.{◌≡◌, IfOk};
ghost use Rattle.once_world.specs.Looks as spec;

use agency_rules::Pairs;
use ports::NoMemory;
use record_fields::{Line, Sealed};
use std::alloc::Global;

/// The lines of the records in front of the first that the agency hasn't processed.
pub(crate) fn lines_in_front(
    alloc: Global,
    processed: &Pairs,
    records: &[Sealed],
) -> Result<Vec<Line>, NoMemory>
    ensures { IfOk result (λ lines. lines.items ≡ spec.lines_in_front (spec.answers_for processed.now records.now)) }
{
    let mut lines = Vec::new(alloc);
    for sealed in records {
        match processed.line_of(&sealed.huella) {
            Some(line) => lines.push(line)?,
            None => return Ok(lines),
        }
    }
    Ok(lines)
}
