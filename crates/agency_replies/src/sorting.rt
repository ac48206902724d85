//! A reply, sorted.
ghost use Rattle.std.specs.Prelude.{◌≡◌, ◌≤◌, length, map, IfOk, MatchResult};
ghost use Rattle.agency_port.specs.declared.answers.ReplyLine.TheVariants.{First};
ghost use Rattle.agency_replies.specs.Sorting.{SortedAs, IsFirstAgain};
ghost use Rattle.pacing.specs.declared.pace.TheConstants.{MAX_BATCH};

use agency_port::{Reply, ReplyLine};
use batches::Batch;
use ports::NoMemory;
use record_fields::Lines;
use std::alloc::Global;

/// What a reply is to its batch.
#[derive(Drop)]
pub enum Sorted {
    /// It doesn't name the batch's Huellas, in order.
    Stale,
    /// The first record, counted from 0, that came before.
    Doubt { index: u32 },
    /// All records are new, and these are their lines.
    All(Lines),
}

// The lines of at most `MAX_BATCH` answers, or the first one that is no line.
fn sort_lines(alloc: Global, lines: &[ReplyLine]) -> Result<Result<Lines, u32>, NoMemory>
    requires { length lines.now ≤ MAX_BATCH }
    ensures { IfOk result (λ sorted. MatchResult sorted (λ first. lines.now ≡ map First first) (IsFirstAgain lines.now)) }
{
    let mut first = Vec::new(alloc);
    for i in 0..lines.len() {
        match lines[i] {
            ReplyLine::First(line) => first.push(line)?,
            ReplyLine::Duplicado(_) => return Ok(Err(i as u32)),
        }
    }
    Ok(Ok(Lines::of(first)))
}

/// Sorts the reply to a batch: stale exactly where it doesn't name the batch's Huellas in order; else in doubt at the first
/// `Duplicado`, counted from 0; else all records are new, with their lines.
pub fn sort_reply(alloc: Global, batch: &Batch, reply: &Reply) -> Result<Sorted, NoMemory>
    //= A reply is stale exactly where it doesn't name the batch's Huellas in order, else in doubt at its first
    //= duplicate, else its lines.
    ensures { IfOk result (SortedAs batch.now reply.now) }
{
    if !reply.huellas().are_of(batch.as_slice()) {
        return Ok(Sorted::Stale);
    }
    match sort_lines(alloc, reply.lines().as_slice())? {
        Ok(lines) => Ok(Sorted::All(lines)),
        Err(index) => Ok(Sorted::Doubt { index }),
    }
}
