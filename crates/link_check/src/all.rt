//! All lines, in pieces that are worked at the same time.
ghost use Rattle.std.specs.Prelude.{◌≡◌, IfOk, IsOk, All, flat_map};
ghost use Rattle.std.specs.Int.{IsInRange};
ghost use Rattle.link_check.specs.Checking.{AreChecked};
ghost use Rattle.link_check.specs.Checking.Chain.{begun, not_begun};
ghost use Rattle.link_check.specs.Pieces.{answers_in};
ghost use Rattle.link_check.specs.declared.all.TheConstants.{MAX_WORKERS};

use crate::checking::{check_link, check_unheld};
use crate::{Checked, CheckedList, LinkLines};
use ports::NoMemory;
use record_fields::Bytes;
use shop_core::State;
use std::alloc::Global;
use std::thread::{Threads, map_chunks};

/// The most workers. The limit is this project's own.
pub const MAX_WORKERS: u8 = 16;

/// The answer of each line, in order. The lines are cut into at most as many pieces as there are workers, 1 to 16, each
/// worked in a thread of its own where one can be made.
pub fn check_all<R: Threads + Sync>(
    rt: &R,
    alloc: Global,
    state: &State,
    lines: &LinkLines,
    workers: u8,
) -> Result<CheckedList, NoMemory>
    requires { IsInRange 1 MAX_WORKERS workers }
    //= Each line has its answer, in order, for every number of workers from 1 to 16.
    ensures { IfOk result (AreChecked (begun state.now.issuer state.now.entries) lines.now) }
{
    let size = lines.len().div_ceil(usize::from(workers)).max(1);
    let check = move |_start: usize, piece: &[Bytes]| -> Result<Vec<Checked>, NoMemory>
        ensures { IfOk result (λ answers. AreChecked (begun state.entry.now.issuer state.entry.now.entries) piece.entry.now
            answers.items) }
    { check_piece(alloc, state, piece) };
    let pieces = map_chunks(rt, alloc, lines.as_slice(), size, &check)?;
    joined(alloc, &pieces)
}

/// The same where the file isn't begun, and so has no issuer: each readable link is unknown.
pub fn check_unbegun(alloc: Global, lines: &LinkLines) -> Result<CheckedList, NoMemory>
    //= Where there is no chain each readable link is unknown.
    //= No body: it is `check_link` of a history that isn't begun
    ensures { IfOk result (AreChecked not_begun lines.now) }
{
    let mut answers = Vec::new(alloc);
    for line in lines.as_slice() {
        let answer = check_unheld(alloc, line.as_slice())?;
        answers.push(answer)?;
    }
    Ok(CheckedList::of(answers))
}

// The answers of a piece of the lines, in order.
fn check_piece(alloc: Global, state: &State, piece: &[Bytes]) -> Result<Vec<Checked>, NoMemory>
    ensures { IfOk result (λ answers. AreChecked (begun state.now.issuer state.now.entries) piece.now answers.items) }
{
    let mut answers = Vec::new(alloc);
    for line in piece {
        let answer = check_link(alloc, state, line.as_slice())?;
        answers.push(answer)?;
    }
    Ok(answers)
}

// The answers of all pieces, in order, where each has them.
fn joined(alloc: Global, pieces: &[Result<Vec<Checked>, NoMemory>]) -> Result<CheckedList, NoMemory>
    ensures each { IfOk result (λ answers. All (λ p. IsOk p) pieces.now) }
    ensures all { IfOk result (λ answers. answers ≡ flat_map answers_in pieces.now) }
{
    let mut answers = Vec::new(alloc);
    for piece in pieces {
        match piece {
            Ok(more) => answers.extend_from_slice(more)?,
            Err(_) => return Err(NoMemory),
        }
    }
    Ok(CheckedList::of(answers))
}
