//! The answers of scanned links, worked in pieces at the same time.
ghost use Rattle.std.specs.Prelude.{◌≡◌, IfOk, IsOk, All, flat_map};
ghost use Rattle.std.specs.Int.{IsInRange};
ghost use Rattle.link_check.specs.Checking.Chain.{begun};
ghost use Rattle.link_check.specs.declared.all.TheConstants.{MAX_WORKERS};
ghost use Rattle.file_commands.specs.Answering.{AreAnswered, text_in};
ghost use Rattle.file_commands.specs.Lines.{lines_of};

use crate::lines::{cut, next_line};
use link_check::{CheckedList, check_link, checks_text};
use ports::NoMemory;
use record_fields::Text;
use shop_core::State;
use std::alloc::Global;
use std::thread::{Threads, map_vec};

/// The answers of the lines of these bytes, as they are printed. The bytes are cut after lines' ends, into at most as many
/// pieces as there are workers, each worked in a thread of its own where one can be made.
pub(crate) fn answered<R: Threads + Sync>(
    rt: &R,
    alloc: Global,
    workers: u8,
    bytes: &[u8],
    state: &State,
) -> Result<Text, NoMemory>
    requires { IsInRange 1 MAX_WORKERS workers }
    ensures { IfOk result (AreAnswered (begun state.now.issuer state.now.entries) (lines_of bytes.now)) }
{
    let pieces = cut(alloc, bytes, usize::from(workers))?;
    let answer = move |piece: &[u8]| -> Result<Text, NoMemory>
        ensures { IfOk result (AreAnswered (begun state.entry.now.issuer state.entry.now.entries) (lines_of piece.entry.now)) }
    { answer_piece(alloc, state, piece) };
    let texts = map_vec(rt, pieces, &answer)?;
    joined(alloc, &texts)
}

// The answers of the lines of a piece, as they are printed.
fn answer_piece(alloc: Global, state: &State, piece: &[u8]) -> Result<Text, NoMemory>
    ensures { IfOk result (AreAnswered (begun state.now.issuer state.now.entries) (lines_of piece.now)) }
{
    let mut answers = Vec::new(alloc);
    let mut rest = piece;
    while let Some((line, after)) = next_line(rest) {
        let answer = check_link(alloc, state, line)?;
        answers.push(answer)?;
        rest = after;
    }
    checks_text(alloc, &CheckedList::of(answers))
}

// All the texts, one after the other, where each is there.
fn joined(alloc: Global, texts: &[Result<Text, NoMemory>]) -> Result<Text, NoMemory>
    ensures each { IfOk result (λ text. All (λ t. IsOk t) texts.now) }
    ensures all { IfOk result (λ text. text ≡ flat_map text_in texts.now) }
{
    let mut all = Vec::new(alloc);
    for text in texts {
        match text {
            Ok(text) => all.extend_from_slice(text.as_slice())?,
            Err(_) => return Err(NoMemory),
        }
    }
    Ok(Text::of(all))
}
