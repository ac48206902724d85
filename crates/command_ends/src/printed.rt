//! What is printed of a run.
ghost use Rattle.std.specs.Prelude.{◌≡◌, ◌++◌, IfOk};
ghost use Rattle.command_ends.specs.Printed as spec;

use journal::StoreFault;
use ports::NoMemory;
use record_fields::Text;
use report::{AnswerLine, Answers, answers_text, listing_text};
use shop_core::{Ask, Reply, State};
use std::alloc::Global;

/// The text of a run, in two parts.
#[derive(Drop)]
pub struct RunText {
    pub answers: Text,
    pub listing: Text,
}

/// The text of these replies and of the history that they left.
pub fn told_of(
    alloc: Global,
    asks: &[Ask],
    replies: &[Result<Reply, StoreFault>],
    state: &State,
) -> Result<RunText, NoMemory>
    //= What is printed of a run is its answers in line order, the listing and the chain line.
    ensures { IfOk result (λ told. told.answers ++ told.listing ≡ spec.printed asks.now replies.now state.now.entries) }
{
    let lines = answers_of(alloc, asks, replies)?;
    let answers = answers_text(alloc, &lines)?;
    let listing = listing_text(alloc, state)?;
    Ok(RunText { answers, listing })
}

fn line_of(ask: &Ask, reply: &Result<Reply, StoreFault>) -> AnswerLine
    ensures { result ≡ spec.answered (ask.now, reply.now) }
{
    AnswerLine::Answered {
        till: ask.till,
        serial: ask.serial,
        reply: *reply,
    }
}

// A line for each ask with its reply, in order.
fn answers_of(
    alloc: Global,
    asks: &[Ask],
    replies: &[Result<Reply, StoreFault>],
) -> Result<Answers, NoMemory>
    ensures { IfOk result (λ answers. answers ≡ spec.answers asks.now replies.now) }
{
    let mut lines = Vec::new(alloc);
    let mut asked = asks;
    let mut told = replies;
    while let [ask, more_asked @ ..] = asked {
        let [reply, more_told @ ..] = told else {
            return Ok(Answers::of(lines));
        };
        lines.extend_from_slice(&[line_of(ask, reply)])?;
        asked = more_asked;
        told = more_told;
    }
    Ok(Answers::of(lines))
}
