//! The answer to an ask, and the entry that it makes, in memory.
ghost use Rattle.std.specs.Prelude.{◌≡◌, ◌++◌, ◌∷◌, [], IfOk, OnErr, None, true};
ghost use Rattle.shop_core.specs.History as history;
ghost use Rattle.shop_core.specs.Legal.{Continues};
ghost use Rattle.shop_core.specs.Answer.Replies.{IsTaken, IsTakenAt, Replied};

use crate::{Ask, Planned, Receipt, Reply, State, plan};
use ports::NoMemory;
use record_codec::Entry;
use std::alloc::Global;

/// Answers an ask with the clock at these seconds since 1970, and adds the entry that it makes. Lack of memory leaves
/// issuer, version and history as they were.
pub fn reply_to(
    alloc: Global,
    state: &mut State,
    ask: &Ask,
    seconds: u64,
) -> Result<Reply, NoMemory>
    //= A reply appends what was taken, exactly that; out of memory leaves the history as it was.
    //= No body: it is `plan` and `State::apply`
    ensures { Replied state.old state.new ask.now seconds result }
{
    match plan(alloc, state, ask, seconds)? {
        Planned::Again(receipt) => Ok(Reply::Again(receipt)),
        Planned::Refused(why) => Ok(Reply::Refused(why)),
        Planned::Made(entry) => append_made(state, entry),
    }
}

fn append_made(state: &mut State, entry: Entry) -> Result<Reply, NoMemory>
    requires continues { Continues state.old.version state.old.issuer state.old.entries entry }
    requires of_record { history.is_record entry ≡ true }
    ensures ok { IfOk result (λ reply. IsTaken state.old.entries entry reply
        × (state.new ≡ record {
          issuer = state.old.issuer;
          version = state.old.version;
          entries = state.old.entries ++ entry ∷ [];
          room = None;
        })) }
    ensures err { OnErr result (state.new ≡ state.old) }
{
    let reply = taken(state.records() + 1, &entry);
    state.reserve(&entry)?;
    state.apply(entry);
    Ok(reply)
}

/// What a till is told of the record that was made for it, at its place.
pub fn taken(place: u32, entry: &Entry) -> Reply
    requires of_record { history.is_record entry.now ≡ true }
    ensures { IsTakenAt place entry.now result }
{
    match entry {
        Entry::Rec { sealed, .. } => Reply::Taken(Receipt::of(place, sealed)),
        Entry::Notes { .. } => unreachable!(),
    }
}
