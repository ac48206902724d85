//! What arrives at a standby.
ghost use Rattle.std.specs.Prelude.{◌≡◌, ◌≤◌, IfOk};
ghost use Rattle.standby.specs.Arriving as spec;
ghost use Rattle.standby.specs.Arriving.{IsLooked};

use crate::pieces::Piece;
use ports::NoMemory;
use record_codec::{BadEntry, Entry, decode};
use shop_core::{Break, State, next_fault};
use std::alloc::Global;

/// What became of a piece.
#[derive(Clone, Copy, Debug, PartialEq, Eq)]
pub enum Arrived {
    /// Its entry is the history's last now, and stands on the disk.
    Kept,
    /// The history has an entry at its index already.
    Old,
    /// It comes too early: the entry of this index is the next one.
    Gap { next: u64 },
    /// Its bytes are no entry.
    Bad(BadEntry),
    /// Its entry doesn't continue the history.
    Foreign(Break),
}

// One for a kept piece.
pub(crate) fn kept_by(told: Arrived) -> u64
    ensures value { result ≡ spec.kept_by told }
    ensures most { result ≤ 1 }
{
    match told {
        Arrived::Kept => 1,
        _ => 0,
    }
}

// What a piece is to a history.
#[derive(Drop)]
pub(crate) enum Looked {
    Old,
    Gap { next: u64 },
    Bad { at: usize },
    Foreign(Break),
    Next(Entry),
}

// Looks at a piece. It changes nothing.
pub(crate) fn look(alloc: Global, state: &State, piece: &Piece) -> Result<Looked, NoMemory>
    ensures { IfOk result (λ looked. IsLooked state.now.version state.now.issuer state.now.entries piece.now looked) }
{
    let next = state.entries();
    if piece.index < next {
        return Ok(Looked::Old);
    }
    if piece.index > next {
        return Ok(Looked::Gap { next });
    }
    match decode(
        alloc,
        state.version(),
        state.issuer(),
        piece.body.as_slice(),
    ) {
        Err(BadEntry::NoMemory) => Err(NoMemory),
        Err(BadEntry::At { at }) => Ok(Looked::Bad { at }),
        Ok(entry) => match next_fault(alloc, state, &entry)? {
            Some(why) => Ok(Looked::Foreign(why)),
            None => Ok(Looked::Next(entry)),
        },
    }
}
