//! Brings a copy up to the history that it is a front of.
ghost use Rattle.std.specs.Prelude.{◌≡◌, ◌<◌, length, slice_get, IfOk, IfNone, IfSome, MatchBool, None};
ghost use Rattle.shop_core.specs.Prefix.{IsPrefix};
ghost use Rattle.shop_core.specs.declared.limits.TheConstants.{MAX_ENTRIES};
ghost use Rattle.standby.specs.Catching.{CatchesOne, CatchesUp, IsFirstApart};
ghost use Rattle.standby.specs.Chains.{GoesTo, IsAppended, IsSoundChain};
ghost use Rattle.standby.specs.Following.{IsFollowing};
ghost use Rattle.standby.specs.Pieces.{IsPieceOf};

use crate::pieces::{Piece, piece_of};
use crate::standby::Standby;
use chain_disk::Disk;
use journal::StoreFault;
use ports::NoMemory;
use record_codec::encodings_are_apart;
use shop_core::{State, a_file_has_one_meaning};
use std::alloc::Global;

// Whether two pieces have one body.
fn have_one_body(piece: &Piece, other: &Piece) -> bool
    ensures { MatchBool result (piece.now.body ≡ other.now.body) (piece.now.body ≡ other.now.body → ⊥) }
{
    piece.body.as_slice() == other.body.as_slice()
}

// Whether a piece is of this history.
fn is_of(alloc: Global, state: &State, piece: &Piece) -> Result<bool, NoMemory>
    ensures { IfOk result (λ is. MatchBool is (IsPieceOf state.now.version state.now.issuer state.now.entries piece.now)
        (IsPieceOf state.now.version state.now.issuer state.now.entries piece.now → ⊥)) }
{
    match piece_of(alloc, state, piece.index)? {
        Some(own) => Ok(have_one_body(&own, piece)),
        None => Ok(false),
    }
}

// Whether a history has at this index what its copy has.
fn is_shared(alloc: Global, state: &State, copy: &State, index: u64) -> Result<bool, NoMemory>
    requires within { index < length copy.now.entries }
    requires same { (copy.now.issuer ≡ state.now.issuer) × (copy.now.version ≡ state.now.version) }
    ensures { IfOk result (λ same. MatchBool same (slice_get copy.now.entries index ≡ slice_get state.now.entries index)
        (slice_get copy.now.entries index ≡ slice_get state.now.entries index → ⊥)) }
{
    encodings_are_apart();
    let Some(piece) = piece_of(alloc, copy, index)? else {
        unreachable!()
    };
    is_of(alloc, state, &piece)
}

/// The first index, from 0, at which a copy has an entry that isn't the history's; None exactly where the copy is a front of it.
pub fn first_apart(alloc: Global, state: &State, copy: &State) -> Result<Option<u64>, NoMemory>
    requires { (copy.now.issuer ≡ state.now.issuer) × (copy.now.version ≡ state.now.version) }
    ensures none { IfOk result (λ found. IfNone found (IsPrefix copy.now.entries state.now.entries)) }
    //= The first entry of a copy that isn't the history's is named.
    //= No body: its loop ends at the first that differs
    ensures some { IfOk result (λ found. IfSome found (IsFirstApart state.now.entries copy.now.entries)) }
    ensures few { IfOk result (λ found. IfSome found (λ at. at < MAX_ENTRIES)) }
{
    for index in 0..copy.entries() {
        let same = is_shared(alloc, state, copy, index)?;
        if !same {
            return Ok(Some(index));
        }
    }
    Ok(None)
}

// Lets the next piece arrive at a standby whose history is a front of this one.
fn catch_one<D: Disk>(
    alloc: Global,
    state: &State,
    standby: &mut Standby<D>,
    index: u64,
) -> Result<(), StoreFault>
    requires index { (index ≡ length standby.old.history.entries) × (index < length state.now.entries) }
    requires issuer { standby.old.history.issuer ≡ state.now.issuer }
    requires version { standby.old.history.version ≡ state.now.version }
    requires front { IsPrefix standby.old.history.entries state.now.entries }
    requires going_on { standby.old.stopped ≡ None }
    ensures sound { IsSoundChain D.tells D.on_disk D.faults standby.new }
    ensures goes { GoesTo D.tells D.on_disk D.faults standby.old standby.new }
    ensures follows { IsFollowing D.tells D.on_disk standby.old standby.new state.now.entries }
    ensures caught { CatchesOne D.faults standby.old standby.new result }
{
    a_file_has_one_meaning();
    encodings_are_apart();
    state.is_legal();
    let Ok(found) = piece_of(alloc, state, index) else {
        standby.is_sound();
        return Err(StoreFault::NoMemory);
    };
    let Some(piece) = found else { unreachable!() };
    // Of a legal history the next piece is kept, unless memory or the disk fails.
    match standby.arrive(alloc, &piece) {
        Ok(_) => Ok(()),
        Err(fault) => Err(fault),
    }
}

/// Brings a standby whose history is a front of this one up to it, piece by piece, and says how many were kept. What needs
/// memory for a piece is done before the first call of the disk for it.
pub fn catch_up<D: Disk>(
    alloc: Global,
    state: &State,
    standby: &mut Standby<D>,
) -> Result<u64, StoreFault>
    requires issuer { standby.old.history.issuer ≡ state.now.issuer }
    requires version { standby.old.history.version ≡ state.now.version }
    requires front { IsPrefix standby.old.history.entries state.now.entries }
    requires going_on { standby.old.stopped ≡ None }
    //= With Ok a copy's history is the whole one, and each crash in the call leaves a front of it.
    //= No body: it is `receive` of the pieces that the copy lacks
    ensures caught { CatchesUp D.faults standby.old standby.new state.now.entries result }
    ensures sound { IsSoundChain D.tells D.on_disk D.faults standby.new }
    ensures goes { GoesTo D.tells D.on_disk D.faults standby.old standby.new }

    // The bytes before its closing gate at the start stay, in the copy and in each file that a crash leaves.
    ensures appended { IsAppended D.tells D.on_disk standby.old standby.new }

    // It stays a front of that history, and so does each file that a crash may leave.
    ensures follows { IsFollowing D.tells D.on_disk standby.old standby.new state.now.entries }
{
    a_file_has_one_meaning();
    state.is_legal();
    standby.is_sound();
    let held = standby.state().entries();
    for index in held..state.entries() {
        match catch_one(alloc, state, standby, index) {
            Ok(()) => {}
            Err(fault) => return Err(fault),
        }
    }
    Ok(state.entries() - held)
}
