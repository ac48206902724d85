//! Pieces of a history.
ghost use Rattle.std.specs.Prelude.{◌≡◌, ◌≤◌, length, IfOk, IfNone, IfSome};
ghost use Rattle.standby.specs.Pieces.{IsPieceOf};

use ports::NoMemory;
use record_codec::{encode, fields_are_valid};
use record_fields::Bytes;
use shop_core::{State, what_continues_fits_its_bytes};
use std::alloc::Global;

/// An entry by itself, as a standby is told it: its index in the history, from 0, and its bytes.
#[derive(Drop)]
pub struct Piece {
    pub index: u64,
    pub body: Bytes,
}

/// The piece of the entry at this index; None exactly past the end.
pub fn piece_of(alloc: Global, state: &State, index: u64) -> Result<Option<Piece>, NoMemory>
    ensures none { IfOk result (λ found. IfNone found (length state.now.entries ≤ index)) }
    //= A piece is the encoding, at the history's version, of the entry at its index.
    //= No body: it is `encode`
    ensures some { IfOk result (λ found. IfSome found (λ piece. (piece.index ≡ index)
        × IsPieceOf state.now.version state.now.issuer state.now.entries piece)) }
{
    what_continues_fits_its_bytes();
    state.is_legal();
    match state.entry(alloc, index)? {
        None => Ok(None),
        Some(entry) => {
            let version = state.version();
            fields_are_valid(version, &entry);
            let body = encode(alloc, version, &entry)?;
            Ok(Some(Piece { index, body }))
        }
    }
}
