//! A copy of a shop's file on a second disk. A `Standby` keeps a front of the shop's history: it takes `Piece`s of it,
//! in whatever order and number they come, and adds those that are the next ones. Promoted, it is the store of its
//! history. A `Pair` is a store and its standby, which note together.
//!
//! - `arriving`: what arrives at a standby
//! - `catching`: brings a copy up to the history that it is a front of
//! - `causes`: why a standby can't start
//! - `pair`: a store and its standby, which note together
//! - `pieces`: pieces of a history
//! - `standby`: a copy of a shop's file on a second disk
//!
//! Specs: `Chains` is a history on its disk and what calls lead to (`GoesTo`), `Arriving` what each answer says,
//! `Following` the headline, `Pairs` what both hold.
//!
//! Left to others: the script and the printing (`shop_commands`).
#![tactic(auto)]

mod arriving;
mod catching;
mod causes;
mod pair;
mod pieces;
mod standby;

pub use arriving::Arrived;
pub use catching::{catch_up, first_apart};
pub use causes::StandbyCause;
pub use pair::{Pair, PairMark};
pub use pieces::{Piece, piece_of};
pub use standby::{Standby, StandbyFault};
