//! Opens a shop's file: a sync, so that nothing is pending, then what the file stands for, or its creation. And moves
//! the history of a file of version One to a second disk, in version Two.
//!
//! - `moving`: moves the history of a file of version One to a second disk, in version Two
//! - `opening`: opens a file for an issuer
//! - `rewriting`: writes a history in version Two, frame by frame, into a file that is held shut
//!
//! Left to others: the opening of a file's history and journal (`chain_store`), the writing of bytes (`journal`), and
//! copies (`standby`).
#![tactic(auto)]

mod moving;
mod opening;
mod rewriting;

pub use moving::{
    MoveCause, MoveFault, Moved, a_migration_has_one_cause, migrate, migrate_counted,
};
pub use opening::{OpenFault, open_store};
