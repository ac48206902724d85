//! A lock over one value that records items in a list which only grows. Each pass knows a beginning of that list.
//!
//! `docs/LOCK.md` has the rule: the steps on the lock's two words and one slot, and what holds between any two of them.
//!
//! - `act`: the value that a lock holds, and what a turn does to it
//! - `close`: the end of a lock: one pass that has all numbers gives the value back
//! - `laws`: what holds of passes alone
//! - `lock`: the lock: turns, one at a time, and glances, which wait for none
//! - `open`: the start of a lock: a value goes in, and passes come out
//! - `pass`: a right to take turns, and the passes that are not out
//! - `plays`: what each step on the table tells
//! - `view`: what the table knows of a pass, and the rule of the table
//!
//! The rule is `specs/Rule.antt`, kept by `proofs/Keeps.antt`; the words of its public clauses are in
//! `specs/Known.antt` and `specs/Words.antt`. `Recorded` and `Act` are what an upper crate implements. `Pass` and
//! `Passes` are `Send` where the value is, but never shared: keep the emptied `Passes` out of a struct that threads
//! share. `inform` splits a note (a view without numbers) off one pass and joins it into another.
//!
//! Left to others: what the value and its items are (`till_calls`).
#![tactic(auto)]

mod act;
mod close;
mod laws;
mod lock;
mod open;
mod pass;
mod plays;
mod view;

pub use act::{Act, Recorded};
pub use laws::who_sees_all_that_is_owned_sees_all;
pub use lock::ChainLock;
pub use pass::{Pass, Passes, Refused};
