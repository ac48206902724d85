//! Several issuers in one installation, each with a store of its own: what its tills are told depends on its own
//! history, clock and asks alone.
//!
//! - `answers`: the answers of an office
//! - `laws`: what holds of every installation
//! - `next`: whose turn is next
//! - `office`: several stores, one an issuer
//! - `parts`: what a script says for each issuer
//! - `reading`: a script for several issuers
//!
//! `Reading` says what an issuer's part of a script is (the input with the lines of the others' sections made empty, so
//! that lines keep their numbers) and which fault is told; `Turns` the order in which asks are taken; `Serving` what
//! each issuer is answered, `Worlds` the law on two installations.
//!
//! Left to others: files and agencies (`many_issuers`).
#![tactic(auto)]

mod answers;
mod laws;
mod next;
mod office;
mod parts;
mod reading;

pub use answers::{OfficeAnswer, OfficeAnswers};
pub use laws::an_issuer_has_its_own_world;
pub use office::{Office, Stores, are_distinct};
pub use parts::{Part, Parts};
pub use reading::read_many;
pub use script::LineNumbers;
