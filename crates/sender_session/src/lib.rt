//! A session of one sender with an agency: its turns, one after another, until it is told to stop, over whatever outbox
//! it sends from. The definitions say what turns leave of shop and agency: what was said and noted, line by line, what
//! a failed disk may have torn, and when the messages contradict themselves. The crates above send so from a drained
//! shop (`shop_drain`) and while tills work (`sender_beside`).
//!
//! - `means`: what a command works by
//! - `sending`: the turns of a sender, one after another, until it is told to stop
//!
//! Nothing in it names a shop, so that drains and days share it. `Steps` says the turns of a drain line by line,
//! `Noting` the lines that messages say, `Contradictions` when they contradict themselves, and `Session` what turns
//! leave of shop and agency (`SendsOn`: of the shop, of the messages, and how they end) and how a drain gives up;
//! `Sessions` says a whole session by its steps, while others add to the shop; `Kinds` is what contracts say of
//! devices. One turn's step is proved in `proofs/Standing`, for both. `proofs/Lists` and `Places` are lemmas on lists
//! that the crates above it cite.
#![tactic(auto)]

mod means;
mod sending;

pub use means::Means;
pub use sending::send_until;
