//! Sends a shop's records to the tax agency and notes what it answers, turn by turn. A sender that isn't sure what came
//! of its last batch consults first, and hands a record over again only where the agency says that it hasn't seen it.
//! So an agency that keeps its rules registers each record once, whatever was lost, late or repeated. A caller has to
//! know first: all turns of a sender are with one agency in one session, and a new session wants a new sender.
//!
//! - `answers`: what a turn answers
//! - `draining`: turns until no record waits
//! - `evidence`: what a consultation shows, and the last reply that named its batch
//! - `laws`: what holds of every sender's turns
//! - `sending`: the sender of one chain
//!
//! `Turning` is one turn by cases, over the record of its call, `TurnCalls` what it keeps and tells, `Agreeing` the
//! session, agreement, what is kept and added, `Dark` what was handed over in the dark, `Draining` many turns,
//! `DrainCalls` what a drain keeps and tells, over the record of its call. Proofs are lemmas over plain records,
//! without generics: `Keeping` (agreement), `Careful` over `Darkness` (no blind repeat), `Bound` over `Standing` (the
//! measure: rested 2b+2, waited 2b+1, in doubt 2b+3, sure 2b+1; a link fault gives 3), `Telling`, `Replying`, `Adding`.
//!
//! Left to others: the shop, which is any `Outbox` (`once_world`), and how many turns there are beside a drain
//! (`sender_session`).
#![tactic(auto)]

mod answers;
mod draining;
mod evidence;
mod laws;
mod sending;

pub use answers::{DrainFault, SendFault, Turn};
pub use draining::MAX_LINK_FAULTS;
pub use laws::{a_drain_keeps_time, a_session_begins, nothing_goes_blindly};
pub use sending::Sender;
