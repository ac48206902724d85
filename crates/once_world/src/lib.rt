//! The world of a shop and its agency, event by event: what is sent, lost, repeated, late or torn, and that each record
//! is processed once all the same. No file, thread or network is in it. A caller meets two things first: `Outbox`, a
//! shop as its sender sees it, which only grows from call to call; and the laws, functions with an empty body whose
//! contract is the law.
//!
//! - `events`: what may happen to a shop and its agency
//! - `laws`: what holds of every shop and agency that agree, and of every world of theirs
//! - `looks`: what the agency says of records, one after another
//! - `outbox`: what the sender sees of a shop, and how it notes
//! - `plain`: a shop in memory alone, as its sender sees it
//! - `world`: the world of a shop and its agency, event by event
//!
//! `World` is a small definition an event and their fold over plain lists; `Agreement` says when a history and an
//! agency agree; `Looks`, `Laws`, `Outbox`. The theorem is `every_world_is_sound` (`docs/PROVED.md`, Once only).
//! - Each batch that was sent is a run of the chain that begins no later than just past what was processed, and ends at
//!   most 1000 past what was noted. That is why an old batch that comes late, or twice, can neither add a record out of
//!   order nor leave a gap.
//! - No alta of a sale is refused because the register says otherwise: its number is new in the chain, so that nothing
//!   of its invoice was processed before.
//! - Agreement holds by induction, one lemma an event (`proofs/Worlds.antt`); of a delivery it stands on two facts of a
//!   legal history alone, that Huellas differ and that the number of a sale is new. Whether the shop is up, in doubt or
//!   has learnt something plays no part in it; these marks only say which events have an effect.
//! - The sender above doesn't build a list of events: it shares the definitions, and its turns go by the laws on
//!   agreement one by one.
//!
//! Left to others: what a sender does when (`sender`), and the shops of a program (`till_calls`, `standby`).
#![tactic(auto)]

mod events;
mod laws;
mod looks;
mod outbox;
mod plain;
mod world;

pub use events::Event;
pub use laws::{
    agreement_is_kept, answers_are_next, every_world_is_sound, no_sale_is_refused,
    what_came_beside_is_records, what_came_is_seen,
};
pub use outbox::Outbox;
pub use plain::PlainOutbox;
pub use world::{World, run_events};
