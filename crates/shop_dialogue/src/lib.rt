//! A dialogue with the tills of a shop: one thread holds them all and answers line by line, and a sender sends at the
//! same time; once the dialogue has ended it drains, and the shop is closed.
//!
//! - `running`: a dialogue with the tills of a shop, and a sender at the same time
//!
//! Specs: `Dialogues` says what was said.
//!
//! Left to others: what each line is answered (`dialogue_loop`), opening and closing (`shop_drain`).
#![tactic(auto)]

mod running;

pub use running::{DialogueDone, run_dialogue};
