//! A shop of many tills over one chain. `Shop::start` takes a store and gives the shop, a till for each number and the
//! seat of the one sender. Each till asks in turns, in a thread of its own or not. `Shop::close` takes all of them back
//! and gives the store.
//!
//! An ask may wait for other tills' turns, and no order among those who wait is promised. It is answered at a history
//! that goes on from all that its till has seen. A fault of the disk stops the shop: the call that meets it records the
//! stop as the last item, and each later one is told of it. A shop without a clock of its own (`Clockless`) is asked at
//! a reading that whoever asks gives (`ask_at`).
//!
//! A till may also look: its `Question` is answered at such a history too, which the till has then seen. Nothing is
//! added, and a shop that has stopped still answers.
//!
//! - `client`: a till's requests, one after another
//! - `clockless`: the clock of a shop that has none
//! - `kept`: the value under a shop's lock
//! - `laws`: what holds of runs alone
//! - `questions`: questions on a shop's history
//! - `root`: what no turn changes
//! - `seat`: the sender's seat as an outbox
//! - `shop`: a shop: its start, its tills' asks, and its end
//! - `tills`: the tills of a shop, and the seat of its sender
//! - `turns`: what a turn does
//!
//! `kept` is what the lock guards, the store and how it was at the start; `Sound` is its invariant, what holds whenever
//! no turn is under way. A question is the caller's own type (`questions`); `Seen` says what a till sees on to between
//! its asks. The emptied passes stand in `Tills`, not in `Shop`: a seat isn't `Sync`. `Send` of a till and `Sync` of a
//! shop: `proofs/Sent.antt`.
//!
//! Left to others: the rule of the lock (`chain_lock`), the keeping of entries (`chain_store`), and the sender's turns
//! (`sender`).
#![tactic(auto)]

mod client;
mod clockless;
mod kept;
mod laws;
mod questions;
mod root;
mod seat;
mod shop;
mod tills;
mod turns;

pub use client::serve;
pub use clockless::Clockless;
pub use kept::Kept;
pub use laws::{
    a_list_fits_what_was_known_before, a_run_is_told_at_the_end, a_till_adds_for_no_other,
    a_till_adds_what_is_taken, a_till_owns_records_and_stops, a_till_owns_within_what_it_knows,
    an_ask_goes_on_from_what_was_known_before, who_sees_on_twice_sees_on,
};
pub use questions::Question;
pub use root::ShopRoot;
pub use seat::{SeatBox, SeatMark};
pub use shop::{Shop, StartRefused, Started};
pub use tills::{SenderSeat, Till, Tills};
