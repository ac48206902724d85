//! The sender at the same time as the tills of a shop: it sends in a thread of its own while they work, and drains once
//! they have ended. The definitions say what tills and sender together make of a shop, by its history at the end. A day
//! of many tills (`shop_day`) and a dialogue (`shop_dialogue`) are such work.
//!
//! - `beside`: the tills of a shop and their sender, at the same time
//! - `sending`: a day's sender: its turns at the same time as the tills, and its drain after them
//!
//! Specs: `Days` is the record of a day, `Tills` a till's run and what a day makes of a shop, `Works` what tills do
//! while they run, `Beside` what the sender leaves of its agency, `Behind` what it does once the tills have ended. A
//! dialogue is such a day too.
//!
//! Left to others: opening and closing a file (`shop_drain`), and what the tills do (`shop_day`, `shop_dialogue`).
#![tactic(auto)]

mod beside;
mod sending;

pub use beside::with_sender;
pub use sending::{Sent, drain_if, drain_rest};
