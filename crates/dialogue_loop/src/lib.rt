//! A dialogue with the tills of a shop: one thread holds them all, asks them line by line, and answers each line at
//! once.
//!
//! - `held`: all tills of a shop, held by one thread, the last one first
//! - `listener`: lines that are read, one by one, and what each asks for
//! - `speaking`: a dialogue with the tills of a shop, on one thread
//!
//! `InARow` says what tills in a row ran, `Looked` at which histories questions were answered, `Speech` what was said,
//! asked and written up to an end, and which end. `answer_lines` begins with a first line that was read ahead
//! (`first_action`): a caller may look at it, and take another clock, before the shop begins.
//!
//! Left to others: what a line means and is answered (`script`, `questions`, `dialogue`), and the sender
//! (`shop_dialogue`).
#![tactic(auto)]

mod held;
mod listener;
mod speaking;

pub use held::{all_numbers, give_back, hold_all};
pub use listener::Listener;
pub use speaking::{SpeechEnd, SpeechMeans, SpeechState, answer, answer_lines};
