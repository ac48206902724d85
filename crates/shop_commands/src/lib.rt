//! The commands that write a shop's file, or a copy of it: each a whole run from its source to its sink, by what an
//! opened shop does (`shop_drain`, `shop_day`, `shop_dialogue`), and by one spec that says how it ends.
//!
//! - `chain`: the command `chain`: reads a script, opens the file, runs the commands on its history, and prints the
//!   replies and the chain
//! - `day`: the command `day`: reads a script, opens the file, begins the agency's session, runs the script's tills at
//!   the same time on the history that the file holds with a sender for them, drains, and prints what each till was
//!   told and the chain
//! - `drain`: the command `drain`: reads a script without commands, opens the file, sends the records that wait to the
//!   agency, and prints a line a turn and the chain line
//! - `follow`: the command `follow`: brings a copy on a second file up to the first one
//! - `guard`: the command `guard`: as `drain`, and each line is noted in a copy of the file too
//! - `migrate`: the command `migrate`: moves a file of version One to a second one, of version Two
//! - `outside`: all that a run works on
//! - `serve`: the command `serve`: opens the file, begins the agency's session, and answers the lines of the source one
//!   by one, with a sender at the same time, until the source ends
//!
//! One spec a command says how it ends (`Chain`, `Day`, `Serve`, `Drain`, `Migrate`, `Follow`, `Guard`); `SenderEnds`
//! says how a day's end hangs on its sender's, `Further` what a run has besides its first file. `take_further` and
//! `put_further` of `outside` take the one further post out of an outside and put it back. Whether a clock line
//! replaces clock and sleeper is a matter of one function a command (`day_script`, `serve_first`).
//!
//! Left to others: what commands share (`command_ends`), and the words of the command line (`verifactu`).
#![tactic(auto)]

mod chain;
mod day;
mod drain;
mod follow;
mod guard;
mod migrate;
mod outside;
mod serve;

pub use chain::chain_cmd;
pub use day::day_cmd;
pub use drain::drain_cmd;
pub use follow::follow_cmd;
pub use guard::guard_cmd;
pub use migrate::migrate_cmd;
pub use outside::{Outside, put_further, take_further};
pub use serve::serve_cmd;
