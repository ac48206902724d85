//! The shop's commands, and the one call that runs them: `run` reads the words of a command line and does all that the
//! program does, over whatever source, sink, disk, clock, sleeper, agency and gate it is handed. `main` (crate
//! `program`) hands it the real ones and a practice agency; whoever has an adapter to the real service hands in that.
//!
//! - `command_line`: the words of the command line
//! - `help`: what `--help` and `--version` print
//! - `helps`: what the help of each command prints
//! - `installation`: the run of several issuers: the first one's post is the outside's own, and those of the others are
//!   the further ones
//! - `laws`: what the promise of a run comes to
//! - `nifs`: a few tax numbers, in order
//! - `pairs`: pairs of words
//! - `running`: the program: one call does all that it does
//! - `topics`: the commands that have a help of their own
//!
//! `Promise` is the headline, over a file for each of its parts: `ChainPromise`, `TillPromise`, `AgencyPromise`,
//! `FilePromise` over these three, and `FurtherPromise`. `Running` says how each command ends, and `proofs/Promising`
//! takes the one to the other; `Stopping` is what follows from a day's stop. `Pairs` says which words of `many` are a
//! file and a tax number each, and `nifs` keeps those numbers. The commands that call nobody are in `file_commands`.
//!
//! Left to others: the real devices (`program`), and what each command does (`shop_commands`, `file_commands`,
//! `many_issuers`).
#![tactic(auto)]

mod command_line;
mod help;
mod helps;
mod installation;
mod laws;
mod nifs;
mod pairs;
mod running;
mod topics;

pub use command_line::{asks_to_send, posts_needed};
pub use file_commands::generate_cmd;
pub use laws::{
    a_copy_is_append_only, a_day_stops_once, a_strange_file_is_not_own,
    what_a_run_left_is_found_again, what_was_handed_over_stays_of_the_chain,
    words_ask_for_one_command,
};
pub use many_issuers::many_cmd;
pub use running::run;
pub use shop_commands::{
    Outside, chain_cmd, day_cmd, drain_cmd, follow_cmd, guard_cmd, migrate_cmd, serve_cmd,
};
pub use shop_drain::{Post, Posts};
