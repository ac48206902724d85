//! A shop's history on disk: what a file is loaded as, and the store that answers asks and keeps each entry in its
//! journal. A store works at a file with nothing pending: sync it, load it and begin it first, as `recovery` does.
//!
//! - `causes`: why a file can't be loaded, and why it can't be opened
//! - `keeping`: keeps an entry in a journal and then in the state, in two halves: what needs memory, and what calls the
//!   disk
//! - `loading`: the history that a file stands for
//! - `opening`: opens a file for an issuer: its history and its journal
//! - `runs`: runs of one thread over a store: the asks of all tills, one after another, and what their replies leave
//! - `store`: a history on disk: the state, the journal that keeps it, and the clock that dates its records
//!
//! `runs.rt` is the run of one thread, of which `Runs` says what it leaves (`Replies`, `Readings`, `Crashes` are its
//! words, `Progress` and `Taking` how far it has come), and `Took` what one ask leaves. `Ready` is what a store keeps
//! and what one call leaves (`StoreCall`: `Takes`, `Tears`, `TearsLines`); `Adds` of `Store` is what adding an entry
//! leaves; `Store` has the words in which layers above speak of a store, `Ready` among them, which each call wants and
//! gives back.
//!
//! Left to others: what a record is and which history is legal (`shop_core`), the writing of bytes (`journal`), and
//! tills in threads (`till_calls`).
#![tactic(auto)]

mod causes;
mod keeping;
mod loading;
mod opening;
mod runs;
mod store;

pub use causes::{LoadFault, OpenCause};
pub use keeping::{keep, prepare};
pub use loading::{Loaded, load};
pub use opening::{NotOpened, Opened, open_journal};
pub use runs::{a_run_begins, a_run_ends, run_commands, take_next};
pub use store::Store;
