//! The journal's file: its header, its creation, and frames appended one by one. A frame that was answered `Ok` is
//! there after every crash; one that wasn't may be there or not. A fault of the disk stops a journal for good, and its
//! file is then read anew. A body may be any bytes: what they stand for is for the layers above.
//!
//! | Bytes | Content |
//! |---|---|
//! | 0 | 1 once the file is begun |
//! | 1 to 8 | `VFCHAIN1` |
//! | 9 | the version, 1 or 2 |
//! | 10 to 18 | the issuer's NIF |
//! | 19 on | frames, up to the first whose gate byte isn't 1 |
//!
//! - `ahead`: a file read in larger pieces than its frames, so that a walk over it makes few calls of the disk
//! - `commit`: bytes after a gate, and then the gate
//! - `creation`: the creation of a file
//! - `faults`: the faults of the layers above the journal
//! - `journal`: the journal: a file of frames, and where the next one goes
//! - `laws`: what holds of the file's definitions alone
//! - `reading`: reads a file frame by frame
//! - `tails`: the bytes behind a closing gate, which stand for nothing
//! - `whole`: a whole file, held shut until it is complete: byte 0 stays closed until all that comes after it is made
//!   sure of
//!
//! `specs/File.antt` says what a whole file stands for, as one relation on its bytes; `specs/Header.antt` the header's
//! table row by row; `specs/Walk.antt` a walk frame by frame; `specs/Journal.antt` the words `disk_of`, `end_of`,
//! `stopped_of` by which contracts above speak of a journal. One private function, `commit`, writes bytes after a gate,
//! syncs, opens the gate, syncs: an append commits at the closing gate, a creation at byte 0. `tails` alone writes
//! bytes behind a closing gate that are to stay there. `HEADER`, the place of the first gate, is here. A history is
//! read by `scan_ahead`, which finds frames in what a `ReadAhead` has of the file: 65,536 bytes a read, some 470 sales
//! (`specs/Ahead.antt`).
//!
//! Left to others: what an entry's bytes say (`record_codec`), histories (`shop_core`), and the opening of a file
//! (`chain_store`).
#![tactic(auto)]

/// How many bytes a file begins with, up to its first frame's gate.
pub const HEADER: usize = 19;

mod ahead;
mod commit;
mod creation;
mod faults;
mod journal;
mod laws;
mod reading;
mod tails;
mod whole;

pub use ahead::ReadAhead;
pub use faults::StoreFault;
pub use journal::{Journal, JournalFault, Lost};
pub use laws::{
    a_file_has_one_header, a_file_is_walked, a_file_not_begun_is_no_chain,
    a_file_stands_for_one_chain, walks_over_a_file_agree,
};
pub use reading::{Header, Step, read_header, scan, scan_ahead};
pub use tails::{TailFault, make_tails_equal};
pub use whole::{ShutFault, add_shut, begin_shut, open_shut};
