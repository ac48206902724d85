//! Small callers, each a page to copy into the software of a till: a sale from the file to the ticket, two tills in a
//! thread each, the records that wait and the agency's lines for them, a file's verdict, and the link of an invoice.
//!
//! Each is generic over the disk and the clock. A program makes them by `FileDisk::at(&rt, path)` and
//! `SystemClock::new(&rt)`.
//!
//! - `auditing`: a file's verdict
//! - `linking`: the link of an invoice, from the file
//! - `taking`: a sale, from the file to the ticket
//! - `threads`: two tills that ask at the same time, a thread each
//! - `waiting`: the records that wait, and the agency's lines for them
#![tactic(auto)]

mod auditing;
mod linking;
mod taking;
mod threads;
mod waiting;

pub use auditing::audit_a_file;
pub use linking::link_of_a_sale;
pub use taking::{NoTicket, Ticket, counter_sale, open_and_take, print_ticket};
pub use threads::{TwoTills, one_till_a_thread};
pub use waiting::{NotNoted, first_waiting, note_lines};
