//! The verification link that an invoice's QR code holds, written and read: the tax agency's description of the QR code
//! of invoices and of its verification service.
//!
//! - `encoding`: values of a link, percent-encoded and read
//! - `laws`: what holds of every text
//! - `parts`: what a link says, and why a text is no link
//! - `reading`: a text read as a link
//! - `values`: what the bytes of a field's value say
//! - `writing`: a link as a text
//!
//! Left to others: whether the shop has the invoice (`link_check`).
#![tactic(auto)]

mod encoding;
mod laws;
mod parts;
mod reading;
mod values;
mod writing;

pub use laws::text_determines_reading;
pub use parts::{Host, LinkFault, LinkParts};
pub use reading::read_link;
pub use writing::link_of;
