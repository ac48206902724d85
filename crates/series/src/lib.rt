//! Names of series, numbers of invoices, and what identifies an invoice.
//!
//! - `inline`: bytes that lie in the value itself
//! - `laws`: what holds of every number of a series
//! - `names`: names of series
//! - `numbers`: numbers of invoices
//!
//! `SeriesName` and `NumSerie` lie in the value itself, over one private type `Inline<N>` (bytes, a length, zeros past
//! it), so they are `Copy`, comparable and hashable, and take no memory.
//!
//! Left to others: whether a number is new (`shop_core`).
#![tactic(auto)]

mod inline;
mod laws;
mod names;
mod numbers;

pub use laws::{numbers_differ, series_is_read_back};
pub use names::SeriesName;
pub use numbers::{InvoiceId, NumSerie, number};
