//! Amounts in cents, their texts, rates, and the tax of a base.
//!
//! - `cents`: amounts of money
//! - `laws`: what holds of every amount
//! - `rate`: rates of tax
//! - `read`: reading an amount
//! - `tax`: the tax of a base
//! - `text`: how an amount is written
//! - `whole`: reading a whole number
//!
//! Left to others: which tax a line has (`tax_lines`).
#![tactic(auto)]

mod cents;
mod laws;
mod rate;
mod read;
mod tax;
mod text;
mod whole;

pub use cents::{Cents, MAX_CENTS};
pub use laws::{tax_of_negated_base, text_determines_amount};
pub use rate::Rate;
pub use read::{AmountFault, read_cents};
pub use tax::tax_of;
pub use text::{AmountText, text_of};
pub use whole::{WHOLE_LIMIT, read_whole};
