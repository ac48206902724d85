//! What a test holds of a row of its table, and what tests sell. There is nothing here that a program calls.
//!
//! - `rows`: what a test holds of a row of its table
//! - `sales`: what tests sell
#![tactic(auto)]

mod rows;
mod sales;

pub use rows::holds;
pub use sales::sale_draft;
