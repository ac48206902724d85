//! Tests of the crates between the values of an invoice and the shop, and the values that they share: a tax number, a
//! draft of one line, a record, a chain of sales, a batch. There is nothing here that a program calls.
//!
//! - `agencies`: the practice agency by a plan in which the first of two sales is refused
//! - `chains`: batches of records, the names of their Huellas, and the order of a chain
//! - `entries`: entries as bytes, each with the bytes that the format gives it
//! - `exports`: lines of an export
//! - `huellas`: the three example records that the tax agency publishes, with their field texts and Huellas
//! - `judgements`: what the agency answers to an alta and to an anulación
//! - `ledgers`: a ledger that goes on with a worked history: a sale, its fix, which the agency refuses, and its
//!   cancellation
//! - `records`: the values that the tests share
//! - `shops`: a shop without a disk: what each ask is answered
#![tactic(auto)]

#[cfg(test)]
mod agencies;
#[cfg(test)]
mod chains;
#[cfg(test)]
mod entries;
#[cfg(test)]
mod exports;
#[cfg(test)]
mod huellas;
#[cfg(test)]
mod judgements;
#[cfg(test)]
mod ledgers;
#[cfg(test)]
mod records;
#[cfg(test)]
mod shops;
