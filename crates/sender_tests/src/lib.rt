//! Tests of the sender over a shop in memory: agencies that lose, repeat, invent and forget, and records that are added
//! between its turns. There is nothing here that a program calls.
//!
//! - `fates`: drains under each fate
//! - `hostile`: agencies that keep no rules: they invent, forget, and leave holes
//! - `shops`: the values that the tests share: shops with this many sales, and agencies with a plan
//! - `steps`: a sender's turns, one by one, and records that are added between them
#![tactic(auto)]

#[cfg(test)]
mod fates;
#[cfg(test)]
mod hostile;
#[cfg(test)]
mod shops;
#[cfg(test)]
mod steps;
