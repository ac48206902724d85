//! Tests of several issuers in one installation: scripts in sections, and an office of several stores. There is nothing
//! here that a program calls.
//!
//! - `offices`: several issuers in one installation
//! - `sections`: scripts for several issuers, and the lines that commands stand in
#![tactic(auto)]

#[cfg(test)]
mod offices;
#[cfg(test)]
mod sections;
