//! No program's: tests of files that are cut or changed in one byte, of those that are moved while a device fails, of
//! links whose source, sink or file fails, and of those that many workers answer.
//!
//! - `audits`: a disk that fails while a file is read
//! - `checks`: the command `check` over a source, a sink and a file that fail
//! - `files`: the bytes of the file were made by another program, and its Huellas are SHA-256 of the field texts by
//!   that program
//! - `links`: lines of their own, read as links and held against a file by this many workers
//! - `moves`: files of version 1 that are moved to new files while a disk fails
#![tactic(auto)]

#[cfg(test)]
mod audits;
#[cfg(test)]
mod checks;
#[cfg(test)]
mod files;
#[cfg(test)]
mod links;
#[cfg(test)]
mod moves;
