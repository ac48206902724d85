//! Tests of whole runs, by the call that the program makes: what is read, printed and left on disks, over devices that
//! fail, hold or watch. A run that needs no device of its own is a session in `examples/rows`. There is nothing here
//! that a program calls.
//!
//! - `agencies`: agencies whose answers are told: those that forget, have a hole, fall silent, or answer another
//!   question
//! - `day`: days of several tills, and tills that are answered line by line: gates that hold, and disks that fail
//! - `disk`: a chain whose disk fails at each call in turn
//! - `pair`: a file and its copy, with each call of either disk failing in turn
//! - `runs`: the one call that each test makes, over devices in memory
//! - `serve`: devices in lockstep: a source that gives a line only once the lines before it are answered, and a disk
//!   and a clock that share with the sink how many syncs were made
#![tactic(auto)]

#[cfg(test)]
mod agencies;
#[cfg(test)]
mod day;
#[cfg(test)]
mod disk;
#[cfg(test)]
mod pair;
#[cfg(test)]
mod runs;
#[cfg(test)]
mod serve;
