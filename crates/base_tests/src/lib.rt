//! Tests of the lowest crates, a module each: values, devices, frames, the disk and its mirror, the journal and the
//! lock. What lines and links are made of is shown by `examples/rows/values.row`. There is nothing here that a program
//! calls.
//!
//! - `amounts_tests`: amounts as texts: what is refused, and why
//! - `chain_disk_tests`: the disk in memory
//! - `chain_lock_tests`: two threads that add at one lock while a third looks, and what a pass tells another
//! - `frames_tests`: Frames, written and read
//! - `journal_tests`: a journal on a disk in memory: its bytes, its faults, its crashes
//! - `line_reader_tests`: Lines, cut from a source that gives a few bytes at a time
//! - `mirror_disk_tests`: a mirror of two disks in memory
//! - `pacing_tests`: when a submission is due
//! - `pages_tests`: strings kept in pages of memory
//! - `parties_tests`: tax numbers and names: what is refused, and why
//! - `ports_tests`: Sources, sinks, clocks and sleepers in memory
//! - `series_tests`: numbers by series, and whose series a number is of
//! - `stamps_tests`: the days of the change of clocks, the ranges of moments, and days counted from 1970
//! - `tax_lines_tests`: codes of classes, what each tax permits, and lines made of a total
//! - `unended_tests`: a last line without its LF, and how often a source is asked
#![tactic(auto)]

#[cfg(test)]
mod amounts_tests;
#[cfg(test)]
mod chain_disk_tests;
#[cfg(test)]
mod chain_lock_tests;
#[cfg(test)]
mod frames_tests;
#[cfg(test)]
mod journal_tests;
#[cfg(test)]
mod line_reader_tests;
#[cfg(test)]
mod mirror_disk_tests;
#[cfg(test)]
mod pacing_tests;
#[cfg(test)]
mod pages_tests;
#[cfg(test)]
mod parties_tests;
#[cfg(test)]
mod ports_tests;
#[cfg(test)]
mod series_tests;
#[cfg(test)]
mod stamps_tests;
#[cfg(test)]
mod tax_lines_tests;
#[cfg(test)]
mod unended_tests;
