//! What goes to another thread.
use crate::ends::{PipeSink, PipeSource};
use crate::patient::Patient;
use crate::pipe::PipeAgency;
use std::fs::{File, Files};
use std::time::Clock;

fn crosses<G: Send>(_agency: &G) {}

/// An agency at the other end of two files may go to another thread. That is shown here once; there is nothing to be done.
pub fn may_cross_threads<'a, R: Files<File = File> + Sync>(
    agency: &PipeAgency<PipeSource<'a, R>, PipeSink<'a, R>>,
) {
    crosses(agency);
}

/// The same of one with pauses.
pub fn patient_may_cross_threads<'a, R: Files<File = File> + Clock + Sync>(
    agency: &Patient<'a, R, PipeAgency<PipeSource<'a, R>, PipeSink<'a, R>>>,
) {
    crosses(agency);
}
