//! A disk as a journal sees it: what it holds, and what a crash at each moment may leave of it. A disk in memory tells
//! both, and lists the calls that fail. A file tells neither: contracts say of it only that its faults are counted.
//! That one program at a time writes it is kept by a lock, which it holds from its first write or sync.
//!
//! - `disk`: the trait of a disk
//! - `event`: what the record of a disk in memory is made of
//! - `file`: a disk that is a file
//! - `image`: one of the images that a crash may leave, made of the record of a disk in memory
//! - `laws`: laws of what a disk tells: what a crash may leave while calls follow one another
//! - `memory`: a disk in memory
//! - `range`: a range of bytes
//!
//! `specs/OnDisk.antt` is the crash model: `OnDisk` is the content, what is pending now and what was pending at each
//! earlier moment; `IsImage` is the test of one list of bytes, `IsLeft` the test at a moment, `LeavesOnly old new P`
//! says that each crash at a moment of a run of calls leaves what has P. `specs/Runs.antt` has the lemmas by which runs
//! go on and follow one another for every P; the laws `no_call_is_a_run`, `a_call_is_a_run`, `runs_follow` and
//! `a_settled_disk_leaves_its_content` say the same without P. `MemDisk` keeps its first bytes and a record of its
//! writes and syncs, and `image` replays that record; what it holds now is kept in place as well. `specs/Props.antt`
//! proves that facts on images have at most one proof, so that a ghost field above can hold them. `specs/Disks.antt` is
//! 'this disk in this call'. `FileDisk` looks at a path's metadata before it opens anything, and locks the file when it
//! opens it for writing.
//!
//! Left to others: the format of the file (`frames`, `journal`).
#![tactic(auto)]

mod disk;
mod event;
mod file;
mod image;
mod laws;
mod memory;
mod range;

pub use disk::Disk;
pub use file::FileDisk;
pub use image::Fill;
pub use laws::{
    a_call_is_a_run, a_settled_disk_leaves_its_content, no_call_is_a_run, runs_follow,
    what_crashes_leave_stays,
};
pub use memory::MemDisk;
pub use range::Range;
