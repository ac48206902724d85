//! FIFOs by their paths. Nothing is claimed of what stands in the file system.
use ports::reason_of;
use std::fs::{self, File, Files, Metadata, OpenOptions, TryLockError};
use std::os::unix::fs::{FileTypeExt, MetadataExt};

// Why an end can't be used, in a few words.
pub(crate) type Reason = &'static str;

const NO_FIFO: Reason = "no FIFO";

/// The FIFO at this path. Whatever else stands there is neither opened nor changed: opening a device can have effects.
pub(crate) fn open_fifo<R: Files<File = File>>(
    rt: &R,
    path: &str,
    how: &OpenOptions,
) -> Result<File, Reason> {
    match fs::metadata(rt, path) {
        Ok(found) if found.file_type().is_fifo() => {}
        Ok(_) => return Err(NO_FIFO),
        Err(e) => return Err(reason_of(e.kind())),
    }
    let file = match how.open(rt, path) {
        Ok(file) => file,
        Err(e) => return Err(reason_of(e.kind())),
    };
    // What stands there may have changed meanwhile.
    match file.metadata() {
        Ok(found) if found.file_type().is_fifo() => Ok(file),
        Ok(_) => Err(NO_FIFO),
        Err(e) => Err(reason_of(e.kind())),
    }
}

/// The same file, with its exclusive lock as long as it is open.
pub(crate) fn held(file: File) -> Result<File, Reason> {
    match file.try_lock() {
        Ok(()) => Ok(file),
        Err(TryLockError::WouldBlock) => Err("held by another program"),
        Err(TryLockError::Error(e)) => Err(reason_of(e.kind())),
    }
}

/// Why two paths can't be those of an agency.
#[derive(Clone, Copy, Debug, PartialEq, Eq)]
pub enum Unfit {
    /// What stands at the first, by which the agency is told, is no FIFO.
    To,
    /// What stands at the second, by which it answers, is none.
    From,
    /// They are one file.
    Same,
}

fn is_other(found: &Option<Metadata>) -> bool {
    match found {
        Some(found) => !found.file_type().is_fifo(),
        None => false,
    }
}

/// Why an agency can't be spoken with by the files at these paths, as they stand; None where each is a FIFO of its own, or isn't
/// there. Neither is opened.
pub fn unfit_files<R: Files<File = File>>(rt: &R, to: &str, from: &str) -> Option<Unfit> {
    let to = fs::metadata(rt, to).ok();
    let from = fs::metadata(rt, from).ok();
    if is_other(&to) {
        return Some(Unfit::To);
    }
    if is_other(&from) {
        return Some(Unfit::From);
    }
    match (to, from) {
        (Some(to), Some(from)) if to.dev() == from.dev() && to.ino() == from.ino() => {
            Some(Unfit::Same)
        }
        _ => None,
    }
}
