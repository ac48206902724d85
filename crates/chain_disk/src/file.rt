//! A disk that is a file. It tells nothing of content.
ghost use Rattle.std.specs.Prelude.{◌≡◌, ◌≤◌, IfOk, length, false};
ghost use Rattle.ports.specs.Reasons.{count_of};
ghost use Rattle.chain_disk.specs.File.{nothing_on_disk, nothing_reads};

use crate::Disk;
use ports::{Failed, Faults, reason_of};
use std::fs::{self, File, Files, OpenOptions, TryLockError};
use std::io::{self, ErrorKind};
use std::os::unix::fs::{FileExt, OpenOptionsExt};
use std::path::Path;

// Why a call failed, in a few words.
#[derive(Clone, Copy)]
struct Reason {
    text: &'static str,
}

impl From<io::Error> for Reason {
    fn from(error: io::Error) -> Reason {
        Reason {
            text: reason_of(error.kind()),
        }
    }
}

impl From<TryLockError> for Reason {
    fn from(error: TryLockError) -> Reason {
        match error {
            TryLockError::WouldBlock => Reason {
                text: "in use by another program",
            },
            TryLockError::Error(e) => Reason::from(e),
        }
    }
}

/// The file at a path. A file that isn't there reads as one of length 0, and reading makes no file: it is made,
/// and opened for writing, at its first write or sync, for its owner alone to read and write (mode 0600). The first sync
/// also syncs the folder, so that the entry of a file made new lasts. Each error raises the count of faults.
///
/// One program at a time writes to a file: the first write or sync takes the file's exclusive lock before it touches a
/// byte, and it is held until this is dropped. Where another holds it the call fails, and the file is as it was. Reading
/// alone takes no lock, and goes on while another writes. What isn't a regular file is a fault, at whose end nobody waits.
#[derive(Drop)]
pub struct FileDisk<'a, R: Files<File = File>> {
    rt: &'a R,
    path: String,
    file: Option<File>,
    is_locked: bool,
    is_entered: bool,
    is_missing: bool,
    faults: Faults,
}

// Whether there is a regular file. Nothing else is opened, since that may wait for another program.
fn is_there<R: Files>(rt: &R, path: &str) -> Result<bool, Reason> {
    match fs::metadata(rt, path) {
        Ok(found) if found.is_file() => Ok(true),
        Ok(found) if found.is_dir() => Err(Reason::from(io::Error::from(ErrorKind::IsADirectory))),
        Ok(_) => Err(Reason { text: "not a file" }),
        Err(e) if e.kind() == ErrorKind::NotFound => Ok(false),
        Err(e) => Err(Reason::from(e)),
    }
}

// The permissions of a file that is made: a chain has customers' names and tax numbers.
const OWNER_ALONE: u32 = 0o600;

// The file, opened for writing and locked. It is made where it isn't there.
fn open_locked<R: Files<File = File>>(rt: &R, path: &str) -> Result<File, Reason> {
    let is_old = is_there(rt, path)?;
    let opened = OpenOptions::new()
        .read(true)
        .write(true)
        .create(!is_old)
        .mode(OWNER_ALONE)
        .open(rt, path)?;
    opened.try_lock()?;
    Ok(opened)
}

// Fills the buffer with what the file has. A signal may interrupt a read.
fn fill<F: FileExt>(file: &F, at: u64, buf: &mut [u8]) -> io::Result<usize>
    ensures { IfOk result (λ n. n ≤ length buf.old) }
{
    let mut n = 0;
    for _ in 0..u64::MAX {
        if n >= buf.len() {
            return Ok(n);
        }
        match file.read_at(&mut buf[n..], at.wrapping_add(n as u64)) {
            Ok(0) => return Ok(n),
            Ok(more) => n += more,
            Err(e) if e.kind() == ErrorKind::Interrupted => {}
            Err(e) => return Err(e),
        }
    }
    Err(io::Error::from(ErrorKind::Interrupted))
}

// Makes the entry of this file in its folder last.
fn sync_entry<R: Files<File = File>>(rt: &R, path: &str) -> io::Result<()> {
    let folder = match Path::new(path).parent() {
        Some(folder) if !folder.as_str().is_empty() => folder,
        _ => Path::new("."),
    };
    File::open(rt, folder)?.sync_all()
}

impl<'a, R: Files<File = File>> FileDisk<'a, R> {
    /// A disk that is the file at this path. Nothing is opened yet, and nothing has failed.
    pub fn at(rt: &'a R, path: String) -> FileDisk<'a, R>
        ensures { ⟦<FileDisk<'a, R> as Disk>⟧.faults result ≡ 0 }
    {
        FileDisk {
            rt,
            path,
            file: None,
            is_locked: false,
            is_entered: false,
            is_missing: false,
            faults: Faults::none(),
        }
    }

    /// The reason of the last fault, in a few words. Nothing is claimed of it.
    pub fn reason(&self) -> Option<&'static str> {
        self.faults.reason()
    }

    /// Whether the file wasn't there when it was last looked for. Nothing is claimed of it.
    pub fn missing(&self) -> bool {
        self.is_missing
    }

    // Opens the file for reading, where it isn't open and is there.
    fn look(&mut self) -> Result<(), Reason>
        ensures { count_of self.new.faults ≡ count_of self.old.faults }
    {
        if self.file.is_none() {
            self.is_missing = !is_there(self.rt, self.path.as_str())?;
            if !self.is_missing {
                self.file = Some(File::open(self.rt, self.path.as_str())?);
            }
        }
        Ok(())
    }

    // Opens the file for writing and locks it, where that isn't done.
    fn lock(&mut self) -> Result<(), Reason>
        ensures { count_of self.new.faults ≡ count_of self.old.faults }
    {
        if !self.is_locked {
            self.file = Some(open_locked(self.rt, self.path.as_str())?);
            self.is_locked = true;
            self.is_missing = false;
        }
        Ok(())
    }

    // What is open.
    fn opened(&self) -> Result<&File, Reason> {
        match &self.file {
            Some(file) => Ok(file),
            None => Err(Reason::from(io::Error::from(ErrorKind::NotFound))),
        }
    }

    fn try_len(&mut self) -> Result<u64, Reason>
        ensures { count_of self.new.faults ≡ count_of self.old.faults }
    {
        self.look()?;
        match &self.file {
            Some(file) => Ok(file.metadata()?.len()),
            None => Ok(0),
        }
    }

    fn try_read(&mut self, at: u64, buf: &mut [u8]) -> Result<usize, Reason>
        ensures fits { IfOk result (λ n. n ≤ length buf.old) }
        ensures same { count_of self.new.faults ≡ count_of self.old.faults }
    {
        self.look()?;
        match &self.file {
            Some(file) => Ok(fill(file, at, buf)?),
            None => Ok(0),
        }
    }

    fn try_write(&mut self, at: u64, bytes: &[u8]) -> Result<(), Reason>
        ensures { count_of self.new.faults ≡ count_of self.old.faults }
    {
        self.lock()?;
        self.opened()?.write_all_at(bytes, at)?;
        Ok(())
    }

    fn try_sync(&mut self) -> Result<(), Reason>
        ensures { count_of self.new.faults ≡ count_of self.old.faults }
    {
        self.lock()?;
        self.opened()?.sync_data()?;
        if !self.is_entered {
            sync_entry(self.rt, self.path.as_str())?;
            self.is_entered = true;
        }
        Ok(())
    }
}

impl<'a, R: Files<File = File>> Disk for FileDisk<'a, R> {
    ghost tells = { false };

    ghost on_disk = { λ d. nothing_on_disk };

    ghost faults = { λ d. count_of d.faults };

    ghost reads_an_image = { λ d tells. nothing_reads };

    ghost few_faults = { λ d. d.faults.few };

    fn len(&mut self) -> Result<u64, Failed> {
        match self.try_len() {
            Ok(n) => Ok(n),
            Err(e) => Err(self.faults.raise(e.text)),
        }
    }

    fn read_at(&mut self, at: u64, buf: &mut [u8]) -> Result<usize, Failed> {
        match self.try_read(at, buf) {
            Ok(n) => Ok(n),
            Err(e) => Err(self.faults.raise(e.text)),
        }
    }

    fn write_at(&mut self, at: u64, bytes: &[u8]) -> Result<(), Failed> {
        match self.try_write(at, bytes) {
            Ok(()) => Ok(()),
            Err(e) => Err(self.faults.raise(e.text)),
        }
    }

    fn sync(&mut self) -> Result<(), Failed> {
        match self.try_sync() {
            Ok(()) => Ok(()),
            Err(e) => Err(self.faults.raise(e.text)),
        }
    }

    fn faults(&self) -> u64 {
        self.faults.count()
    }
}
