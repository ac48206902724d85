//! Long work shows itself on a terminal: a file and a sleeper that say on standard error how far they are, and are else those of
//! `chain_disk` and `ports`. Nothing is claimed of what they print.
ghost use Rattle.std.specs.Prelude.{false, ⊤};
ghost use Rattle.chain_disk.specs.File.{nothing_on_disk, nothing_reads};

use chain_disk::{Disk, FileDisk};
use ports::{Failed, Sleeper, ThreadSleeper};
use stamps::{moment_text, stamp_at};
use std::fs;
use std::io::{IsTerminal, Write};
use std::sync::Wait;
use std::time::{Duration, Instant};

// Work of less than this many milliseconds shows nothing, and a line is written again after a fifth of it.
const SHOWN_AFTER: u64 = 1000;

const PAUSE: u64 = 200;

// A line on standard error that is written over and over, and taken away at the end.
#[derive(Drop)]
struct Line<'a> {
    rt: &'a HostRuntime,
    begun: Option<Instant>,
    last: Option<Instant>,
}

impl<'a> Line<'a> {
    fn new(rt: &'a HostRuntime) -> Line<'a> {
        Line {
            rt,
            begun: None,
            last: None,
        }
    }

    // Whether it is time to write the line.
    fn is_due(&mut self) -> bool {
        let Ok(now) = Instant::now(self.rt) else {
            return false;
        };
        let begun = match self.begun {
            Some(begun) => begun,
            None => now,
        };
        self.begun = Some(begun);
        let is_long = now.duration_since(begun) >= Duration::from_millis(SHOWN_AFTER);
        let is_new = match self.last {
            Some(last) => now.duration_since(last) >= Duration::from_millis(PAUSE),
            None => true,
        };
        let is_due = is_long && is_new && self.rt.stderr().is_terminal();
        if is_due {
            self.last = Some(now);
        }
        is_due
    }

    // Shows that this many bytes are read, of as many as the file had.
    fn show_read(&mut self, name: &str, done: u64, length: u64) {
        if done >= length {
            self.clear();
        } else if self.is_due() {
            let percent = done.saturating_mul(100) / length.max(1);
            let mut stderr = self.rt.stderr();
            let _ = write!(stderr, "\r\x1b[Kverifactu: {name}: {percent} % read");
        }
    }

    // Shows that this many bytes are written.
    fn show_written(&mut self, name: &str, done: u64) {
        if self.is_due() {
            let megabytes = done / 1_000_000;
            let mut stderr = self.rt.stderr();
            let _ = write!(stderr, "\r\x1b[Kverifactu: {name}: {megabytes} MB written");
        }
    }

    // Takes the line away, where there is one. The next one waits again.
    fn clear(&mut self) {
        self.begun = None;
        if self.last.take().is_some() {
            let _ = self.rt.stderr().write_all(b"\r\x1b[K");
        }
    }
}

// The file's length. 0 where it can't be told: then its reading isn't shown.
fn length_of(rt: &HostRuntime, path: &str) -> u64 {
    match fs::metadata(rt, path) {
        Ok(found) => found.len(),
        Err(_) => 0,
    }
}

/// A file whose reading and writing are shown.
#[derive(Drop)]
pub struct ShownDisk<'a> {
    disk: FileDisk<'a, HostRuntime>,
    name: String,
    line: Line<'a>,
    length: u64,
}

impl<'a> ShownDisk<'a> {
    /// The file at this path, which is shown under this name.
    pub fn at(rt: &'a HostRuntime, path: String, name: String) -> ShownDisk<'a> {
        let length = length_of(rt, path.as_str());
        ShownDisk {
            disk: FileDisk::at(rt, path),
            name,
            line: Line::new(rt),
            length,
        }
    }

    /// The reason of the last fault, in a few words.
    pub fn reason(&self) -> Option<&'static str> {
        self.disk.reason()
    }

    /// Whether the file wasn't there when it was last looked for.
    pub fn missing(&self) -> bool {
        self.disk.missing()
    }
}

impl<'a> Disk for ShownDisk<'a> {
    ghost tells = { false };

    ghost on_disk = { λ d. nothing_on_disk };

    ghost faults = { λ d. ⟦<FileDisk<'a, HostRuntime> as Disk>⟧.faults d.disk };

    ghost reads_an_image = { λ d tells. nothing_reads };

    ghost few_faults = { λ d. d.disk.faults.few };

    fn len(&mut self) -> Result<u64, Failed> {
        self.disk.len()
    }

    fn read_at(&mut self, at: u64, buf: &mut [u8]) -> Result<usize, Failed> {
        let answer = self.disk.read_at(at, buf);
        if let Ok(count) = answer {
            let done = at.saturating_add(count as u64);
            self.line.show_read(self.name.as_str(), done, self.length);
        }
        answer
    }

    fn write_at(&mut self, at: u64, bytes: &[u8]) -> Result<(), Failed> {
        let answer = self.disk.write_at(at, bytes);
        self.line.show_written(self.name.as_str(), at);
        answer
    }

    fn sync(&mut self) -> Result<(), Failed> {
        let answer = self.disk.sync();
        self.line.clear();
        answer
    }

    fn faults(&self) -> u64 {
        self.disk.faults()
    }
}

/// The system's clock and its sleep, where a wait is shown.
#[derive(Drop)]
pub struct ShownSleeper<'a> {
    rt: &'a HostRuntime,
    sleeper: ThreadSleeper<&'a HostRuntime>,
}

impl<'a> ShownSleeper<'a> {
    pub fn new(rt: &'a HostRuntime) -> ShownSleeper<'a> {
        ShownSleeper {
            rt,
            sleeper: ThreadSleeper::new(rt),
        }
    }

    // What is waited for, on a terminal. Whether a line stands there.
    fn show(&self, at: u64) -> bool {
        let mut stderr = self.rt.stderr();
        if !stderr.is_terminal() {
            return false;
        }
        let Ok(stamp) = stamp_at(at) else {
            return false;
        };
        let _ = stderr.write_all(b"verifactu: waits for the agency's next turn, until ");
        let _ = stderr.write_all(&moment_text(&stamp));
        true
    }
}

impl<'a> Sleeper for ShownSleeper<'a> {
    ghost tells = { ⟦<ThreadSleeper<&'a HostRuntime> as Sleeper>⟧.tells };

    ghost moment = { λ s. ⟦<ThreadSleeper<&'a HostRuntime> as Sleeper>⟧.moment s.sleeper };

    ghost without_rest = { λ _ _. ⊤ };

    ghost unrested = { λ _. tt };

    ghost no_rest_goes_on = { λ _ _ _ _ _. tt };

    fn now(&mut self) -> u64 {
        self.sleeper.now()
    }

    fn wait_until<R: Wait>(&mut self, rt: &R, at: u64) {
        let shown = self.sleeper.now() < at && self.show(at);
        self.sleeper.wait_until(rt, at);
        if shown {
            let _ = self.rt.stderr().write_all(b"\r\x1b[K");
        }
    }

    fn rest<R: Wait>(&mut self, rt: &R) {
        self.sleeper.rest(rt);
    }
}
