//! Devices over the standard streams and the system's clock, which tell nothing of content.
ghost use Rattle.std.specs.Prelude.{◌≡◌, None, true, ⊤};
ghost use Rattle.ports.specs.Reasons.{count_of};

use crate::{Clock, Failed, Faults, Sink, Source, reason_of};
use std::io::{ErrorKind, Input, Print, Read, Write, writer};
use std::rt::Clock as SystemTimeSource;
use std::time::{SystemTime, UNIX_EPOCH};

/// Standard input, with its faults counted.
#[derive(Drop)]
pub struct StdSource<R> {
    rt: R,
    faults: Faults,
}

impl<R: Input> StdSource<R> {
    /// The standard input of a runtime, which is given by reference. It hasn't failed.
    pub fn new(rt: R) -> Self
        ensures { ⟦<StdSource<R> as Source>⟧.faults result ≡ 0 }
    {
        StdSource {
            rt,
            faults: Faults::none(),
        }
    }

    /// The reason of the last fault, in a few words. Nothing is claimed of it.
    pub fn reason(&self) -> Option<&'static str> {
        self.faults.reason()
    }
}

impl<R: Input> Source for StdSource<R> {
    ghost left = { λ s. None };

    ghost faults = { λ s. count_of s.faults };

    ghost counts = { true };

    ghost few_faults = { λ s. s.faults.few };

    fn read(&mut self, buf: &mut [u8]) -> Result<usize, Failed> {
        match self.rt.reader().read(buf) {
            Ok(count) => Ok(count),
            Err(e) => Err(self.faults.raise(reason_of(e.kind()))),
        }
    }
}

/// Standard output, with its faults counted. Nothing is kept back: what a write took stands on the stream.
#[derive(Drop)]
pub struct StdSink<R> {
    rt: R,
    faults: Faults,
}

impl<R: Print> StdSink<R> {
    /// The standard output of a runtime, which is given by reference. It hasn't failed.
    pub fn new(rt: R) -> Self
        ensures { ⟦<StdSink<R> as Sink>⟧.faults result ≡ 0 }
    {
        StdSink {
            rt,
            faults: Faults::none(),
        }
    }

    /// The reason of the last fault, in a few words. Nothing is claimed of it.
    pub fn reason(&self) -> Option<&'static str> {
        self.faults.reason()
    }
}

impl<R: Print> Sink for StdSink<R> {
    ghost taken = { λ s. None };

    ghost faults = { λ s. count_of s.faults };

    ghost few_faults = { λ s. s.faults.few };

    fn write(&mut self, bytes: &[u8]) -> Result<usize, Failed> {
        match writer(&self.rt).write(bytes) {
            Ok(count) if count > 0 || bytes.is_empty() => Ok(count),
            Ok(_) => Err(self.faults.raise(reason_of(ErrorKind::WriteZero))),
            Err(e) => Err(self.faults.raise(reason_of(e.kind()))),
        }
    }
}

/// The system's clock. One that can't be read, or stands before 1970, gives 0.
#[derive(Drop)]
pub struct SystemClock<R> {
    rt: R,
    last: u64,
}

impl<R: SystemTimeSource> SystemClock<R> {
    /// The clock of a runtime, which is given by reference. Its last answer is taken as 0.
    pub fn new(rt: R) -> Self
        ensures { ⟦<SystemClock<R> as Clock>⟧.last result ≡ 0 }
    {
        SystemClock { rt, last: 0 }
    }
}

// The seconds of the system's clock since 1970, 0 where it can't be read or stands before.
fn seconds_of<R: SystemTimeSource>(rt: &R) -> u64 {
    match SystemTime::now(rt) {
        Ok(now) => match now.duration_since(UNIX_EPOCH) {
            Ok(since) => since.as_secs(),
            Err(_) => 0,
        },
        Err(_) => 0,
    }
}

impl<R: SystemTimeSource> Clock for SystemClock<R> {
    ghost last = { λ c. c.last };

    ghost coming = { λ c k. None };

    ghost by_readings = { λ _ _. ⊤ };

    ghost unread = { λ _. tt };

    ghost reading_goes_on = { λ _ _ _ _ _. tt };

    fn now(&mut self) -> u64 {
        self.last = seconds_of(&self.rt);
        self.last
    }
}
