//! What reaches the outside: a source of bytes, a sink of bytes, a clock, a sleeper and a gate. Each is a trait with
//! its forms in memory, of which contracts say what they hold, and an adapter over the real thing, of which they say no
//! more than its count of faults, a clock's last answer and a sleeper's moment. A call that fails answers `Failed` and
//! raises the count, which stands still at the greatest u64; where a fault has a cause, it is that the count of a
//! device that was handed in rose.
//!
//! - `adapters`: devices over the standard streams and the system's clock, which tell nothing of content
//! - `faults`: the two faults that every layer knows
//! - `gate`: what the threads of a day pass
//! - `memory`: devices in memory, which tell what they hold
//! - `reasons`: what an adapter keeps of the faults of the real thing
//! - `sleeper`: a clock that waits, in memory and over the system's
//!
//! The memory forms tell all that they hold by a model `Held {bytes, failing, calls, faults}`. `reasons` is what an
//! adapter keeps of its faults, and no contract speaks of it. Specs: `Causes` is a count of faults that rises.
//!
//! Left to others: disks (`chain_disk`) and agencies (`agency_port`).
#![tactic(auto)]

ghost use Rattle.std.specs.Prelude.{◌≡◌, ◌+◌, ◌-◌, ◌^◌, ◌≤◌, ℕ, Bool, IsTrue, List, Option};
ghost use Rattle.ports.specs.Causes.{HasCause, IsCounted};
ghost use Rattle.ports.specs.Given.{Reads, Writes, IsWithin};
ghost use Rattle.ports.specs.Readings.{IsTold, MovedBy};

mod adapters;
mod faults;
mod gate;
mod memory;
mod reasons;
mod sleeper;

pub use adapters::{StdSink, StdSource, SystemClock};
pub use faults::{Failed, NoMemory};
pub use gate::{Gate, OpenGate};
pub use memory::{CountingClock, ListClock, MemSink, MemSource};
pub use reasons::{Faults, reason_of};
pub use sleeper::{LeapSleeper, REST, Sleeper, ThreadSleeper};

/// Gives bytes, in order, each once.
pub trait Source {
    /// The bytes that are still to come, where the source tells them.
    ghost left: { Self → Option (List ℕ) };

    /// How often it has failed.
    ghost faults: { Self → ℕ };

    /// Whether it counts each failed call, and each once.
    ghost counts: { Bool };

    /// The next bytes, at most as many as the buffer holds. `Ok(0)` on a buffer with room is the end of input. After
    /// an `Err` the same bytes are still to come.
    fn read(&mut self, buf: &mut [u8]) -> Result<usize, Failed>
        ensures within { IsWithin result buf.new }
        //= What a read gave are the next bytes of what is left, and they are gone from it, where the source tells
        //= what is left.
        //= No body: the devices' own clauses have bodies
        ensures bytes { Reads (left self.old) (left self.new) result buf.new }
        //= A read fails only where the source's count of faults rose.
        //= No body: each device proves it by `fault`, whose body it is
        ensures cause { HasCause (faults self.old) (faults self.new) result }
        //= A source that counts its failed reads counts each once, and nothing else.
        ensures counted { IsTrue counts → IsCounted (faults self.old) (faults self.new) result };

    /// The count of faults is one that a u64 holds.
    ghost few_faults: { (source : Self) → faults source ≤ 2 ^ 64 - 1 };
}

/// Takes bytes, in order.
pub trait Sink {
    /// The bytes that were taken so far, where the sink tells them.
    ghost taken: { Self → Option (List ℕ) };

    /// How often it has failed.
    ghost faults: { Self → ℕ };

    /// Takes the first bytes, and says how many: at least one where there is one. After an `Err` none was taken.
    fn write(&mut self, bytes: &[u8]) -> Result<usize, Failed>
        ensures within { IsWithin result bytes.now }
        ensures bytes { Writes (taken self.old) (taken self.new) result bytes.now }
        //= A write fails only where the sink's count of faults rose.
        //= No body: each device proves it by `fault`, which has one
        ensures cause { HasCause (faults self.old) (faults self.new) result };

    /// The count of faults is one that a u64 holds.
    ghost few_faults: { (sink : Self) → faults sink ≤ 2 ^ 64 - 1 };
}

/// Tells the time of day, which may go back.
pub trait Clock {
    /// The last answer.
    ghost last: { Self → ℕ };

    /// The coming answer of each number from 0, where the clock tells them.
    ghost coming: { Self → ℕ → Option ℕ };

    /// The one became the other by readings alone. Of a clock of any type only `now` says so.
    ghost by_readings: { Self → Self → Type 0 };

    /// Seconds since 1970-01-01T00:00:00Z.
    fn now(&mut self) -> u64
        ensures last { result ≡ last self.new }
        ensures told { IsTold (coming self.old 0) result }
        ensures moved { MovedBy 1 (coming self.old) (coming self.new) }
        //= Whatever else is said of a clock, a call of it is one reading.
        //= No body: each clock proves it by its definition
        ensures read { by_readings self.old self.new };

    /// A clock that stays as it is became so by readings, by none.
    ghost unread: { (clock : Self) → by_readings clock clock };

    /// Readings after readings are readings.
    ghost reading_goes_on: { (a b c : Self) → by_readings a b → by_readings b c → by_readings a c };
}
