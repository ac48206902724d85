//! Devices in memory, which tell what they hold.
ghost use Rattle.std.specs.Prelude.{◌≡◌, ℕ, ◌+◌, ◌*◌, ◌-◌, ◌^◌, ◌<◌, ◌≤◌, ◌↔◌, [], drop, take, length, min, vec_len, Some, true, ⊤};
ghost use Rattle.std.specs.Prelude.{slice_index, IsErr, IfOk};
ghost use Rattle.ports.specs.Causes.{HasCause, IsCounted};
ghost use Rattle.ports.specs.Given.{Reads, Writes, IsWithin};
ghost use Rattle.ports.specs.Memory.{Held, counted, IsListed, IsOneCall};
ghost use Rattle.std.proofs.Common.{rules, arith};

use crate::faults::fault;
use crate::{Clock, Failed, Sink, Source};
use std::alloc::Global;
use std::marker::Model;

/// A source that gives the bytes of a vector. It takes no memory, and fails exactly at the calls whose numbers,
/// counted from 1, are listed.
#[derive(Drop)]
pub struct MemSource {
    content: Vec<u8>,
    at: usize,
    listed: Vec<u64>,
    call_count: u64,
    fault_count: u64,
}

impl Model for MemSource {
    ghost use Rattle.std.specs.Prelude.{◌≤◌, drop, vec_len};
    ghost use Rattle.ports.specs.Memory.{Held};

    ghost Value = { Held };

    ghost view = { λ s. record {
      bytes = drop s.at s.content.items;
      failing = s.listed.items;
      calls = s.call_count;
      faults = s.fault_count;
    } };

    ghost invariant = { λ s. s.at ≤ vec_len s.content };
}

impl MemSource {
    /// A source of these bytes, at its first call.
    pub fn new(_alloc: Global, bytes: Vec<u8>, failing: Vec<u64>) -> Self
        ensures { result ≡ record { bytes = bytes.items; failing = failing.items; calls = 0; faults = 0 } }
    {
        MemSource {
            content: bytes,
            at: 0,
            listed: failing,
            call_count: 0,
            fault_count: 0,
        }
    }
}

// Fills the front of a buffer with as many bytes as there are and fit.
fn copy_front(from: &[u8], buf: &mut [u8]) -> usize
    ensures count { result ≡ min (length buf.old) (length from.now) }
    ensures bytes { take result buf.new ≡ take result from.now }
{
    let count = buf.len().min(from.len());
    buf[..count].copy_from_slice(&from[..count]);
    count
}

impl Source for MemSource {
    ghost left = { λ s. Some s.bytes };

    ghost faults = { counted };

    ghost counts = { true };

    ghost few_faults = { Prim.search (rules, arith) };

    /// Gives as many bytes as there are and fit.
    fn read(&mut self, buf: &mut [u8]) -> Result<usize, Failed>
        ensures within { IsWithin result buf.new }
        ensures bytes { Reads (Some self.old.bytes) (Some self.new.bytes) result buf.new }
        ensures cause { HasCause (counted self.old) (counted self.new) result }
        ensures counted { IsCounted (counted self.old) (counted self.new) result }
        ensures fails { IsErr result ↔ IsListed self.old }
        ensures call { IsOneCall self.old self.new result }
        //= A source in memory gives as much as there is and fits.
        ensures all_that_fit { IfOk result (λ n. n ≡ min (length buf.old) (length self.old.bytes)) }
    {
        self.call_count = self.call_count.saturating_add(1);
        if self.listed.contains(&self.call_count) {
            return Err(fault(&mut self.fault_count));
        }
        let count = copy_front(&self.content[self.at..], buf);
        self.at += count;
        Ok(count)
    }
}

/// A sink that keeps what it takes. It fails at the calls whose numbers, counted from 1, are listed, and otherwise
/// for lack of memory alone.
#[derive(Drop)]
pub struct MemSink {
    content: Vec<u8>,
    listed: Vec<u64>,
    call_count: u64,
    fault_count: u64,
}

impl Model for MemSink {
    ghost use Rattle.ports.specs.Memory.{Held};

    ghost Value = { Held };

    ghost view = { λ s. record {
      bytes = s.content.items;
      failing = s.listed.items;
      calls = s.call_count;
      faults = s.fault_count;
    } };
}

impl MemSink {
    /// A sink that has taken nothing, at its first call.
    pub fn new(alloc: Global, failing: Vec<u64>) -> Self
        ensures { result ≡ record { bytes = []; failing = failing.items; calls = 0; faults = 0 } }
    {
        MemSink {
            content: Vec::new(alloc),
            listed: failing,
            call_count: 0,
            fault_count: 0,
        }
    }

    /// What the sink has taken.
    pub fn bytes(&self) -> &[u8]
        ensures { result.now ≡ self.now.bytes }
    {
        &self.content
    }
}

impl Sink for MemSink {
    ghost taken = { λ s. Some s.bytes };

    ghost faults = { counted };

    ghost few_faults = { Prim.search (rules, arith) };

    /// Takes all of the bytes or none. Lack of memory is a fault as any other.
    fn write(&mut self, bytes: &[u8]) -> Result<usize, Failed>
        ensures within { IsWithin result bytes.now }
        ensures bytes { Writes (Some self.old.bytes) (Some self.new.bytes) result bytes.now }
        ensures cause { HasCause (counted self.old) (counted self.new) result }
        ensures fails { IsListed self.old → IsErr result }
        ensures call { IsOneCall self.old self.new result }
        ensures all_of_them { IfOk result (λ n. n ≡ length bytes.now) }
    {
        self.call_count = self.call_count.saturating_add(1);
        if self.listed.contains(&self.call_count)
            || self.content.extend_from_slice(bytes).is_err()
        {
            return Err(fault(&mut self.fault_count));
        }
        Ok(bytes.len())
    }
}

/// A clock that answers `next` and then adds `step`, in seconds, up to the greatest u64.
#[derive(Drop)]
pub struct CountingClock {
    last: u64,
    next: u64,
    step: u64,
}

impl CountingClock {
    ghost use Rattle.ports.specs.Counting.{counting};

    /// A clock whose answer of number k, from 0, is `next + k * step`.
    pub fn new(next: u64, step: u64) -> Self
        ensures { (k : ℕ) → ⟦<CountingClock as Clock>⟧.coming result k ≡ Some (counting next step k) }
    {
        CountingClock {
            last: 0,
            next,
            step,
        }
    }
}

impl Clock for CountingClock {
    ghost use Rattle.ports.specs.Counting.{counting};

    ghost last = { λ c. c.last };

    ghost coming = { λ c k. Some (counting c.next c.step k) };

    ghost by_readings = { λ _ _. ⊤ };

    ghost unread = { λ _. tt };

    ghost reading_goes_on = { λ _ _ _ _ _. tt };

    fn now(&mut self) -> u64 {
        self.last = self.next;
        self.next = self.next.saturating_add(self.step);
        self.last
    }
}

/// A clock that answers its values in seconds, the last one again and again.
#[derive(Drop)]
pub struct ListClock {
    last: u64,
    values: Vec<u64>,
    at: usize,
    ghost at_within: { at < vec_len values },
}

impl ListClock {
    /// A clock of these values, of which there is one at least.
    pub fn new(values: Vec<u64>) -> Self
        requires { 0 < vec_len values }
        ensures { (k : ℕ) →
            ⟦<ListClock as Clock>⟧.coming result k ≡ Some (slice_index values.items (min k (vec_len values - 1))) }
    {
        ListClock {
            last: 0,
            values,
            at: 0,
        }
    }
}

impl Clock for ListClock {
    ghost last = { λ c. c.last };

    ghost coming = { λ c k. Some (slice_index c.values.items (min (c.at + k) (vec_len c.values - 1))) };

    ghost by_readings = { λ _ _. ⊤ };

    ghost unread = { λ _. tt };

    ghost reading_goes_on = { λ _ _ _ _ _. tt };

    fn now(&mut self) -> u64 {
        self.last = self.values[self.at];
        self.at = (self.at + 1).min(self.values.len() - 1);
        self.last
    }
}
