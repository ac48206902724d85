//! A disk in memory. It keeps a record of its writes and syncs, so that it answers for every moment.
ghost use Rattle.std.specs.Prelude.{◌≡◌, ◌<◌, ◌≤◌, ◌+◌, [], ◌∷◌, ◌++◌, true, MatchOption, vec_len, vec_capacity, IsTrue, IsErr};
ghost use Rattle.std.specs.Prelude.{Contains, ◌↔◌, length, IfOk, OnOk, OnErr};
ghost use Rattle.ports.specs.Causes.{HasCause};
ghost use Rattle.chain_disk.specs.OnDisk.{pasted, IsRead, later, synced, written, IsSyncFailed, IsWriteFailed};
ghost use Rattle.chain_disk.specs.Memory.{on_disk_by, content_of, fresh};
ghost use Rattle.ports.specs.Memory.{counted_up};
ghost use Rattle.chain_disk.specs.MemoryReads.{memory_reads};
ghost use Rattle.chain_disk.specs.declared.event.Event.TheVariants.{Wrote};

use crate::event::Event;
use crate::image::image_of;
use crate::{Disk, Fill};
use ports::{Failed, Faults, NoMemory};
use std::alloc::{AllocError, Global};

// Why a call fails: its number is listed, or what it would record finds no room.
const LISTED: &str = "the call is listed";

const NO_ROOM: &str = "no memory";

/// A disk in memory. It tells what it holds and what a crash at each moment since it was made may
/// leave. Moment 0 is before its first write or sync, and each one that it records is one moment more.
/// A listed failure of a write or sync is recorded too, for certain where the call before it was a write or sync
/// that succeeded, else where memory lasts.
#[derive(Drop)]
pub struct MemDisk {
    alloc: Global,
    first: Vec<u8>,
    current: Option<Vec<u8>>,
    events: Vec<Event>,
    failing: Vec<u64>,
    calls: u64,
    faults: Faults,
    ghost content: { content_of first.items current ≡ (on_disk_by first.items events.items).content },
}

impl MemDisk {
    ghost use Rattle.chain_disk.specs.MemDisk.{on_disk_of, failing_of, calls_of, faults_of, latest, IsImageAt};

    /// A disk with these bytes and nothing pending. The calls with these numbers, from 1, fail.
    pub fn new(alloc: Global, bytes: Vec<u8>, failing: Vec<u64>) -> MemDisk
        ensures told { on_disk_of result ≡ fresh bytes.items }
        ensures failing { failing_of result ≡ failing.items }
        ensures calls { calls_of result ≡ 0 }
        ensures faults { faults_of result ≡ 0 }
    {
        MemDisk {
            alloc,
            first: bytes,
            current: None,
            events: Vec::new(alloc),
            failing,
            calls: 0,
            faults: Faults::none(),
        }
    }

    /// The image of a moment with every byte in doubt filled so, at the longest length, or at the synced
    /// one for `Old`. None where the moment is not yet.
    pub fn image(&self, alloc: Global, moment: u64, fill: Fill) -> Result<Option<MemDisk>, NoMemory>
        //= An image is exactly the one that was asked for, which is one that a crash at that moment may leave.
        //= No body: tests of crashes read the images that it gives
        ensures { IfOk result (λ image. MatchOption image
            (latest self.now < moment)
            (λ disk. IsImageAt self.now moment fill disk)) }
    {
        if moment > self.events.len() as u64 {
            return Ok(None);
        }
        let bytes = image_of(alloc, &self.first, &self.events[..moment as usize], fill)?;
        Ok(Some(MemDisk::new(alloc, bytes, Vec::new(alloc))))
    }
}

// Whether this call fails, which it counts.
fn next_fails(calls: &mut u64, failing: &[u64]) -> bool
    ensures fails { IsTrue result ↔ Contains failing.now calls.new }
    ensures counted { calls.new ≡ counted_up calls.old }
{
    *calls = calls.saturating_add(1);
    failing.contains(calls)
}

// The bytes of what is there now.
fn bytes_of<'a>(first: &'a [u8], current: &'a Option<Vec<u8>>) -> &'a [u8]
    ensures { result.now ≡ content_of first.now current.now }
{
    match current {
        None => first,
        Some(bytes) => bytes,
    }
}

// Records an event, or finds no room for it and for that of a failure after it.
fn note(events: &mut Vec<Event>, event: Event) -> Result<(), AllocError>
    ensures ok { OnOk result (events.new.items ≡ events.old.items ++ event ∷ []) }
    ensures room { OnOk result (vec_len events.new < vec_capacity events.new) }
    ensures err { OnErr result (events.new.items ≡ events.old.items) }
{
    events.reserve(2)?;
    events.push(event)?;
    Ok(())
}

// Records a failure, or finds no room for it.
fn note_failure(events: &mut Vec<Event>, event: Event) -> Result<(), AllocError>
    ensures ok { OnOk result (events.new.items ≡ events.old.items ++ event ∷ []) }
    ensures err { OnErr result (events.new.items ≡ events.old.items) }
    ensures full { OnErr result (vec_capacity events.old ≤ vec_len events.old) }
{
    events.push(event)?;
    Ok(())
}

// Records a write and makes it, or finds no room and changes nothing.
fn note_write(
    alloc: Global,
    first: &[u8],
    current: &mut Option<Vec<u8>>,
    events: &mut Vec<Event>,
    at: u64,
    bytes: &[u8],
) -> Result<(), AllocError>
    requires { at ≤ length (content_of first.now current.old) }
    ensures content { OnOk result
        (content_of first.now current.new ≡ pasted at bytes.now (content_of first.now current.old)) }
    ensures event { OnOk result ((v : _) × (v.items ≡ bytes.now)
        × (events.new.items ≡ events.old.items ++ Wrote at v ∷ [])) }
    ensures content_err { OnErr result
        (content_of first.now current.new ≡ content_of first.now current.old) }
    ensures event_err { OnErr result (events.new.items ≡ events.old.items) }
    ensures room { OnOk result (vec_len events.new < vec_capacity events.new) }
{
    let copy = bytes.to_vec(alloc)?;
    if current.is_none() {
        *current = Some(first.to_vec(alloc)?);
    }
    if let Some(content) = current {
        content.reserve(bytes.len())?;
        note(events, Event::Wrote { at, bytes: copy })?;
        put_over(content, at as usize, bytes);
    }
    Ok(())
}

// Puts these bytes over what is there and past the end, where there is room.
pub(crate) fn put_over(content: &mut Vec<u8>, at: usize, bytes: &[u8])
    requires within { at ≤ length content.old.items }
    requires room { vec_len content.old + length bytes.now ≤ vec_capacity content.old }
    ensures { content.new.items ≡ pasted at bytes.now content.old.items }
{
    let over = (content.len() - at).min(bytes.len());
    content.as_mut_slice()[at..at + over].copy_from_slice(&bytes[..over]);
    if over < bytes.len() {
        let _ = content.extend_from_slice(&bytes[over..]);
    }
}

// As much as there is from this place on.
fn fill(content: &[u8], at: u64, buf: &mut [u8]) -> usize
    ensures fits { result ≤ length buf.old }
    ensures bytes { IsRead content.now at result buf.old buf.new }
{
    if at >= content.len() as u64 {
        return 0;
    }
    let rest = &content[at as usize..];
    let n = rest.len().min(buf.len());
    buf[..n].copy_from_slice(&rest[..n]);
    n
}

impl Disk for MemDisk {
    ghost use Rattle.chain_disk.specs.MemDisk.{on_disk_of, faults_of, room_of, torn, FailsNext, IsOneCall, IsRecorded};

    ghost tells = { true };

    ghost on_disk = { on_disk_of };

    ghost faults = { faults_of };

    ghost reads_an_image = { λ m tells. memory_reads m.first.items m.events.items };

    ghost few_faults = { λ m. m.faults.few };

    fn len(&mut self) -> Result<u64, Failed>
        ensures same { on_disk_of self.new ≡ on_disk_of self.old }
        ensures length { IfOk result (λ n. IsTrue true → n ≡ length (on_disk_of self.old).content) }
        ensures cause { HasCause (faults_of self.old) (faults_of self.new) result }
        ensures exactly { IsErr result ↔ FailsNext self.old }
        ensures room { room_of self.new ≡ room_of self.old }
        ensures call { IsOneCall self.old self.new result }
    {
        if next_fails(&mut self.calls, &self.failing) {
            return Err(self.faults.raise(LISTED));
        }
        Ok(bytes_of(&self.first, &self.current).len() as u64)
    }

    fn read_at(&mut self, at: u64, buf: &mut [u8]) -> Result<usize, Failed>
        ensures same { on_disk_of self.new ≡ on_disk_of self.old }
        ensures fits { IfOk result (λ n. n ≤ length buf.old) }
        ensures bytes { IfOk result (λ n. IsTrue true →
            IsRead (on_disk_of self.old).content at n buf.old buf.new) }
        ensures cause { HasCause (faults_of self.old) (faults_of self.new) result }
        ensures exactly { IsErr result ↔ FailsNext self.old }
        ensures room { room_of self.new ≡ room_of self.old }
        ensures call { IsOneCall self.old self.new result }
    {
        if next_fails(&mut self.calls, &self.failing) {
            return Err(self.faults.raise(LISTED));
        }
        Ok(fill(bytes_of(&self.first, &self.current), at, buf))
    }

    fn write_at(&mut self, at: u64, bytes: &[u8]) -> Result<(), Failed>
        requires { IsTrue true → at ≤ length (on_disk_of self.old).content }
        ensures ok { OnOk result (IsTrue true →
            on_disk_of self.new ≡ written at bytes.now (on_disk_of self.old)) }
        ensures err { OnErr result (IsTrue true →
            IsWriteFailed at (length bytes.now) (on_disk_of self.old) (on_disk_of self.new)) }
        ensures cause { HasCause (faults_of self.old) (faults_of self.new) result }
        ensures listed { FailsNext self.old → IsErr result }
        //= A write of the disk in memory that fails leaves a torn range, wherever there is room for its record.
        ensures recorded { FailsNext self.old →
            IsRecorded self.old self.new (torn at (length bytes.now) (on_disk_of self.old)) }
        // The failure of the next call finds room.
        ensures room { OnOk result (0 < room_of self.new) }
        // Lack of memory changes nothing but the counts.
        ensures no_room { (FailsNext self.old → ⊥) →
            OnErr result (on_disk_of self.new ≡ on_disk_of self.old) }
        //= The count of faults of the disk in memory rises in exactly the calls that fail.
        //= No body: tests with lists of failing calls compare it
        ensures call { IsOneCall self.old self.new result }
    {
        if next_fails(&mut self.calls, &self.failing) {
            let count = bytes.len() as u64;
            let _ = note_failure(&mut self.events, Event::Tore { at, count });
            return Err(self.faults.raise(LISTED));
        }
        match note_write(
            self.alloc,
            &self.first,
            &mut self.current,
            &mut self.events,
            at,
            bytes,
        ) {
            Ok(()) => Ok(()),
            Err(_) => Err(self.faults.raise(NO_ROOM)),
        }
    }

    fn sync(&mut self) -> Result<(), Failed>
        ensures ok { OnOk result (IsTrue true → on_disk_of self.new ≡ synced (on_disk_of self.old)) }
        ensures err { OnErr result (IsTrue true → IsSyncFailed (on_disk_of self.old) (on_disk_of self.new)) }
        ensures cause { HasCause (faults_of self.old) (faults_of self.new) result }
        ensures listed { FailsNext self.old → IsErr result }
        //= A sync of the disk in memory that fails settles nothing, wherever there is room for its record.
        ensures recorded { FailsNext self.old →
            IsRecorded self.old self.new (later (on_disk_of self.old)) }
        // The failure of the next call finds room.
        ensures room { OnOk result (0 < room_of self.new) }
        // Lack of memory changes nothing but the counts.
        ensures no_room { (FailsNext self.old → ⊥) →
            OnErr result (on_disk_of self.new ≡ on_disk_of self.old) }
        ensures call { IsOneCall self.old self.new result }
    {
        if next_fails(&mut self.calls, &self.failing) {
            let _ = note_failure(&mut self.events, Event::Unsynced);
            return Err(self.faults.raise(LISTED));
        }
        match note(&mut self.events, Event::Synced) {
            Ok(()) => Ok(()),
            Err(_) => Err(self.faults.raise(NO_ROOM)),
        }
    }

    fn faults(&self) -> u64 {
        self.faults.count()
    }
}
