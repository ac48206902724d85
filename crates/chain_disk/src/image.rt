//! One of the images that a crash may leave, made of the record of a disk in memory.
ghost use Rattle.std.specs.Prelude.{◌≡◌, ◌<◌, ◌≤◌, ◌↔◌, ◌∷◌, List, ℕ, slice_index, IsTrue, IfOk, OnOk, length};
ghost use Rattle.chain_disk.specs.OnDisk.{IsCovered, furthest, pasted};
ghost use Rattle.chain_disk.specs.Image.{IsState, IsStep};
ghost use Rattle.chain_disk.specs.Fill.{IsFilled, IsInDoubt, fill_byte, filled_length};
ghost use Rattle.chain_disk.specs.Memory.{on_disk_by};

use crate::Range;
use crate::event::Event;
use crate::memory::put_over;
use ports::NoMemory;
use std::alloc::{AllocError, Global};

/// What the bytes in doubt are filled with.
#[derive(Clone, Copy, Debug, PartialEq, Eq)]
pub enum Fill {
    /// The bytes of the last sync, at the length that it had.
    Old,
    /// What a read gives, and 0 past its end.
    New,
    /// The value 0.
    Zeros,
    /// The value 1.
    Ones,
}

// What is there, what the last sync made sure of, and what was written since.
#[derive(Drop)]
pub struct State {
    pub content: Vec<u8>,
    pub synced: Vec<u8>,
    pub ranges: Vec<Range>,
}

fn is_covered(ranges: &[Range], i: u64) -> bool
    ensures { IsTrue result ↔ IsCovered ranges.now i }
{
    match ranges {
        [] => false,
        [r, rest @ ..] => {
            if i >= r.at && i - r.at < r.count {
                true
            } else {
                is_covered(rest, i)
            }
        }
    }
}

// The furthest end. One that no memory can hold is lack of memory.
fn far(len: usize, ranges: &[Range]) -> Result<usize, NoMemory>
    ensures { IfOk result (λ end. end ≡ furthest len ranges.now) }
{
    match ranges {
        [] => Ok(len),
        [r, rest @ ..] => match r.at.checked_add(r.count) {
            Some(end) => Ok(far(len, rest)?.max(end as usize)),
            None => Err(NoMemory),
        },
    }
}

fn add_range(ranges: &mut Vec<Range>, at: u64, count: u64) -> Result<(), AllocError>
    ensures { OnOk result (ranges.new.items ≡ record { at = at; count = count } ∷ ranges.old.items) }
{
    ranges.insert(0, Range { at, count })?;
    Ok(())
}

fn step(alloc: Global, state: &mut State, event: &Event) -> Result<(), AllocError>
    ensures { OnOk result (IsStep event.now state.old state.new) }
{
    match event {
        Event::Wrote { at, bytes } => {
            write_over(&mut state.content, *at, bytes)?;
            add_range(&mut state.ranges, *at, bytes.len() as u64)?;
        }
        Event::Tore { at, count } => add_range(&mut state.ranges, *at, *count)?,
        Event::Synced => {
            state.synced = state.content.as_slice().to_vec(alloc)?;
            state.ranges.clear();
        }
        Event::Unsynced => {}
    }
    Ok(())
}

fn write_over(content: &mut Vec<u8>, at: u64, bytes: &[u8]) -> Result<(), AllocError>
    ensures { OnOk result (content.new.items ≡ pasted at bytes.now content.old.items) }
{
    if at >= content.len() as u64 {
        content.extend_from_slice(bytes)?;
        return Ok(());
    }
    content.reserve(bytes.len())?;
    put_over(content, at as usize, bytes);
    Ok(())
}

// The image after these events, so filled.
pub(crate) fn image_of(
    alloc: Global,
    first: &[u8],
    events: &[Event],
    fill: Fill,
) -> Result<Vec<u8>, NoMemory>
    ensures { let held = on_disk_by first.now events.now in
        IfOk result (λ c. IsFilled fill held.content held.now c.items) }
{
    let mut state = State {
        content: first.to_vec(alloc)?,
        synced: first.to_vec(alloc)?,
        ranges: Vec::new(alloc),
    };
    for event in events {
        step(alloc, &mut state, event)?;
    }
    filled(alloc, &state.content, &state.synced, &state.ranges, fill)
}

fn filled(
    alloc: Global,
    content: &[u8],
    synced: &[u8],
    ranges: &[Range],
    fill: Fill,
) -> Result<Vec<u8>, NoMemory>
    ensures { IfOk result (λ c.
        IsFilled fill content.now (record { synced = synced.now; ranges = ranges.now }) c.items) }
{
    let len = image_len(synced.len(), ranges, fill)?;
    let mut c = Vec::new(alloc);
    for i in 0..len {
        c.push(byte_at(content, synced, ranges, fill, i))?;
    }
    Ok(c)
}

fn image_len(synced: usize, ranges: &[Range], fill: Fill) -> Result<usize, NoMemory>
    ensures { IfOk result (λ len. (s : List ℕ) → length s ≡ synced →
        len ≡ filled_length fill (record { synced = s; ranges = ranges.now })) }
{
    match fill {
        Fill::Old => Ok(synced),
        _ => far(synced, ranges),
    }
}

// The byte here, and 0 past the end.
fn byte_or_zero(bytes: &[u8], i: usize) -> u8
    ensures { result ≡ slice_index bytes.now i }
{
    bytes.get(i).copied().unwrap_or(0)
}

fn byte_at(content: &[u8], synced: &[u8], ranges: &[Range], fill: Fill, i: usize) -> u8
    ensures kept { (IsInDoubt (record { synced = synced.now; ranges = ranges.now }) i → ⊥) →
        result ≡ slice_index synced.now i }
    ensures in_doubt { IsInDoubt (record { synced = synced.now; ranges = ranges.now }) i →
        result ≡ fill_byte fill synced.now content.now i }
{
    if i < synced.len() && !is_covered(ranges, i as u64) {
        return synced[i];
    }
    match fill {
        Fill::Old => byte_or_zero(synced, i),
        Fill::New => byte_or_zero(content, i),
        Fill::Zeros => 0,
        Fill::Ones => 1,
    }
}
