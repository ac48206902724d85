//! Files of version 1 that are moved to new files while a disk fails. The bytes were made by another program.
use crate::files::{disk_of, holds_at};
use chain_disk::{Disk, Fill, MemDisk};
use chain_store::OpenCause;
use parties::Nif;
use ports::CountingClock;
use recovery::{MoveCause, MoveFault, migrate, open_store};
use std::alloc::Global;
use std::test::Fail;

const FILLS: [Fill; 4] = [Fill::Old, Fill::New, Fill::Zeros, Fill::Ones];

// A header, a sale, and the closing gate at byte 100.
const FILE: &[u8; 101] = b"\
\x01VFCHAIN1\x0289890001K\
\x01\x00\x00\x00L\x01\x01\x00\x00\x00\x01\x03A-1\x00\x00Ny\x01\x00\x00\x00\x01\x01\x00\x084\x00\x00\x00\x00\x00\x00'\x10\x00\x00\x00\x00\x00\x00\x00gu\x04\x10\x00<\
\xd8\x8bB\xf8\xd1\x1cN\xa2\x11%\x02\xec\x99/\x05Z~\x94\xf7\x96\xd6p\x955\x9b\x94jJ[\x03\xe6\x16\
\x00";

// The same in version 1, with the closing gate at byte 97.
const OLD: &[u8; 98] = b"\
\x01VFCHAIN1\x0189890001K\
\x01\x00\x00\x00I\x01\x01\x00\x00\x00\x01\x03A-1\x00\x00Ny\x01\x00\x00\x00\x01\x00\x00\x00\x00\x00\x00\x00'\x10\x00\x00\x00\x00\x00\x00\x00gu\x04\x10\x00<\
\xd8\x8bB\xf8\xd1\x1cN\xa2\x11%\x02\xec\x99/\x05Z~\x94\xf7\x96\xd6p\x955\x9b\x94jJ[\x03\xe6\x16\
\x00";

// Why a file wasn't moved, None where it was, and the new disk.
fn moved(alloc: Global, old: &mut MemDisk, new: MemDisk) -> (Option<MoveCause>, MemDisk) {
    match migrate(alloc, old, new) {
        Ok(new) => (None, new),
        Err(MoveFault { cause, new }) => (Some(cause), new),
    }
}

// What a crash may leave of a new disk, once it is opened.
#[derive(Clone, Copy, Debug, PartialEq, Eq)]
enum Found {
    NotBegun,
    Unfinished,
    Whole,
}

fn is_whole(mut disk: MemDisk) -> Result<bool, Fail> {
    let mut room = [0; 101];
    Ok(disk.read_at(0, &mut room)? == 101 && room == *FILE)
}

// How a disk opens.
fn opens_as(alloc: Global, disk: MemDisk) -> Result<Found, Fail> {
    let issuer = Nif::read("89890001K").ok().ok_or("a tax number")?;
    match open_store(alloc, disk, CountingClock::new(0, 0), &issuer) {
        Ok(store) if store.state().records() == 0 => Ok(Found::NotBegun),
        Ok(_) => Ok(Found::Whole),
        Err(fault) => match fault.cause {
            OpenCause::Damaged { at: 0 } => Ok(Found::Unfinished),
            _ => Err(Fail::from("a file that opens, or is unfinished")),
        },
    }
}

// How the new disk opens at a moment, filled so. None after its last moment. What isn't whole is moved again, and is whole then.
fn found_at(alloc: Global, new: &MemDisk, moment: u64, fill: Fill) -> Result<Option<Found>, Fail> {
    let Some(image) = new.image(alloc, moment, fill)? else {
        return Ok(None);
    };
    let again = new.image(alloc, moment, fill)?.ok_or("the image again")?;
    let found = opens_as(alloc, image)?;
    let (cause, after) = moved(alloc, &mut disk_of(alloc, OLD, 0)?, again);
    let is_taken = matches!(cause, Some(MoveCause::Occupied { .. }));
    if !is_whole(after)? || is_taken != (found == Found::Whole) || (!is_taken && cause.is_some()) {
        return Err(Fail::from("a second move that ends"));
    }
    Ok(Some(found))
}

// Whether each image of a new disk is in order, and those of its last moment are whole where the file was moved.
fn is_safe(alloc: Global, new: &MemDisk, is_moved: bool) -> Result<bool, Fail> {
    for fill in FILLS {
        let mut last = Found::NotBegun;
        for moment in 0..40u64 {
            match found_at(alloc, new, moment, fill)? {
                Some(found) => last = found,
                None => break,
            }
        }
        if is_moved && last != Found::Whole {
            return Ok(false);
        }
    }
    Ok(true)
}

// What an earlier migration left, of another chain that was longer.
fn longer(alloc: Global) -> Result<Vec<u8>, Fail> {
    let mut front = *FILE;
    front[0] = 0;
    front[100] = 1;
    let mut bytes = Vec::from_slice(alloc, &front)?;
    bytes.resize(140, 1)?;
    Ok(bytes)
}

// Moves the old file to a new disk that has these bytes before, while the call of this number of one of the disks fails.
fn moves_at(alloc: Global, of_old: u64, of_new: u64, before: &[u8]) -> Result<(), Fail> {
    let call = of_old.max(of_new);
    let mut old = disk_of(alloc, OLD, of_old)?;
    let (cause, new) = moved(alloc, &mut old, disk_of(alloc, before, of_new)?);
    let wanted = match (old.faults(), new.faults()) {
        (0, 0) => None,
        (0, _) => Some(MoveCause::NewFault),
        _ => Some(MoveCause::OldFault),
    };
    holds_at(cause == wanted, "call", call)?;
    holds_at(call != 1 || cause.is_some(), "call", call)?;
    holds_at(call != 39 || cause.is_none(), "call", call)?;
    holds_at(is_safe(alloc, &new, cause.is_none())?, "call", call)?;
    let is_kept = old.image(alloc, 1, Fill::New)?.is_none();
    holds_at(is_kept, "call", call)
}

#[test]
fn each_call_of_a_migration_fails_in_turn(rt: HostRuntime) -> Result<(), Fail> {
    let alloc = rt.alloc();
    let longer = longer(alloc)?;
    for call in 1..40u64 {
        moves_at(alloc, call, 0, &[])?;
        moves_at(alloc, 0, call, &[])?;
        moves_at(alloc, call, 0, &longer)?;
        moves_at(alloc, 0, call, &longer)?;
    }
    Ok(())
}
