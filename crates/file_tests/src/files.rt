//! The bytes of the file were made by another program, and its Huellas are SHA-256 of the field texts by that program.
use audit::audit;
use chain_disk::MemDisk;
use chain_store::{LoadFault, Loaded, load};
use shop_core::AuditEnd;
use std::alloc::Global;
use std::test::Fail;

/// A header, two sales and the closing gate; the gates are at the bytes 19, 100 and 221.
pub const FILE: &[u8; 222] = b"\
\x01VFCHAIN1\x0289890001K\
\x01\x00\x00\x00L\x01\x01\x00\x00\x00\x01\x03A-1\x00\x00Ny\x01\x00\x00\x00\x01\x01\x00\x084\x00\x00\x00\x00\x00\x00'\x10\x00\x00\x00\x00\x00\x00\x00gu\x04\x10\x00<\
\xd8\x8bB\xf8\xd1\x1cN\xa2\x11%\x02\xec\x99/\x05Z~\x94\xf7\x96\xd6p\x955\x9b\x94jJ[\x03\xe6\x16\
\x01\x00\x00\x00t\x01\x01\x00\x00\x00\x02\x03A-2\x00\x00Ny\x01\x00\x00\x00\x01\x01\x01\x03\xe8\x00\x00\x00\x00\x00\x00\x03\xe8\x00\x00\x01\x03A-1\x00\x00Ny\
\xd8\x8bB\xf8\xd1\x1cN\xa2\x11%\x02\xec\x99/\x05Z~\x94\xf7\x96\xd6p\x955\x9b\x94jJ[\x03\xe6\x16\
\x00\x00\x00\x00gu\x04\x10\x00<\
C\xabz\x8di\x98\xf4\x96-\x87\xf4\xc4\xf3\xc7\xa7\x1f\xa9\x10\xca\xb9\x82\xcd\xb1\xe0\x8a\xe6\xbf\x91\x8b\xaewc\
\x00";

// What a reader finds: this many records, or a damage at a byte.
#[derive(Clone, Copy, PartialEq, Eq)]
enum Found {
    Records(u32),
    Damage(u64),
}

/// A disk that holds these bytes, and fails at the call of this number, from 1.
pub fn disk_of(alloc: Global, bytes: &[u8], failing: u64) -> Result<MemDisk, Fail> {
    let failing = Vec::from_slice(alloc, &[failing])?;
    Ok(MemDisk::new(alloc, Vec::from_slice(alloc, bytes)?, failing))
}

/// Fails a test at this number of what is told where what it holds of it isn't so.
pub fn holds_at(is: bool, told: &str, number: u64) -> Result<(), Fail> {
    if is {
        Ok(())
    } else {
        Err(Fail::new(format_args!("at {told} {number}")))
    }
}

fn loaded(alloc: Global, bytes: &[u8]) -> Result<Found, Fail> {
    let mut disk = disk_of(alloc, bytes, 0)?;
    match load(alloc, &mut disk) {
        Ok(Loaded::NotBegun) => Ok(Found::Records(0)),
        Ok(Loaded::Begun { state, .. }) => Ok(Found::Records(state.records())),
        Err(LoadFault::Damaged { at }) => Ok(Found::Damage(at)),
        Err(_) => Err(Fail::from("a file that is read")),
    }
}

fn audited(alloc: Global, bytes: &[u8]) -> Result<Found, Fail> {
    let mut disk = disk_of(alloc, bytes, 0)?;
    match audit(alloc, &mut disk) {
        Ok(AuditEnd::Sound { records, .. }) => Ok(Found::Records(records)),
        Ok(AuditEnd::Broken { at, .. }) => Ok(Found::Damage(at)),
        Err(_) => Err(Fail::from("a file that is audited")),
    }
}

// What is found of the file with the byte at this place changed. No Huella covers a till's serials: one of the second sale may be
// any that is greater than the first one's. A gate that isn't 1 closes the file, and a closing gate that is 1 opens no frame.
fn changed(at: usize, byte: u8) -> Found {
    match at {
        0 => Found::Damage(0),
        1..=8 => Found::Damage(1),
        9 => Found::Damage(9),
        10..=18 => Found::Damage(10),
        19 => Found::Records(0),
        26..=28 => Found::Damage(100),
        29 => Found::Damage(if byte == 0 { 19 } else { 100 }),
        20..=99 => Found::Damage(19),
        100 => Found::Records(1),
        107..=110 => Found::Records(2),
        101..=220 => Found::Damage(100),
        _ => {
            if byte == 1 {
                Found::Damage(221)
            } else {
                Found::Records(2)
            }
        }
    }
}

// Both readers find this of a file of these bytes.
fn is_found(alloc: Global, bytes: &[u8], wanted: Found) -> Result<bool, Fail> {
    Ok(loaded(alloc, bytes)? == wanted && audited(alloc, bytes)? == wanted)
}

// The file with these bits of the byte at this place flipped.
fn flipped(at: usize, bits: u8) -> Result<([u8; 222], u8), Fail> {
    let mut file = *FILE;
    let place = file.get_mut(at).ok_or("a byte of the file")?;
    *place ^= bits;
    let byte = *place;
    Ok((file, byte))
}

const BITS: [u8; 3] = [1, 0x80, 0xff];

#[test]
fn each_byte_of_a_file_changes_in_turn(rt: HostRuntime) -> Result<(), Fail> {
    let alloc = rt.alloc();
    for bits in BITS {
        for at in 0..222usize {
            let (file, byte) = flipped(at, bits)?;
            let is_found = is_found(alloc, &file, changed(at, byte))?;
            holds_at(is_found, "byte", at as u64)?;
        }
    }
    Ok(())
}

// What is found of this many first bytes of the file.
fn cut_to(left: usize) -> Found {
    match left {
        0..=1 => Found::Records(0),
        2..=19 => Found::Damage(left as u64),
        20..=100 => Found::Damage(19),
        101..=221 => Found::Damage(100),
        _ => Found::Records(2),
    }
}

#[test]
fn a_file_is_cut_at_each_byte(rt: HostRuntime) -> Result<(), Fail> {
    let alloc = rt.alloc();
    for left in 0..223usize {
        let front = FILE.get(..left).ok_or("a front of the file")?;
        let is_found = is_found(alloc, front, cut_to(left))?;
        holds_at(is_found, "length", left as u64)?;
    }
    Ok(())
}
