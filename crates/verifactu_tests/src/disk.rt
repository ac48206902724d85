//! A chain whose disk fails at each call in turn.
use crate::runs::{
    CHAIN, FILLS, ONE, TWO, disk_of, holds_at, image_at, last_moment, listing_of, ran,
};
use chain_disk::{Fill, MemDisk};
use std::sync::Wait;
use std::test::Fail;
use std::thread::Threads;

// What is listed of none, one and both of two sales.
const NONE: &str = "chain 0 noted 0\n";

const FIRST: &str =
    "1 alta A-1 01-01-2025 F2 21.00 121.00 N N D88B42F8D11C4EA2112502EC992F055A7E94F796D67095359B946A4A5B03E616 pending\nchain 1 noted 0\n";

const BOTH: &str =
    "1 alta A-1 01-01-2025 F2 21.00 121.00 N N D88B42F8D11C4EA2112502EC992F055A7E94F796D67095359B946A4A5B03E616 pending\n2 alta A-2 01-01-2025 F2 21.00 121.00 N N 4DB9BA37C07D44D4DAFC79742BD454AE86D5C6A354352780573CF06FACADE438 pending\nchain 2 noted 0\n";

// The moment from which on the last sale of this script is acknowledged: the last one of a run that takes it. No moment is so
// late where it isn't taken.
fn told_at(
    rt: &(impl AllocGlobal + Threads + Wait + Sync),
    script: &str,
    failing: u64,
) -> Result<u64, Fail> {
    let left = ran(rt, CHAIN, script, disk_of(rt.alloc(), &[], failing)?)?;
    if left.ended.status != 0 {
        return Ok(u64::MAX);
    }
    last_moment(rt.alloc(), &left.disk)
}

// How many records an image has.
fn records_on(rt: &(impl AllocGlobal + Threads + Wait + Sync), disk: MemDisk) -> Result<u64, Fail> {
    let listing = listing_of(rt, disk)?;
    let text = listing.as_str();
    if text == NONE {
        Ok(0)
    } else if text == FIRST {
        Ok(1)
    } else if text == BOTH {
        Ok(2)
    } else {
        Err(Fail::from("a front of the two records"))
    }
}

// How many records the image of a moment has, filled so.
fn records_at(
    rt: &(impl AllocGlobal + Threads + Wait + Sync),
    disk: &MemDisk,
    moment: u64,
    fill: Fill,
) -> Result<u64, Fail> {
    match image_at(rt.alloc(), disk, moment, fill)? {
        Some(image) => records_on(rt, image),
        None => Err(Fail::from("an image")),
    }
}

// Whether each image of each moment opens with the records that were acknowledged by then, or those and one.
fn keeps_what_was_told(
    rt: &(impl AllocGlobal + Threads + Wait + Sync),
    disk: &MemDisk,
    failing: u64,
) -> Result<bool, Fail> {
    let first = told_at(rt, ONE, failing)?;
    let second = told_at(rt, TWO, failing)?;
    for moment in 0..=last_moment(rt.alloc(), disk)? {
        let fewest = u64::from(first <= moment).saturating_add(u64::from(second <= moment));
        for fill in &FILLS {
            let records = records_at(rt, disk, moment, *fill)?;
            if records < fewest || records > fewest.saturating_add(1) {
                return Ok(false);
            }
        }
    }
    Ok(true)
}

// The first and the last of the calls that fail in turn, the status, and what is printed: an opening makes nine calls, and a sale
// four.
type Calls = (u64, u64, u8, &'static str);

const CALLS: [Calls; 4] = [
    (1, 9, 6, ""),
    (
        10,
        13,
        6,
        "till 1 serial 1 fault disk\ntill 1 serial 2 fault stopped 1\nchain 0 noted 0\n",
    ),
    (
        14,
        17,
        6,
        "till 1 serial 1 taken 1 A-1 D88B42F8D11C4EA2112502EC992F055A7E94F796D67095359B946A4A5B03E616\ntill 1 serial 2 fault disk\n1 alta A-1 01-01-2025 F2 21.00 121.00 N N D88B42F8D11C4EA2112502EC992F055A7E94F796D67095359B946A4A5B03E616 pending\nchain 1 noted 0\n",
    ),
    (
        18,
        18,
        0,
        "till 1 serial 1 taken 1 A-1 D88B42F8D11C4EA2112502EC992F055A7E94F796D67095359B946A4A5B03E616\ntill 1 serial 2 taken 2 A-2 4DB9BA37C07D44D4DAFC79742BD454AE86D5C6A354352780573CF06FACADE438\n1 alta A-1 01-01-2025 F2 21.00 121.00 N N D88B42F8D11C4EA2112502EC992F055A7E94F796D67095359B946A4A5B03E616 pending\n2 alta A-2 01-01-2025 F2 21.00 121.00 N N 4DB9BA37C07D44D4DAFC79742BD454AE86D5C6A354352780573CF06FACADE438 pending\nchain 2 noted 0\n",
    ),
];

fn fails_at(
    rt: &(impl AllocGlobal + Threads + Wait + Sync),
    failing: u64,
    row: &Calls,
) -> Result<(), Fail> {
    let left = ran(rt, CHAIN, TWO, disk_of(rt.alloc(), &[], failing)?)?;
    let is_told = left.ended.status == row.2 && left.text.as_str() == row.3;
    let is_kept = keeps_what_was_told(rt, &left.disk, failing)?;
    holds_at(is_told && is_kept, CHAIN, failing)
}

#[test]
fn each_call_of_the_disk_fails_in_turn(rt: HostRuntime) -> Result<(), Fail> {
    for row in &CALLS {
        for failing in row.0..=row.1 {
            fails_at(&rt, failing, row)?;
        }
    }
    Ok(())
}
