//! Days of several tills, and tills that are answered line by line: gates that hold, and disks that fail.
use crate::runs::{
    DAY, DRAIN, FILLS, Left, SERVE, disk_of, holds_at, image_at, last_moment, listing_of, ran,
    run_with,
};
use agency_port::{Message, PracticeAgency};
use chain_disk::{Fill, MemDisk};
use ports::{Gate, OpenGate};
use record_fields::{Line, Sealed};
use std::alloc::Global;
use std::fmt::Write;
use std::hint::spin_loop;
use std::sync::Wait;
use std::sync::atomic::{AtomicU64, Ordering};
use std::test::Fail;
use std::thread::Threads;
use test_rows::holds;

// Holds one till ahead of each command, for this many looks at most, until another till was answered, or, where that is 0, until the
// sender has noted a line for each of its commands before.
#[derive(Drop)]
struct Holding {
    held: u8,
    until: u8,
    seen: AtomicU64,
    late: AtomicU64,
}

impl Gate for Holding {
    fn before<R: Wait>(&self, _rt: &R, till: u8, serial: u32) {
        if till != self.held {
            return;
        }
        let before = u64::from(serial).saturating_sub(1);
        let due = if self.until == 0 { before } else { 1 };
        for _look in 0..10_000_000u32 {
            if self.seen.load(Ordering::SeqCst) >= due {
                return;
            }
            spin_loop();
        }
        self.late.store(1, Ordering::SeqCst);
    }

    fn after<R>(&self, _rt: &R, till: u8, _serial: u32) {
        if till == self.until {
            self.seen.fetch_add(1, Ordering::SeqCst);
        }
    }

    fn noted<R>(&self, _rt: &R, count: u32) {
        if self.until == 0 {
            self.seen.fetch_add(u64::from(count), Ordering::SeqCst);
        }
    }
}

// The lines with each count of what a till saw left out, and whether each count is at least its own of these and at most this one.
fn without_counts(
    alloc: Global,
    text: &str,
    fewest: [u64; 2],
    most: u64,
) -> Result<(String, bool), Fail> {
    let mut lines = String::new(alloc);
    let mut least = fewest.iter();
    let mut are_within = true;
    for line in text.lines() {
        let (front, saw) = line.split_once(" saw ").unwrap_or((line, ""));
        lines.push_str(front)?;
        lines.push_str("\n")?;
        if !saw.is_empty() {
            let saw: u64 = saw.parse().ok().ok_or("a count")?;
            are_within = are_within && saw <= most && least.next().is_some_and(|n| *n <= saw);
        }
    }
    Ok((lines, are_within))
}

// The script; who is held, and until whom; how few entries each till may see, and how many at most; and what is printed.
type Held = (&'static str, (u8, u8), [u64; 2], u64, &'static str);

const HELD: [Held; 3] = [
    (
        "sale 1 1 A F2 21:10000\nsale 2 1 B F2 21:10000\n",
        (1, 2),
        [2, 1],
        4,
        "till 1 serial 1 taken 2 A-1 CAB8F0C508F22D76A2B294519434381A846DF76E1E08F7810E919A4972E9D140\ntill 1\ntill 2 serial 1 taken 1 B-1 4AA3D671991480BEEB266D93C2CF3AFF772C3F8B5DD2E154B4FF68093E3500CA\ntill 2\n1 alta B-1 01-01-2025 F2 21.00 121.00 N N 4AA3D671991480BEEB266D93C2CF3AFF772C3F8B5DD2E154B4FF68093E3500CA correcto\n2 alta A-1 01-01-2025 F2 21.00 121.00 N N CAB8F0C508F22D76A2B294519434381A846DF76E1E08F7810E919A4972E9D140 correcto\nchain 2 noted 2\n",
    ),
    (
        "sale 1 1 A F2 21:10000\ncancel 2 1 A-1\n",
        (2, 1),
        [1, 2],
        4,
        "till 1 serial 1 taken 1 A-1 D88B42F8D11C4EA2112502EC992F055A7E94F796D67095359B946A4A5B03E616\ntill 1\ntill 2 serial 1 taken 2 A-1 D7E3FEAC06726268788A641ADB7632F969468D128104FD4B798514F066ED78F1\ntill 2\n1 alta A-1 01-01-2025 F2 21.00 121.00 N N D88B42F8D11C4EA2112502EC992F055A7E94F796D67095359B946A4A5B03E616 correcto\n2 anulacion A-1 01-01-2025 N N D7E3FEAC06726268788A641ADB7632F969468D128104FD4B798514F066ED78F1 correcto\nchain 2 noted 2\n",
    ),
    // The second and the third sale wait for a turn of their own, the latter after a pause of the sender's.
    (
        "sale 1 1 A F2 21:10000\nsale 1 2 A F2 21:10000\nsale 1 3 A F2 21:10000\n",
        (1, 0),
        [5, 5],
        6,
        "till 1 serial 1 taken 1 A-1 D88B42F8D11C4EA2112502EC992F055A7E94F796D67095359B946A4A5B03E616\ntill 1 serial 2 taken 2 A-2 4DB9BA37C07D44D4DAFC79742BD454AE86D5C6A354352780573CF06FACADE438\ntill 1 serial 3 taken 3 A-3 8D67231369C8F2A30232EE5EBB99BB2391568F2F51A85DF05CF8129E898F6C8A\ntill 1\n1 alta A-1 01-01-2025 F2 21.00 121.00 N N D88B42F8D11C4EA2112502EC992F055A7E94F796D67095359B946A4A5B03E616 correcto\n2 alta A-2 01-01-2025 F2 21.00 121.00 N N 4DB9BA37C07D44D4DAFC79742BD454AE86D5C6A354352780573CF06FACADE438 correcto\n3 alta A-3 01-01-2025 F2 21.00 121.00 N N 8D67231369C8F2A30232EE5EBB99BB2391568F2F51A85DF05CF8129E898F6C8A correcto\nchain 3 noted 3\n",
    ),
];

// Whether a text is this row's, but for the counts, which are within its bounds.
fn is_text(alloc: Global, text: &str, row: &Held) -> Result<bool, Fail> {
    let (lines, are_within) = without_counts(alloc, text, row.2, row.3)?;
    Ok(are_within && lines.as_str() == row.4)
}

fn asks_after(rt: &(impl AllocGlobal + Threads + Wait + Sync), row: &Held) -> Result<(), Fail> {
    let gate = Holding {
        held: row.1.0,
        until: row.1.1,
        seen: AtomicU64::new(0),
        late: AtomicU64::new(0),
    };
    let disk = disk_of(rt.alloc(), &[], 0)?;
    let agency = PracticeAgency::new(rt.alloc());
    let left = run_with(rt, DAY, row.0, (0, 0), disk, agency, &gate)?;
    let is_done = left.ended.status == 0 && gate.late.load(Ordering::SeqCst) == 0;
    let is_text = is_text(rt.alloc(), left.text.as_str(), row)?;
    holds(is_done && is_text, row.0)
}

#[test]
fn a_till_that_is_held_asks_after_the_other(rt: HostRuntime) -> Result<(), Fail> {
    for row in &HELD {
        asks_after(&rt, row)?;
    }
    Ok(())
}

const TILLS: &str = "sale 1 1 A F2 21:10000\nsale 2 1 B F2 21:10000\nsale 3 1 C F2 21:10000\n";

// The number and the Huella that a text tells of the record at this place.
fn told_at<'a>(
    alloc: Global,
    text: &'a str,
    place: &str,
) -> Result<Option<(&'a str, &'a str)>, Fail> {
    let mark = format!(in alloc; " taken {place} ")?;
    let Some((_, rest)) = text.split_once(mark.as_str()) else {
        return Ok(None);
    };
    let (record, _) = rest.split_once("\n").ok_or("a line")?;
    Ok(Some(record.split_once(" ").ok_or("a Huella")?))
}

fn put_record(told: &mut String, place: &str, record: (&str, &str)) -> Result<(), Fail> {
    let (num, huella) = record;
    write!(
        told,
        "{place} alta {num} 01-01-2025 F2 21.00 121.00 N N {huella}\n"
    )?;
    Ok(())
}

const PLACES: [&str; 3] = ["1", "2", "3"];

// The lines of the records that a text tells as taken, in the order of their places, without their states.
fn told_in(alloc: Global, text: &str) -> Result<String, Fail> {
    let mut told = String::new(alloc);
    for place in &PLACES {
        if let Some(record) = told_at(alloc, text, place)? {
            put_record(&mut told, place, record)?;
        }
    }
    Ok(told)
}

// The lines of the records that a file holds, without their states.
fn held_by(rt: &(impl AllocGlobal + Threads + Wait + Sync), disk: MemDisk) -> Result<String, Fail> {
    let listing = listing_of(rt, disk)?;
    let mut held = String::new(rt.alloc());
    for line in listing.lines() {
        let (record, _) = line.rsplit_once(" ").ok_or("a line")?;
        if !line.starts_with("chain ") {
            held.push_str(record)?;
            held.push_str("\n")?;
        }
    }
    Ok(held)
}

// The lines of the records that the image of a moment holds.
fn held_at(
    rt: &(impl AllocGlobal + Threads + Wait + Sync),
    disk: &MemDisk,
    moment: u64,
    fill: Fill,
) -> Result<String, Fail> {
    match image_at(rt.alloc(), disk, moment, fill)? {
        Some(image) => held_by(rt, image),
        None => Err(Fail::from("an image")),
    }
}

// Whether what is held is what was told, or that and one record.
fn is_all_of(held: &str, told: &str) -> bool {
    match held.strip_prefix(told) {
        Some(more) => more.lines().count() <= 1,
        None => false,
    }
}

// The image of the last moment of a disk, filled so, which holds these records, or these and one. None where it doesn't, or where
// the image of one of the moments before isn't a front of these, nor these and one. As the calls fail in turn, each moment is once
// among the last ones.
fn last_image(
    rt: &(impl AllocGlobal + Threads + Wait + Sync),
    disk: &MemDisk,
    fill: Fill,
    told: &str,
) -> Result<Option<MemDisk>, Fail> {
    let last = last_moment(rt.alloc(), disk)?;
    let mut is_all = false;
    for moment in last.saturating_sub(6)..=last {
        let held = held_at(rt, disk, moment, fill)?;
        is_all = is_all_of(held.as_str(), told);
        if !is_all && !told.starts_with(held.as_str()) {
            return Ok(None);
        }
    }
    if !is_all {
        return Ok(None);
    }
    image_at(rt.alloc(), disk, last, fill)
}

// How many of the records have this Huella.
fn times(pairs: &[(Sealed, Line)], huella: &[u8; 32]) -> u32 {
    let mut count = 0u32;
    for (record, _) in pairs {
        if record.huella == *huella {
            count = count.saturating_add(1);
        }
    }
    count
}

// Whether an agency has processed this many records, none of them twice, in this many sessions.
fn are_once(agency: &PracticeAgency, records: usize, sessions: usize) -> bool {
    let mut begun = 0usize;
    for entry in agency.log() {
        if matches!(entry.message, Message::Begun { .. }) {
            begun = begun.saturating_add(1);
        }
    }
    let pairs = agency.processed();
    let mut is_once = pairs.len() == records && begun == sessions;
    for (record, _) in pairs {
        is_once = is_once && times(pairs, &record.huella) == 1;
    }
    is_once
}

// The image of the last moment that a run of three tills left, where each image has what the run told.
fn file_left(
    rt: &(impl AllocGlobal + Threads + Wait + Sync),
    text: &str,
    disk: &MemDisk,
    fill: Fill,
) -> Result<Option<MemDisk>, Fail> {
    let told = told_in(rt.alloc(), text)?;
    last_image(rt, disk, fill, told.as_str())
}

// How many records a file has, and the chain line where each of them is noted.
fn all_noted(
    rt: &(impl AllocGlobal + Threads + Wait + Sync),
    disk: MemDisk,
) -> Result<(usize, String), Fail> {
    let records = held_by(rt, disk)?.lines().count();
    let chain = format!(in rt.alloc(); "chain {records} noted {records}\n")?;
    Ok((records, chain))
}

// Whether a drain of this file leaves each of its records with the agency, once.
fn are_sent_once(
    rt: &(impl AllocGlobal + Threads + Wait + Sync),
    file: MemDisk,
    agency: PracticeAgency,
) -> Result<bool, Fail> {
    let sessions = if agency.log().is_empty() { 1 } else { 2 };
    let Left {
        ended,
        text,
        disk,
        agency,
    } = run_with(rt, DRAIN, "", (0, 0), file, agency, &OpenGate)?;
    match all_noted(rt, disk) {
        Ok((records, chain)) => Ok(
            ended.status == 0
                && text.ends_with(chain.as_str())
                && are_once(&agency, records, sessions),
        ),
        Err(fail) => Err(fail),
    }
}

// What a run of three tills left, whose disk has failed: whether each record that was told is on each image of the disk, and a drain
// of the last one leaves each record of the file with the agency, once.
fn are_kept(
    rt: &(impl AllocGlobal + Threads + Wait + Sync),
    left: Left<PracticeAgency>,
    fill: Fill,
) -> Result<bool, Fail> {
    let Left {
        text,
        disk,
        agency,
        ..
    } = left;
    match file_left(rt, text.as_str(), &disk, fill) {
        Ok(Some(file)) => are_sent_once(rt, file, agency),
        Ok(None) => Ok(false),
        Err(fail) => Err(fail),
    }
}

// What is told of three sales, in the order of the places.
fn is_told(text: &str, words: &str) -> bool {
    let records = text.split(" taken ").count().saturating_sub(1);
    records == 3
        && text.ends_with("\nchain 3 noted 3\n")
        && text.contains(" saw ") == (words == DAY)
}

// Whether a run's disk failed at this call.
fn fails_at(
    rt: &(impl AllocGlobal + Threads + Wait + Sync),
    words: &str,
    failing: u64,
    fill: Fill,
) -> Result<bool, Fail> {
    let left = ran(rt, words, TILLS, disk_of(rt.alloc(), &[], failing)?)?;
    let is_done = left.ended.status == 0;
    let is_told = if is_done {
        is_told(left.text.as_str(), words)
    } else {
        left.ended.status == 6
    };
    let are_kept = are_kept(rt, left, fill)?;
    holds_at(is_told && are_kept, words, failing)?;
    Ok(!is_done)
}

const COMMANDS: [&str; 2] = [DAY, SERVE];

#[test]
fn a_disk_that_fails_keeps_what_was_told_and_each_record_is_sent_once(
    rt: HostRuntime,
) -> Result<(), Fail> {
    for words in &COMMANDS {
        let mut failed = 0u32;
        for failing in 1..40u64 {
            for fill in &FILLS {
                let fails = fails_at(&rt, words, failing, *fill)?;
                failed = failed.saturating_add(u32::from(fails));
            }
        }
        // An opening makes nine calls, and each of three sales and of one note at least four.
        holds(failed >= 100, words)?;
    }
    Ok(())
}
