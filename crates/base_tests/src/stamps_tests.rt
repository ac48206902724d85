//! The days of the change of clocks, the ranges of moments, and days counted from 1970.
use jiff::Timestamp;
use stamps::*;
use std::test::Fail;
use test_rows::holds;

// Seconds since 1970, the moment, and its offset in seconds.
type Moment = (u64, &'static str, i32);

const MOMENTS: [Moment; 6] = [
    (1_735_722_000, "2025-01-01T10:00:00+01:00", 3600),
    (1_743_296_399, "2025-03-30T01:59:59+01:00", 3600),
    (1_743_296_400, "2025-03-30T03:00:00+02:00", 7200),
    (1_761_440_399, "2025-10-26T02:59:59+02:00", 7200),
    (1_761_440_400, "2025-10-26T02:00:00+01:00", 3600),
    (1_735_686_000, "2025-01-01T00:00:00+01:00", 3600),
];

#[test]
fn the_zone_changes_twice_a_year() -> Result<(), Fail> {
    let zone = zone()?;
    for (seconds, text, offset) in &MOMENTS {
        let instant = Timestamp::from_second(*seconds as i64)?;
        holds(zone.to_offset(instant).seconds() == *offset, text)?;
    }
    Ok(())
}

// Seconds since 1970, an offset in minutes, and whether they make a stamp.
const STAMPS: [(&str, u64, i16, bool); 6] = [
    ("2024 at 60", 1_704_067_200, 60, true),
    ("2024 at 120", 1_704_067_200, 120, true),
    ("2024 at 0", 1_704_067_200, 0, false),
    ("2024 at -60", 1_704_067_200, -60, false),
    ("before 2024 at 60", 1_704_067_199, 60, false),
    ("2100 at 60", 4_102_444_800, 60, false),
];

#[test]
fn stamps_have_their_ranges() -> Result<(), Fail> {
    for (row, seconds, offset, taken) in &STAMPS {
        holds(Stamp::new(*seconds, *offset).is_some() == *taken, row)?;
    }
    Ok(())
}

// A day, and how many days it comes after the first of 1970.
type Counted = (&'static str, u32);

const DAYS: [Counted; 3] = [
    ("01-01-1970", 0),
    ("29-02-2024", 19_782),
    ("31-12-2100", 47_846),
];

fn is_counted(row: &Counted) -> bool {
    match Day::read(row.0) {
        Some(day) => day.get() == row.1 && Day::of(day.date()) == Some(day),
        None => false,
    }
}

#[test]
fn days_are_counted_from_1970() -> Result<(), Fail> {
    for row in &DAYS {
        holds(is_counted(row), row.0)?;
    }
    let is_last = Day::new(47_846) == Some(Day::last()) && Day::new(47_847).is_none();
    holds(is_last && last_sunday(2025, 10) == 20_387, "the last ones")
}
