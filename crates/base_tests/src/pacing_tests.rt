//! When a submission is due.
use pacing::{Pace, WaitUntil};
use std::test::Fail;
use test_rows::holds;

// A second, how many records wait then, and what is due.
type Due = (&'static str, u64, u32, Result<(), WaitUntil>);

fn are_due(pace: &Pace, rows: &[Due]) -> Result<(), Fail> {
    for (row, now, count, due) in rows {
        holds(pace.due(*now, *count) == *due, row)?;
    }
    Ok(())
}

const FIRST: [Due; 3] = [
    ("a first one", 59, 999, Err(WaitUntil(60))),
    ("a full one", 59, 1000, Ok(())),
    ("at 60", 60, 1, Ok(())),
];

const SENT: [Due; 2] = [
    ("at 104", 104, 1, Err(WaitUntil(105))),
    ("at 105", 105, 1, Ok(())),
];

const AT_THE_END: [Due; 1] = [("at the end", 7, 1, Err(WaitUntil(u64::MAX)))];

#[test]
fn submissions_are_paced() -> Result<(), Fail> {
    let mut pace = Pace::start();
    are_due(&pace, &FIRST)?;
    pace.sent(100);
    pace.told(5);
    are_due(&pace, &SENT)?;
    pace.sent(u64::MAX);
    are_due(&pace, &AT_THE_END)
}
