//! Numbers by series, and whose series a number is of.
use series::*;
use std::test::Fail;
use test_rows::holds;

// A series, a place in it, and the number that is made of both.
type Numbered = (&'static str, u32, &'static str);

const NUMBERS: [Numbered; 3] = [
    ("T1", 1, "T1-1"),
    ("T1", 120, "T1-120"),
    ("T1", 99_999_999, "T1-99999999"),
];

// The number of this place in a series, where there is one.
fn made(series: &str, n: u32) -> Option<NumSerie> {
    if n < 1 || n > 99_999_999 {
        return None;
    }
    Some(number(&SeriesName::read(series)?, n))
}

fn is_made(row: &Numbered) -> bool {
    match made(row.0, row.1) {
        Some(number) => number.as_slice() == row.2.as_bytes(),
        None => false,
    }
}

// A number, and its series.
const SERIES: [(&str, &str); 3] = [("T1-120", "T1"), ("A-B-7", "A-B"), ("G33", "")];

fn is_of(number: &str, series: &str) -> bool {
    match NumSerie::read(number) {
        Some(number) => number.series() == series.as_bytes(),
        None => false,
    }
}

#[test]
fn numbers_are_named_after_their_series() -> Result<(), Fail> {
    for row in &NUMBERS {
        holds(is_made(row), row.2)?;
    }
    for (number, series) in &SERIES {
        holds(is_of(number, series), number)?;
    }
    Ok(())
}
