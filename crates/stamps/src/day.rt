//! Days from 01-01-1970 to 31-12-2100.
ghost use Rattle.std.specs.Prelude.{◌≡◌, ℕ, ◌≤◌, ◌↔◌, IsSome, IfSome, IfNone, Some, ◌≢◌};
ghost use Rattle.std.specs.Int.{IsInRange};
ghost use Rattle.stamps.specs.Day.{last_day, date_at};
ghost use Rattle.stamps.specs.Text.{date_text_of};

use crate::civil::{CivilDate, day_number, to_jiff};
use crate::digits::{read_two_digits, two_digits};
use std::marker::Model;

/// A day, as the number of days since 01-01-1970, up to 31-12-2100.
#[derive(Clone, Copy, Debug, PartialEq, Eq, PartialOrd, Ord, Hash)]
pub struct Day {
    days: u32,
}

impl Model for Day {
    ghost Value = { ℕ };

    ghost view = { λ d. d.days };

    ghost invariant = { λ d. d.days ≤ last_day };

    ghost inverse = { λ n. record { days = n } };
}

/// 31-12-2100.
const LAST_DAY: u32 = 47_846;

impl Day {
    /// The day that many days after 01-01-1970, `None` exactly past 31-12-2100.
    pub fn new(days: u32) -> Option<Day>
        ensures valid { IsSome result ↔ (days ≤ last_day) }
        ensures value { IfSome result (λ d. d ≡ days) }
    {
        if days <= LAST_DAY {
            Some(Day { days })
        } else {
            None
        }
    }

    // The day of a number that is known to be in range.
    pub(crate) fn at_most_last(days: u32) -> Day
        requires { days ≤ last_day }
        ensures { result ≡ days }
    {
        Day { days }
    }

    /// The days since 01-01-1970.
    pub fn get(self) -> u32
        ensures value { result ≡ self }
        ensures bound { result ≤ last_day }
    {
        self.days
    }

    /// Its date.
    pub fn date(self) -> CivilDate
        ensures value { result ≡ date_at self }
        ensures year { IsInRange 1970 2100 result.year }
        ensures month { IsInRange 1 12 result.month }
        ensures day { IsInRange 1 31 result.day }
    {
        CivilDate::at(self.days)
    }
}

impl Day {
    ghost use Rattle.stamps.specs.Day.{date_at, ymd};

    /// 31-12-2100.
    pub fn last() -> Day
        ensures value { result ≡ last_day }
        ensures date { date_at result ≡ ymd 2100 12 31 }
    {
        Day { days: LAST_DAY }
    }

    /// The day of a date, if the calendar has the date and it lies from 01-01-1970 to 31-12-2100.
    pub fn of(date: CivilDate) -> Option<Day>
        ensures value { IfSome result (λ d. date_at d ≡ date) }
        ensures none { IfNone result ((n : ℕ) → n ≤ last_day → date_at n ≢ date) }
    {
        if date.year < 1970 || 2100 < date.year || 12 < date.month || 31 < date.day {
            return None;
        }
        match to_jiff(date) {
            Some(date) => Day::new(day_number(date)),
            None => None,
        }
    }

    /// The day of a text `DD-MM-YYYY`, `None` exactly where the text is no such day from 01-01-1970 to 31-12-2100.
    pub fn read(text: &str) -> Option<Day>
        //= A day is read from the text of a day of the calendar alone, which is a walk from day to day from
        //= 01-01-1970.
        ensures value { IfSome result (λ d. text.now ≡ date_text_of d) }
        ensures none { IfNone result ((n : ℕ) → n ≤ last_day → text.now ≢ date_text_of n) }
    {
        let bytes = text.as_bytes();
        if bytes.len() != 10 {
            return None;
        }
        let day = read_two_digits(bytes[0], bytes[1])?;
        let month = read_two_digits(bytes[3], bytes[4])?;
        let century = read_two_digits(bytes[6], bytes[7])?;
        let year = read_two_digits(bytes[8], bytes[9])?;
        let day = Day::of(CivilDate {
            year: century as u16 * 100 + year as u16,
            month,
            day,
        })?;
        if date_text(day).as_slice() == bytes {
            Some(day)
        } else {
            None
        }
    }
}

/// The day as `DD-MM-YYYY`, the form in which the records give an invoice's date of issue.
pub fn date_text(day: Day) -> [u8; 10]
    ensures { result ≡ date_text_of day }
{
    let date = day.date();
    let (day_tens, day_ones) = two_digits(date.day);
    let (month_tens, month_ones) = two_digits(date.month);
    let (thousands, hundreds) = two_digits((date.year / 100) as u8);
    let (tens, ones) = two_digits((date.year % 100) as u8);
    [
        day_tens, day_ones, b'-', month_tens, month_ones, b'-', thousands, hundreds, tens, ones,
    ]
}
