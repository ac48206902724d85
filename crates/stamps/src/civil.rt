//! Dates of the Gregorian calendar from 1970 on.
ghost use Rattle.std.specs.Prelude.{◌≡◌, ◌≤◌, ◌↔◌, pos, ◌≤ℤ◌, IsSome, IfSome};
ghost use Rattle.jiff.specs.Words.{IsDate, IsYmd, epoch_day};
ghost use Rattle.std.specs.Int.{IsInRange};

use jiff::civil::Date;
use jiff_core::civil;

/// A date as the calendar names it.
#[derive(Clone, Copy, Debug, PartialEq, Eq)]
pub struct CivilDate {
    pub year: u16,
    pub month: u8,
    pub day: u8,
}

// The days from -9999-01-01 to 01-01-1970.
const BEFORE_1970: u32 = 4_371_587;

impl CivilDate {
    ghost use Rattle.stamps.specs.Day.{date_at, last_day};

    /// The date that many days after 01-01-1970.
    pub fn at(days: u32) -> CivilDate
        requires { days ≤ last_day }
        ensures value { result ≡ date_at days }
        ensures year { IsInRange 1970 2100 result.year }
        ensures month { IsInRange 1 12 result.month }
        ensures day { IsInRange 1 31 result.day }
    {
        let date = Date::from_plain(civil::Date::from_days_since_min(BEFORE_1970 + days));
        CivilDate {
            year: date.year() as u16,
            month: date.month() as u8,
            day: date.day() as u8,
        }
    }
}

// jiff's date of these parts, if the calendar has it.
pub(crate) fn to_jiff(date: CivilDate) -> Option<Date>
    requires year { date.year ≤ 2100 }
    requires month { date.month ≤ 12 }
    requires day { date.day ≤ 31 }
    ensures exists { IsSome result ↔ IsDate (pos date.year) (pos date.month) (pos date.day) }
    ensures value { IfSome result (IsYmd (pos date.year) (pos date.month) (pos date.day)) }
{
    match Date::new(date.year as i16, date.month as i8, date.day as i8) {
        Ok(date) => Some(date),
        Err(_) => None,
    }
}

// The day number of jiff's date.
pub(crate) fn day_number(date: Date) -> u32
    requires { pos 1970 ≤ℤ date.year }
    ensures { epoch_day date ≡ pos result }
{
    date.to_plain().to_unix_epoch_day() as u32
}
