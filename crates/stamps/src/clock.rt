//! When the peninsular clock changes: at 01:00 UTC of the last Sundays of March and October, by Directive 2000/84/EC. That
//! the rule holds unchanged up to 2100 is this project's own.
ghost use Rattle.std.specs.Prelude.{◌≡◌, ◌≤◌, ◌⊎◌, ◌*◌, ℕ, pos, IfOk, IsOk};
ghost use Rattle.std.specs.Int.{IsInRange};
ghost use Rattle.stamps.specs.Day.{IsLastSunday, last_day};
ghost use Rattle.stamps.specs.Clock as clock;
ghost use Rattle.stamps.specs.Clock.{IsStampSeconds};
ghost use Rattle.jiff.specs.Words.{plain_zone, nanos_of_seconds, offset_at as zone_offset};

use crate::civil::{CivilDate, day_number, to_jiff};
use jiff::Error;
use jiff::tz::TimeZone;

const DAY: u64 = 86_400;

const HOUR: u64 = 3600;

/// The day number of the last Sunday of March or October, from 1970 to 2100.
pub fn last_sunday(year: u16, month: u8) -> u32
    requires year { IsInRange 1970 2100 year }
    requires month { (month ≡ 3) ⊎ (month ≡ 10) }
    ensures value { result ≡ clock.last_sunday year month }
    ensures is { IsLastSunday year month result }
    ensures bound { result ≤ last_day }
{
    let last = CivilDate {
        year,
        month,
        day: 31,
    };
    match to_jiff(last) {
        Some(last) => {
            let last = day_number(last);
            last - (last + 4) % 7
        }
        None => 0,
    }
}

/// How many minutes the clock is ahead of UTC, at a moment up to 31-12-2100.
pub(crate) fn offset_at(seconds: u64) -> u8
    requires { seconds ≤ 4_133_980_799 }
    ensures value { result ≡ clock.offset_at seconds }
    ensures either { (result ≡ 60) ⊎ (result ≡ 120) }
{
    let year = CivilDate::at((seconds / DAY) as u32).year;
    let begins = last_sunday(year, 3) as u64 * DAY + HOUR;
    let ends = last_sunday(year, 10) as u64 * DAY + HOUR;
    if begins <= seconds && seconds < ends {
        120
    } else {
        60
    }
}

/// The rule as a POSIX time zone, `CET-1CEST,M3.5.0,M10.5.0/3`, in which jiff finds the offsets of `stamp_at`.
pub fn zone() -> Result<TimeZone<'static>, Error>
    ensures ok { IsOk result }
    //= The time zone that is handed to jiff has peninsular offsets over the whole range.
    //= No body: it is made of one constant text
    ensures offsets { IfOk result (λ z. (t : ℕ) → IsStampSeconds t
        → zone_offset (plain_zone z) (nanos_of_seconds (pos t)) ≡ pos (clock.offset_at t * 60)) }
{
    TimeZone::posix("CET-1CEST,M3.5.0,M10.5.0/3")
}
