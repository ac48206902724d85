//! Moments on the peninsular clock.
ghost use Rattle.std.specs.Prelude.{◌≡◌, ◌≤◌, ◌↔◌, IsTrue, IsSome, IfSome, IsOk, IfOk, unsigned_abs};
ghost use Rattle.stamps.specs.Clock.{IsStampSeconds, IsStampOffset};
ghost use Rattle.stamps.specs.Stamp as spec;

use crate::civil::CivilDate;
use crate::clock;
use crate::day::Day;
use crate::digits::two_digits;
use std::marker::Model;

/// The first second of the clock, in seconds since 1970 began at UTC: 2024 begins.
pub const CLOCK_FROM: u64 = 1_704_067_200;

/// The last second of the clock, in seconds since 1970 began at UTC: 2099 ends.
pub const CLOCK_TO: u64 = 4_102_444_799;

/// A moment from 2024 to 2099, in seconds since 1970 began at UTC (`CLOCK_FROM` to `CLOCK_TO`), and how many minutes the
/// local clock is ahead of UTC: 60 or 120. A moment that comes from elsewhere may carry either offset.
#[derive(Clone, Copy, Debug, PartialEq, Eq, Hash)]
pub struct Stamp {
    pub seconds: u64,
    pub offset_minutes: i16,
}

impl Model for Stamp {
    ghost use Rattle.stamps.specs.Clock.{IsStampSeconds, IsStampOffset};
    ghost use Rattle.stamps.specs.Stamp.{Moment};

    ghost Value = { Moment };

    ghost view = { λ s. record { seconds = s.seconds; offset_minutes = s.offset_minutes } };

    ghost invariant = { λ s. IsStampSeconds s.seconds × IsStampOffset s.offset_minutes };

    ghost inverse = { λ m. record { seconds = m.seconds; offset_minutes = m.offset_minutes } };
}

/// The moment lies outside 2024 to 2099.
#[derive(Clone, Copy, Debug, PartialEq, Eq)]
pub struct ClockRange;

fn is_stamp_seconds(seconds: u64) -> bool
    ensures { IsTrue result ↔ IsStampSeconds seconds }
{
    CLOCK_FROM <= seconds && seconds <= CLOCK_TO
}

fn is_stamp_offset(minutes: i16) -> bool
    ensures { IsTrue result ↔ IsStampOffset minutes }
{
    minutes == 60 || minutes == 120
}

/// The moment this many seconds after 1970 began at UTC, with the offset that the peninsular clock has there. Refused exactly
/// outside `CLOCK_FROM` to `CLOCK_TO`.
pub fn stamp_at(seconds: u64) -> Result<Stamp, ClockRange>
    //= A second is refused exactly outside 2024 to 2099.
    //= No body: tests have both edges
    ensures range { IsOk result ↔ IsStampSeconds seconds }
    //= A second since 1970 is the moment that peninsular time shows, with its offset.
    ensures value { IfOk result (λ s. s ≡ spec.moment_at seconds) }
{
    if !is_stamp_seconds(seconds) {
        return Err(ClockRange);
    }
    Ok(Stamp {
        seconds,
        offset_minutes: clock::offset_at(seconds) as i16,
    })
}

impl Stamp {
    /// A moment with the offset that it was stored with, `None` exactly where either is out of its range.
    pub fn new(seconds: u64, offset_minutes: i16) -> Option<Stamp>
        ensures valid { IsSome result ↔ (IsStampSeconds seconds × IsStampOffset offset_minutes) }
        ensures value { IfSome result (λ s. s ≡ record { seconds = seconds; offset_minutes = offset_minutes }) }
    {
        if is_stamp_seconds(seconds) && is_stamp_offset(offset_minutes) {
            Some(Stamp {
                seconds,
                offset_minutes,
            })
        } else {
            None
        }
    }

    // What the local clock counts as seconds since 1970.
    fn local_seconds(&self) -> u64
        ensures value { result ≡ spec.local_seconds_of self.now }
        ensures bound { result ≤ 4_102_451_999 }
    {
        self.seconds + self.offset_minutes as u64 * 60
    }

    // How many minutes the clock is ahead.
    fn ahead(&self) -> u8
        ensures value { result ≡ unsigned_abs self.now.offset_minutes }
        ensures bound { result ≤ 120 }
    {
        self.offset_minutes as u8
    }
}

/// The day on the local clock, by the stamp's own offset.
pub fn civil_day(stamp: &Stamp) -> Day
    ensures { result ≡ spec.civil_day_of stamp.now }
{
    Day::at_most_last((stamp.local_seconds() / 86_400) as u32)
}

/// The local time and its offset as `YYYY-MM-DDThh:mm:ss+hh:mm`, the form of ISO 8601 in which the records give the moment
/// of their making.
pub fn moment_text(stamp: &Stamp) -> [u8; 25]
    //= A moment's text is its definition: date, time of the day and offset.
    ensures { result ≡ spec.moment_text_of stamp.now }
{
    let local = stamp.local_seconds();
    let date = CivilDate::at((local / 86_400) as u32);
    let (thousands, hundreds) = two_digits((date.year / 100) as u8);
    let (tens, ones) = two_digits((date.year % 100) as u8);
    let (month_tens, month_ones) = two_digits(date.month);
    let (day_tens, day_ones) = two_digits(date.day);
    let (hour_tens, hour_ones) = two_digits((local % 86_400 / 3600) as u8);
    let (minute_tens, minute_ones) = two_digits((local % 3600 / 60) as u8);
    let (second_tens, second_ones) = two_digits((local % 60) as u8);
    let (ahead_tens, ahead_ones) = two_digits(stamp.ahead() / 60);
    let (rest_tens, rest_ones) = two_digits(stamp.ahead() % 60);
    [
        thousands,
        hundreds,
        tens,
        ones,
        b'-',
        month_tens,
        month_ones,
        b'-',
        day_tens,
        day_ones,
        b'T',
        hour_tens,
        hour_ones,
        b':',
        minute_tens,
        minute_ones,
        b':',
        second_tens,
        second_ones,
        b'+',
        ahead_tens,
        ahead_ones,
        b':',
        rest_tens,
        rest_ones,
    ]
}
