//! Days of the calendar, and moments on the peninsular clock.
//!
//! - `civil`: dates of the Gregorian calendar from 1970 on
//! - `clock`: when the peninsular clock changes: at 01:00 UTC of the last Sundays of March and October, by Directive
//!   2000/84/EC
//! - `day`: days from 01-01-1970 to 31-12-2100
//! - `digits`: numbers of two digits
//! - `laws`: what holds of every day, and of every moment
//! - `stamp`: moments on the peninsular clock
//!
//! Left to others: the reading of a clock (`ports`).
#![tactic(auto)]

mod civil;
mod clock;
mod day;
mod digits;
mod laws;
mod stamp;

pub use civil::CivilDate;
pub use clock::{last_sunday, zone};
pub use day::{Day, date_text};
pub use digits::{read_two_digits, two_digits};
pub use laws::{text_determines_day, text_determines_moment};
pub use stamp::{CLOCK_FROM, CLOCK_TO, ClockRange, Stamp, civil_day, moment_text, stamp_at};
