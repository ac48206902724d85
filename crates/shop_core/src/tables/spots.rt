//! Where a number stands in its series.
ghost use Rattle.std.specs.Prelude.{◌≡◌, ◌+◌, ◌&&◌, nat_le, drop, length, IsTrue};
ghost use Rattle.series.specs.Numbers.{is_series, series_of};
ghost use Rattle.shop_core.specs.Tables.Spots as spec;

use amounts::read_whole;
use series::{NumSerie, SeriesName};

/// The most numbers of a series.
pub(crate) const MAX_OF_SERIES: u64 = 99_999_999;

/// A place in a series, from 0: that of `NAME-k` is k - 1.
#[derive(Clone, Copy)]
pub(crate) struct Spot {
    pub series: SeriesName,
    pub index: usize,
}

fn is_counted(k: u64) -> bool
    ensures { result ≡ (nat_le 1 k && nat_le k MAX_OF_SERIES) }
{
    1 <= k && k <= MAX_OF_SERIES
}

// What stands after the last dash of a number that has the name of a series before it.
fn after_dash<'a>(num: &'a NumSerie, series: &SeriesName) -> &'a [u8]
    requires { series.now ≡ series_of num.now }
    ensures value { result.now ≡ drop (1 + length series.now) num.now }
    ensures named { IsTrue (is_series series.now) }
{
    let start = 1 + series.as_slice().len();
    &num.as_slice()[start..]
}

/// Where a number `NAME-k` of a series stands, k from 1 to 99,999,999. None exactly where it has no such form.
pub(crate) fn spot_of(num: &NumSerie) -> Option<Spot>
    ensures { result ≡ spec.spot_of num.now }
{
    match num.series_name() {
        None => None,
        Some(series) => spot_in(num, series),
    }
}

fn spot_in(num: &NumSerie, series: SeriesName) -> Option<Spot>
    requires { series ≡ series_of num.now }
    ensures { result ≡ spec.spot_of num.now }
{
    match read_whole(after_dash(num, &series)) {
        None => None,
        Some(k) => {
            if is_counted(k) {
                Some(Spot {
                    series,
                    index: k as usize - 1,
                })
            } else {
                None
            }
        }
    }
}
