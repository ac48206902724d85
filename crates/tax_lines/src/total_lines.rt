//! Lines for a total with its tax, as a shop's prices are.
ghost use Rattle.std.specs.Prelude.{◌≡◌, ◌≤◌, ◌<◌, ◌+◌, ◌*◌, ℕ, IfSome, None, get_or};
ghost use Rattle.amounts.specs.declared.cents.TheConstants.{MAX_CENTS};
ghost use Rattle.tax_lines.specs.declared.lines.TheConstants.{MAX_BASE as MOST};
ghost use Rattle.tax_lines.specs.Keys.{IsKey};
ghost use Rattle.tax_lines.specs.TotalLines as spec;
ghost use Rattle.tax_lines.specs.TotalLines.{AreLinesOf, EachTotalHasLines, HasNone, IsFirst, IsNearest, IsOne, IsTwo, lines_in};
ghost use Rattle.tax_lines.specs.Totals as totals;

use crate::LineKey;
use crate::lines::{MAX_BASE, TaxLine};
use amounts::Cents;

/// The lines of one key whose total, tax and surcharge included, is given.
#[derive(Clone, Copy, Debug, PartialEq, Eq)]
pub enum TotalLines {
    One(TaxLine),
    /// The first is the greater in absolute value.
    Two(TaxLine, TaxLine),
}

// Taxes repeat, but for their amount, after this many cents, at every rate.
const PERIOD: u64 = 10_000;

// What is to be paid for a base, in cents.
fn gross(key: LineKey, base: u64) -> u64
    requires { base ≤ MOST }
    ensures value { result ≡ spec.gross key base }
    ensures bound { result ≤ 15_000_000_001 }
{
    let line = TaxLine {
        key,
        base: Cents::of(base as i64),
    };
    base + line.tax().get() as u64
}

// 10,000 times one and the rate and the surcharge.
fn factor(key: LineKey) -> u64
    ensures value { result ≡ spec.factor key }
    ensures bound { result ≤ 15_000 }
    ensures key { IsKey key }
{
    10_000 + (key.rate().get() as u64 + key.surcharge().get() as u64)
}

// The total over one and the rate and the surcharge, rounded to the cent, a half up.
fn quotient(key: LineKey, total: u64) -> u64
    requires { total ≤ MAX_CENTS }
    ensures low { 2 * (result * spec.factor key) ≤ 20_000 * total + spec.factor key }
    ensures high { 20_000 * total + spec.factor key < 2 * (result * spec.factor key) + 2 * spec.factor key }
    ensures bound { result ≤ 10_000_000_000_000 }
{
    let factor = factor(key);
    (20_000 * total + factor) / (2 * factor)
}

// The base of that total.
fn one_base(key: LineKey, total: u64) -> Option<u64>
    requires { total ≤ MAX_CENTS }
    ensures some { IfSome result (IsOne key total) }
    ensures none { result ≡ None → (base : ℕ) → ¬ (IsOne key total base) }
{
    let near = quotient(key, total);
    for base in near.saturating_sub(1)..near + 2 {
        if base <= MAX_BASE && gross(key, base) == total {
            return Some(base);
        }
    }
    None
}

// The two bases of that total and that sum which differ least.
fn evenest(key: LineKey, total: u64, sum: u64) -> Option<(u64, u64)>
    requires { sum ≤ 10_000_000_000_002 }
    ensures some { IfSome result (λ two. IsTwo key total two.0 two.1 × (two.0 + two.1 ≡ sum)) }
    ensures even { IfSome result (λ two. (a b : ℕ) → IsTwo key total a b → a + b ≡ sum → two.0 ≤ a) }
    ensures none { result ≡ None → (a b : ℕ) → IsTwo key total a b → ¬ (a + b ≡ sum) }
{
    for half in 0..PERIOD {
        let second = sum / 2;
        let first = sum - second + half;
        if half > second || first > MAX_BASE {
            return None;
        }
        let second = second - half;
        if gross(key, first) + gross(key, second) == total {
            return Some((first, second));
        }
    }
    None
}

// The two bases of that total whose sum comes first in the list, and which differ least.
fn first_sum(key: LineKey, total: u64, sums: &[u64; 5]) -> Option<(u64, u64)>
    requires { (i : ℕ) → i < 5 → get_or sums.now i 0 ≤ 10_000_000_000_002 }
    ensures some { IfSome result (λ two. IsFirst key total sums.now two.0 two.1) }
    ensures none { result ≡ None → (i : ℕ) → i < 5 → HasNone key total (get_or sums.now i 0) }
{
    for sum in sums {
        if let Some(two) = evenest(key, total, *sum) {
            return Some(two);
        }
    }
    None
}

// The two bases of that total whose sum is nearest to the quotient, and which differ least.
fn two_bases(key: LineKey, total: u64) -> Option<(u64, u64)>
    requires least { 2 ≤ total }
    requires most { total ≤ MAX_CENTS }
    ensures some { IfSome result (λ two. IsNearest key total two.0 two.1) }
    ensures none { result ≡ None → (a b : ℕ) → ¬ (IsTwo key total a b) }
{
    let near = quotient(key, total);
    let factor = factor(key);
    if near * factor <= 10_000 * total {
        first_sum(key, total, &[near, near + 1, near - 1, near + 2, near - 2])
    } else {
        first_sum(key, total, &[near, near - 1, near + 1, near - 2, near + 2])
    }
}

// The line of a base with the sign of a total.
fn line_of(key: LineKey, total: Cents, base: u64) -> TaxLine
    requires { base ≤ MOST }
    ensures { result ≡ spec.line_of key total base }
{
    let base = Cents::of(base as i64);
    TaxLine {
        key,
        base: if total < Cents::of(0) { -base } else { base },
    }
}

/// The lines of this key whose total, tax and surcharge included, is the given one, in cents: one line where there is one, else
/// the two whose bases have the total's sign and a sum nearest to the total over one and the rate and the surcharge, halves away
/// from zero, and which differ least. `None` exactly where neither is there; up to the total of the greatest base
/// (`MAX_BASE`) there are always such lines. The choice is this project's own.
pub fn lines_of_total(key: LineKey, total: Cents) -> Option<TotalLines>
    //= A total with its tax is that of the one line where there is one, else of the two of one sign whose bases sum
    //= nearest to the total divided by one plus the rate and the surcharge, and which differ least; none exactly
    //= where neither is there.
    ensures lines { AreLinesOf key total result }
    ensures total { IfSome result (λ found. totals.total (lines_in found) ≡ total) }
{
    let _factor = factor(key);
    let size = total.get().unsigned_abs();
    if let Some(base) = one_base(key, size) {
        return Some(TotalLines::One(line_of(key, total, base)));
    }
    match two_bases(key, size) {
        Some((first, second)) => Some(TotalLines::Two(
            line_of(key, total, first),
            line_of(key, total, second),
        )),
        None => None,
    }
}

/// Each total up to that of the greatest base has one line or two, whatever the key.
pub fn each_total_has_lines()
    //= Up to the total of the greatest base there are always such lines.
    //= No body: a law over definitions, which has no body
    ensures { EachTotalHasLines }
{}
