//! The text of a statement.
ghost use Rattle.std.specs.Prelude.{◌≡◌, ◌+◌, ◌^◌, ◌<◌, ◌++◌, ◌+ℤ◌, OnOk, IfOk, unsigned_abs};
ghost use Rattle.amounts.specs.Text.{amount_text};
ghost use Rattle.report.specs.Statements as spec;

use crate::pieces::{put, put_amount, put_counted, put_wide, put_wide_amount};
use ports::NoMemory;
use record_fields::Text;
use std::alloc::{AllocError, Global};
use tax_lines::LineKey;

/// The lines of one key: how many they are, and the sums of their amounts, in cents.
#[derive(Clone, Copy, Debug, PartialEq, Eq)]
pub struct StatementLine {
    pub key: LineKey,
    pub lines: u32,
    pub base: i64,
    pub tax: i64,
    pub surcharge: i64,
}

// The sums of many: wide enough for as many as there may be.
#[derive(Clone, Copy)]
struct Totals {
    lines: u128,
    base: i128,
    tax: i128,
    surcharge: i128,
}

fn plus(sum: i128, amount: i64) -> i128
    requires { unsigned_abs sum + 2 ^ 63 < 2 ^ 127 }
    ensures { result ≡ sum +ℤ amount }
{
    sum + i128::from(amount)
}

// One row more, where this many are added up.
fn add(totals: Totals, row: &StatementLine, count: usize) -> Totals
    requires totals { spec.AreOf count totals }
    requires count { count + 1 < 2 ^ 64 }
    ensures value { result ≡ spec.more totals row.now }
    ensures bound { spec.AreOf (count + 1) result }
{
    Totals {
        lines: totals.lines + u128::from(row.lines),
        base: plus(totals.base, row.base),
        tax: plus(totals.tax, row.tax),
        surcharge: plus(totals.surcharge, row.surcharge),
    }
}

fn totals_of(rows: &[StatementLine]) -> Totals
    ensures { result ≡ spec.totals rows.now }
{
    let mut totals = Totals {
        lines: 0,
        base: 0,
        tax: 0,
        surcharge: 0,
    };
    for (i, row) in rows.iter().enumerate() {
        totals = add(totals, row, i);
    }
    totals
}

fn put_head(text: &mut Vec<u8>, row: &StatementLine) -> Result<(), AllocError>
    ensures { OnOk result (text.new.items ≡ text.old.items ++ spec.head_text row.now) }
{
    put(text, row.key.text().as_slice())?;
    put_counted(text, b" ", u64::from(row.lines))
}

fn put_spaced(text: &mut Vec<u8>, cents: i64) -> Result<(), AllocError>
    ensures { OnOk result (text.new.items ≡ text.old.items ++ spec.spaced_text cents) }
{
    put(text, b" ")?;
    put_amount(text, cents)
}

fn put_amounts(text: &mut Vec<u8>, row: &StatementLine) -> Result<(), AllocError>
    ensures { OnOk result (text.new.items ≡ text.old.items ++ spec.amounts_text row.now) }
{
    put_spaced(text, row.base)?;
    put_spaced(text, row.tax)?;
    put_spaced(text, row.surcharge)
}

fn put_row(text: &mut Vec<u8>, row: &StatementLine) -> Result<(), AllocError>
    ensures { OnOk result (text.new.items ≡ text.old.items ++ spec.row_text row.now) }
{
    put_head(text, row)?;
    put_amounts(text, row)?;
    put(text, b"\n")
}

fn put_rows(text: &mut Vec<u8>, rows: &[StatementLine]) -> Result<(), AllocError>
    ensures { OnOk result (text.new.items ≡ text.old.items ++ spec.rows_text rows.now) }
{
    let mut rest = rows;
    while let [row, after @ ..] = rest {
        put_row(text, row)?;
        rest = after;
    }
    Ok(())
}

fn put_count(text: &mut Vec<u8>, month: &[u8], totals: &Totals) -> Result<(), AllocError>
    ensures { OnOk result (text.new.items ≡ text.old.items ++ spec.count_text month.now totals.now) }
{
    put(text, b"statement ")?;
    put(text, month)?;
    put(text, b" lines ")?;
    put_wide(text, totals.lines)
}

// A word that ends with a blank, and a sum.
fn put_sum(text: &mut Vec<u8>, word: &[u8], cents: &i128) -> Result<(), AllocError>
    ensures { OnOk result (text.new.items ≡ text.old.items ++ (word.now ++ amount_text cents.now)) }
{
    put(text, word)?;
    put_wide_amount(text, *cents)
}

fn put_sums(text: &mut Vec<u8>, totals: &Totals) -> Result<(), AllocError>
    ensures { OnOk result (text.new.items ≡ text.old.items ++ spec.sums_text totals.now) }
{
    put_sum(text, b" base ", &totals.base)?;
    put_sum(text, b" tax ", &totals.tax)?;
    put_sum(text, b" surcharge ", &totals.surcharge)
}

fn put_totals(text: &mut Vec<u8>, month: &[u8], totals: &Totals) -> Result<(), AllocError>
    ensures { OnOk result (text.new.items ≡ text.old.items ++ spec.totals_line month.now totals.now) }
{
    put_count(text, month, totals)?;
    put_sums(text, totals)?;
    put(text, b"\n")
}

/// A line for each key of a month, in order, and one of their sums. The month is given as it is written.
pub fn statement_text(alloc: Global, month: &[u8], rows: &[StatementLine]) -> Result<Text, NoMemory>
    //= A statement's text is a line for each row, and the line of their sums.
    //= No body: sessions of `statement` compare it
    ensures { IfOk result (λ text. text ≡ spec.statement_text month.now rows.now) }
{
    let totals = totals_of(rows);
    let mut text = Vec::new(alloc);
    put_rows(&mut text, rows)?;
    put_totals(&mut text, month, &totals)?;
    Ok(Text::of(text))
}
