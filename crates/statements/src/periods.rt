//! Periods of which statements are made, and the rows of one.
ghost use Rattle.std.specs.Prelude.{◌≡◌, ◌≢◌, ◌+◌, ◌<◌, length, IfOk, IfSome, IfNone, OnOk, Some};
ghost use Rattle.record_fields.specs.declared.records.Sealed.{Sealed as AnySealed};
ghost use Rattle.shop_core.specs.History.{recs, sealed_at};
ghost use Rattle.statements.specs.Invoices as spec;
ghost use Rattle.statements.specs.Periods.{IsPeriod, IsStatementOf, IsStatementUpTo, is_within, lines_in, own_lines, period_text};
ghost use Rattle.statements.specs.declared.periods.Period.{Period as AnyPeriod};

use crate::ledger::{is_bounded, is_held_at};
use crate::months::{FIRST_YEAR, Month};
use crate::rows::Rows;
use ports::NoMemory;
use record_fields::Record;
use shop_core::State;
use stamps::Day;
use std::alloc::Global;
use tax_lines::Breakdown;

/// A month, or a day from 01-01-2024 to 31-12-2100.
#[derive(Clone, Copy, Debug, PartialEq, Eq)]
pub enum Period {
    Month(Month),
    Day(Day),
}

impl Period {
    /// The period of a text `MM-YYYY` or `DD-MM-YYYY`; None exactly where that is the text of none.
    pub fn read(text: &str) -> Option<Period>
        ensures within { IfSome result IsPeriod }
        ensures value { IfSome result (λ p. text.now ≡ period_text p) }
        //= Each text `MM-YYYY` or `DD-MM-YYYY` of the months from January 2024 to December 2100 and of their days is
        //= read as a period; no other is (`value`).
        //= No body: it is `Month::read` and `Day::read`, which are exact
        ensures none { IfNone result ((p : AnyPeriod) → IsPeriod p → text.now ≢ period_text p) }
    {
        if let Some(month) = Month::read(text) {
            return Some(Period::Month(month));
        }
        let day = Day::read(text)?;
        if day.date().year < FIRST_YEAR {
            return None;
        }
        Some(Period::Day(day))
    }

    // Whether a day lies in it.
    fn has(&self, day: Day) -> bool
        ensures { result ≡ is_within self.now day }
    {
        match self {
            Period::Month(month) => month.has(day),
            Period::Day(own) => day == *own,
        }
    }
}

// The lines of an alta; None of an anulación, which has none.
fn lines_of(alloc: Global, body: &Record) -> Result<Option<Breakdown>, NoMemory>
    ensures { IfOk result (λ found. lines_in found ≡ spec.lines_of body.now) }
{
    match body {
        Record::Anulacion(_) => Ok(None),
        Record::Alta(alta) => Ok(Some(alta.draft.lines.copied(alloc)?)),
    }
}

// The lines of the record of this index, from 0, where its invoice is held by it and its day lies in the period. No other record is
// decoded.
fn own_lines(
    alloc: Global,
    state: &State,
    period: &Period,
    index: u32,
) -> Result<Option<Breakdown>, NoMemory>
    requires { index < length (recs state.now.entries) }
    ensures { IfOk result (λ found. (s : AnySealed) × (sealed_at state.now.entries (index + 1) ≡ Some s)
        × (lines_in found ≡ own_lines state.now.entries period.now (index + 1) s)) }
{
    is_bounded(state);
    let place = index + 1;
    let Some(head) = state.head(place) else {
        unreachable!()
    };
    if !is_held_at(state, &head.id.num, place) {
        return Ok(None);
    }
    if !period.has(head.id.day) {
        return Ok(None);
    }
    match state.sealed(alloc, place)? {
        None => unreachable!(),
        Some(sealed) => lines_of(alloc, &sealed.body),
    }
}

// One record more.
fn count(
    alloc: Global,
    state: &State,
    period: &Period,
    index: u32,
    rows: &mut Rows,
) -> Result<(), NoMemory>
    requires index { index < length (recs state.now.entries) }
    requires counted { IsStatementUpTo state.now.entries period.now index rows.old }
    ensures { OnOk result (IsStatementUpTo state.now.entries period.now (index + 1) rows.new) }
{
    is_bounded(state);
    match own_lines(alloc, state, period, index)? {
        None => Ok(()),
        Some(lines) => rows.add_all(lines.lines()),
    }
}

/// The statement of a period of a history.
pub fn rows_of(alloc: Global, state: &State, period: Period) -> Result<Rows, NoMemory>
    //= The statement of a period, a month or a day, of a history is that of its definition: the rows of the lines of
    //= those days.
    ensures { IfOk result (λ rows. IsStatementOf state.now.entries period rows) }
{
    let mut rows = Rows::of(Vec::new(alloc));
    for index in 0..state.records() {
        count(alloc, state, &period, index, &mut rows)?;
    }
    Ok(rows)
}
