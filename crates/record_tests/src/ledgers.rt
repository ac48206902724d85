//! A ledger that goes on with a worked history: a sale, its fix, which the agency refuses, and its cancellation. The taxes are reckoned by
//! hand.
use crate::records::{TEN, issuer, number};
use record_codec::{Entry, Version};
use record_fields::{Cause, Line, Lines};
use series::SeriesName;
use shop_core::{Ask, Planned, Request, State, next_fault, plan};
use statements::{Ledger, Month};
use std::alloc::Global;
use std::test::Fail;
use test_rows::{holds, sale_draft};

// What happens next: a sale of this many cents at 21 percent, its fix to this many, its cancellation, or the agency's line for the next record.
#[derive(Clone, Copy)]
enum Step {
    Sale(i64),
    Fix(i64),
    Cancel,
    Note(Line),
}

fn request(alloc: Global, step: Step) -> Result<Request, Fail> {
    match step {
        Step::Sale(base) => {
            let series = SeriesName::read("A").ok_or("a series")?;
            let draft = sale_draft(alloc, base)?;
            Ok(Request::Sale { series, draft })
        }
        Step::Fix(base) => {
            let num = number("A-1")?;
            let draft = sale_draft(alloc, base)?;
            Ok(Request::Fix { num, draft })
        }
        _ => {
            let num = number("A-1")?;
            Ok(Request::Cancel { num })
        }
    }
}

// The entry of an ask of till 1, which is taken.
fn made(alloc: Global, state: &State, step: Step) -> Result<Entry, Fail> {
    let serial = state.records().saturating_add(1);
    let ask = Ask::new(1, serial, request(alloc, step)?);
    match plan(alloc, state, &ask, TEN)? {
        Planned::Made(entry) => Ok(entry),
        _ => Err(Fail::from("not taken")),
    }
}

fn noted(alloc: Global, state: &State, line: Line) -> Result<Entry, Fail> {
    let first = state.noted();
    let lines = Lines::of(Vec::from_slice(alloc, &[line])?);
    Ok(Entry::Notes { first, lines })
}

fn push(alloc: Global, ledger: &mut Ledger, step: Step) -> Result<(), Fail> {
    let entry = match step {
        Step::Note(line) => noted(alloc, ledger.state(), line)?,
        _ => made(alloc, ledger.state(), step)?,
    };
    if next_fault(alloc, ledger.state(), &entry)?.is_some() {
        return Err(Fail::from("a break"));
    }
    ledger.push(alloc, entry)?;
    Ok(())
}

// The base and the tax of a month's only row, and nothing where it has no row.
fn sums(ledger: &Ledger, month: u8) -> Result<(i64, i64), Fail> {
    let month = Month::new(2025, month).ok_or("a month")?;
    match ledger.rows(month).as_slice() {
        [] => Ok((0, 0)),
        [row] => Ok((row.base, row.tax)),
        _ => Err(Fail::from("two rows")),
    }
}

const REFUSED: Line = Line::Incorrecto(Cause::Vet(4100));

type Row = (&'static str, Step, i64, i64);

const STEPS: [Row; 6] = [
    ("the sale", Step::Sale(10_000), 10_000, 2_100),
    ("the fix", Step::Fix(20_000), 20_000, 4_200),
    ("its line", Step::Note(Line::Correcto), 20_000, 4_200),
    ("the fix refused", Step::Note(REFUSED), 10_000, 2_100),
    ("the cancellation", Step::Cancel, 0, 0),
    ("that refused", Step::Note(REFUSED), 10_000, 2_100),
];

fn leads_to(alloc: Global, ledger: &mut Ledger, row: &Row) -> Result<(), Fail> {
    push(alloc, ledger, row.1)?;
    let are_sums = sums(ledger, 1)? == (row.2, row.3) && sums(ledger, 2)? == (0, 0);
    holds(are_sums, row.0)
}

fn empty(alloc: Global) -> Result<Ledger, Fail> {
    let issuer = issuer()?;
    Ok(Ledger::of(alloc, State::empty(alloc, &issuer, Version::One))?)
}

#[test]
fn a_refused_fix_brings_the_sale_back(rt: HostRuntime) -> Result<(), Fail> {
    let mut ledger = empty(rt.alloc())?;
    for row in &STEPS {
        leads_to(rt.alloc(), &mut ledger, row)?;
    }
    Ok(())
}
