//! What the agency answers to an alta and to an anulación.
use crate::records as samples;
use crate::records::{TEN, anulacion, id, issuer, moment, number};
use agency_rules::{Delivered, Pairs, Past, PlannedVerdict, Verdict, Verdicts, judge};
use record_fields::{Cause, Line, Link, Previo, Record, Sealed};
use std::alloc::Global;
use std::test::Fail;
use test_rows::{holds, sale_draft};

fn alta(alloc: Global, day: &str, subsanacion: bool, rechazo: Previo) -> Result<Record, Fail> {
    let draft = sale_draft(alloc, 10_000)?;
    let mut alta = samples::alta(issuer()?, id("A-1", day)?, draft, Link::First, moment(TEN)?);
    alta.subsanacion = subsanacion;
    alta.rechazo = rechazo;
    Ok(Record::Alta(alta))
}

fn cancelled(day: &str, sin_registro: bool) -> Result<Record, Fail> {
    let mut anulacion = anulacion(issuer()?, id("A-1", day)?, Link::First, moment(TEN)?);
    anulacion.sin_registro = sin_registro;
    Ok(Record::Anulacion(anulacion))
}

fn past(held: bool, gone: bool) -> Past {
    Past {
        count: 1,
        held,
        gone,
    }
}

const VET: Option<Verdict> = Some(Verdict::Vet(4100));

const WARN: Option<Verdict> = Some(Verdict::Warn(2001));

const VETTED: Line = Line::Incorrecto(Cause::Vet(4100));

const WARNED: Line = Line::ConErrores(2001);

const GONE: Line = Line::Incorrecto(Cause::Gone);

const HELD: Line = Line::Incorrecto(Cause::Held);

const NOT_HELD: Line = Line::Incorrecto(Cause::NotHeld);

// The table: whether the invoice is held, whether it is gone, the verdict, Subsanacion, RechazoPrevio, and the line.
type OfAlta = (
    &'static str,
    bool,
    bool,
    Option<Verdict>,
    bool,
    Previo,
    Line,
);

const OF_ALTAS: [OfAlta; 15] = [
    ("held, vetted", true, false, VET, false, Previo::N, VETTED),
    ("gone, vetted", false, true, VET, false, Previo::N, VETTED),
    ("gone", false, true, None, false, Previo::N, GONE),
    ("gone, S", false, true, WARN, true, Previo::S, GONE),
    ("gone, X", false, true, None, true, Previo::X, GONE),
    ("held", true, false, None, false, Previo::N, HELD),
    ("held, S", true, false, WARN, false, Previo::S, HELD),
    ("held, X", true, false, None, true, Previo::X, HELD),
    ("not held", false, false, None, true, Previo::N, NOT_HELD),
    ("not held, S", false, false, WARN, true, Previo::S, NOT_HELD),
    ("new, warned", false, false, WARN, false, Previo::N, WARNED),
    ("fix, warned", true, false, WARN, true, Previo::N, WARNED),
    ("new", false, false, None, false, Previo::N, Line::Correcto),
    (
        "new, X",
        false,
        false,
        None,
        true,
        Previo::X,
        Line::Correcto,
    ),
    ("fix, S", true, false, None, true, Previo::S, Line::Correcto),
];

fn is_judged(alloc: Global, row: &OfAlta) -> Result<(), Fail> {
    let body = alta(alloc, DAY, row.4, row.5)?;
    holds(judge(&past(row.1, row.2), row.3, &body) == row.6, row.0)
}

#[test]
fn altas_are_judged(rt: HostRuntime) -> Result<(), Fail> {
    for row in &OF_ALTAS {
        is_judged(rt.alloc(), row)?;
    }
    Ok(())
}

// The table: whether the invoice is held, whether it is gone, the verdict, SinRegistroPrevio, and the line.
type OfAnulacion = (&'static str, bool, bool, Option<Verdict>, bool, Line);

const OF_ANULACIONES: [OfAnulacion; 8] = [
    ("vetted", true, false, VET, false, VETTED),
    ("gone", false, true, None, false, GONE),
    ("gone, not registered", false, true, None, true, GONE),
    ("held", true, false, None, true, HELD),
    ("not held", false, false, WARN, false, NOT_HELD),
    ("warned", true, false, WARN, false, WARNED),
    ("taken", true, false, None, false, Line::Correcto),
    ("not registered", false, false, None, true, Line::Correcto),
];

fn is_judged_so(row: &OfAnulacion) -> Result<(), Fail> {
    let body = cancelled(DAY, row.4)?;
    holds(judge(&past(row.1, row.2), row.3, &body) == row.5, row.0)
}

#[test]
fn anulaciones_are_judged() -> Result<(), Fail> {
    for row in &OF_ANULACIONES {
        is_judged_so(row)?;
    }
    Ok(())
}

// A warning for the second record of A-1.
fn verdicts(alloc: Global) -> Result<Verdicts, Fail> {
    let warned = PlannedVerdict {
        num: number("A-1")?,
        n: 2,
        verdict: Verdict::Warn(2001),
    };
    Ok(Verdicts::of(Vec::from_slice(alloc, &[warned])?))
}

// A cancellation or an alta, with its flag and its Huella.
fn record(alloc: Global, day: &str, cancels: bool, flag: bool, huella: u8) -> Result<Sealed, Fail> {
    let body = if cancels {
        cancelled(day, flag)?
    } else {
        alta(alloc, day, flag, Previo::N)?
    };
    let huella = [huella; 32];
    Ok(Sealed { body, huella })
}

const DAY: &str = "01-01-2025";

const NEXT: &str = "02-01-2025";

const FINE: Delivered = Delivered::First(Line::Correcto);

// A record's day, whether it cancels, its flag and its Huella, and what is met.
type Arrival = (&'static str, &'static str, bool, bool, u8, Delivered);

const ARRIVALS: [Arrival; 6] = [
    ("an alta", DAY, false, false, 1, FINE),
    ("its mend", DAY, false, true, 2, Delivered::First(WARNED)),
    ("its cancellation", DAY, true, false, 3, FINE),
    ("too late", DAY, false, false, 4, Delivered::First(GONE)),
    ("another day", NEXT, false, false, 5, FINE),
    ("late again", DAY, true, true, 4, Delivered::Again(GONE)),
];

// Fails where a record that arrives meets something else.
fn arrives(
    alloc: Global,
    pairs: &mut Pairs,
    verdicts: &Verdicts,
    row: &Arrival,
) -> Result<(), Fail> {
    let sealed = record(alloc, row.1, row.2, row.3, row.4)?;
    let met = pairs.deliver_record(alloc, verdicts, &sealed)?;
    holds(met == row.5, row.0)
}

const PAST: Past = Past {
    count: 4,
    held: false,
    gone: true,
};

#[test]
fn records_are_delivered(rt: HostRuntime) -> Result<(), Fail> {
    let verdicts = verdicts(rt.alloc())?;
    let mut pairs = Pairs::new(rt.alloc());
    for arrival in &ARRIVALS {
        arrives(rt.alloc(), &mut pairs, &verdicts, arrival)?;
    }
    let id = id("A-1", DAY)?;
    holds(pairs.past_of(&id) == PAST && pairs.len() == 5, "the past")
}

// A cancellation that finds nothing is delivered to an agency that has processed nothing.
fn with_one(alloc: Global) -> Result<Pairs, Fail> {
    let verdicts = verdicts(alloc)?;
    let batch = [record(alloc, DAY, true, false, 9)?];
    let mut pairs = Pairs::new(alloc);
    pairs.deliver(alloc, &verdicts, &batch)?;
    Ok(pairs)
}

#[test]
fn a_delivery_is_taken_back(rt: HostRuntime) -> Result<(), Fail> {
    let mut pairs = with_one(rt.alloc())?;
    holds(pairs.line_of(&[9; 32]) == Some(NOT_HELD), "delivered")?;
    pairs.truncate(0);
    holds(pairs.line_of(&[9; 32]).is_none(), "taken back")?;
    holds(pairs.len() == 0, "none left")
}
