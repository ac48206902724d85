//! The practice agency by a plan in which the first of two sales is refused. What else the fates of a call lead to is shown by sessions of
//! `drain` in `examples/rows`, and by `sender_tests`.
use crate::records::{batch, chain, number};
use agency_port::{Agency, PracticeAgency, ReplyLine, Seen, State3};
use agency_rules::{Fate, Fates, Plan, PlannedFate, PlannedVerdict, Verdict, Verdicts};
use batches::{Batch, Huellas};
use record_fields::{Cause, Line};
use std::alloc::Global;
use std::test::Fail;
use test_rows::holds;

const FATES: [PlannedFate; 2] = [
    PlannedFate {
        call: 3,
        fate: Fate::Lost,
    },
    PlannedFate {
        call: 5,
        fate: Fate::Stale,
    },
];

// The plan in which A-1 is refused, nothing is heard of the third call, and the fifth is given the reply before it.
fn plan(alloc: Global) -> Result<Plan, Fail> {
    let refused = PlannedVerdict {
        num: number("A-1")?,
        n: 1,
        verdict: Verdict::Vet(4100),
    };
    let verdicts = Verdicts::of(Vec::from_slice(alloc, &[refused])?);
    let fates = Fates::of(Vec::from_slice(alloc, &FATES)?);
    Ok(Plan {
        verdicts,
        wait: 60,
        fates,
    })
}

// A practice agency that has processed nothing.
fn begun(alloc: Global) -> Result<PracticeAgency, Fail> {
    let plan = plan(alloc)?;
    let mut agency = PracticeAgency::new(alloc);
    agency.begin(alloc, &plan, &[])?;
    Ok(agency)
}

fn two_sales(alloc: Global) -> Result<Batch, Fail> {
    let records = chain(alloc, 2)?;
    batch(alloc, &records)
}

const REFUSED: Line = Line::Incorrecto(Cause::Vet(4100));

const REPLIED: [ReplyLine; 2] = [ReplyLine::First(REFUSED), ReplyLine::First(Line::Correcto)];

const AGAIN: [ReplyLine; 2] = [
    ReplyLine::Duplicado(State3::Incorrecto),
    ReplyLine::Duplicado(State3::Correcto),
];

const SEEN: [Seen; 2] = [Seen::Was(REFUSED), Seen::Was(Line::Correcto)];

// Whether the agency answers the batch by these lines.
fn replies(alloc: Global, agency: &mut PracticeAgency, batch: &Batch, lines: &[ReplyLine]) -> bool {
    match agency.submit(alloc, batch) {
        Ok(reply) => reply.lines().as_slice() == lines && reply.wait() == 60,
        Err(_) => false,
    }
}

// Whether the agency has seen these records.
fn has_seen(alloc: Global, agency: &mut PracticeAgency, huellas: &Huellas) -> bool {
    let count = huellas.as_slice().len();
    if count < 1 || count > 1000 {
        return false;
    }
    match agency.consult(alloc, huellas) {
        Ok(seen) => seen.as_slice() == SEEN.as_slice(),
        Err(_) => false,
    }
}

// Whether the agency takes a batch, has seen it, and can't be asked then.
fn takes(alloc: Global, agency: &mut PracticeAgency, batch: &Batch) -> Result<bool, Fail> {
    let huellas = Huellas::of(alloc, batch.as_slice())?;
    let is_taken = replies(alloc, agency, batch, &REPLIED) && has_seen(alloc, agency, &huellas);
    Ok(is_taken && !has_seen(alloc, agency, &huellas) && agency.faults() == 1)
}

// The reply before the last one names the same batch, so the last one isn't given it.
#[test]
fn a_batch_is_taken_and_seen_and_then_a_duplicate(rt: HostRuntime) -> Result<(), Fail> {
    let batch = two_sales(rt.alloc())?;
    let mut agency = begun(rt.alloc())?;
    holds(takes(rt.alloc(), &mut agency, &batch)?, "taken and seen")?;
    let is_again = replies(rt.alloc(), &mut agency, &batch, &AGAIN);
    let is_stale = !replies(rt.alloc(), &mut agency, &batch, &AGAIN);
    let are_two = agency.faults() == 2 && agency.processed().len() == 2;
    holds(is_again && is_stale && are_two, "a duplicate")
}
