//! The values that the tests share: shops with this many sales, and agencies with a plan.
use agency_port::{Agency, PracticeAgency};
use agency_rules::{Fates, Plan, PlannedFate, Verdicts};
use batches::HuellaList;
use once_world::PlainOutbox;
use parties::Nif;
use record_codec::Version;
use record_fields::DraftFault;
use series::SeriesName;
use shop_core::{Ask, Refusal, Reply, Request, State, reply_to};
use std::alloc::Global;
use std::test::Fail;
use test_rows::sale_draft;

// 2025-01-01, 10:00 on the peninsular clock.
const TEN: u64 = 1_735_722_000;

/// 2025-01-02, 07:40 on the peninsular clock.
pub const NEXT_DAY: u64 = 1_735_800_000;

// A sale of 100 euros.
fn sale(alloc: Global) -> Result<Request, Fail> {
    let series = SeriesName::read("A").ok_or("a series")?;
    let draft = sale_draft(alloc, 10_000)?;
    Ok(Request::Sale { series, draft })
}

// What till 1 is told of a sale under this serial.
fn ask(alloc: Global, state: &mut State, serial: u32) -> Result<Reply, Fail> {
    if serial < 1 {
        return Err(Fail::from("a serial"));
    }
    let ask = Ask::new(1, serial, sale(alloc)?);
    Ok(reply_to(alloc, state, &ask, TEN)?)
}

fn bad_draft(_: DraftFault) -> Fail {
    Fail::from("a bad draft")
}

fn taken(reply: Reply) -> Result<(), Fail> {
    match reply {
        Reply::Taken(_) => Ok(()),
        Reply::Refused(Refusal::BadDraft(fault)) => Err(bad_draft(fault)),
        _ => Err(Fail::from("not taken")),
    }
}

// Till 1 sells under this serial.
fn sell(alloc: Global, state: &mut State, serial: u32) -> Result<(), Fail> {
    match ask(alloc, state, serial) {
        Ok(reply) => taken(reply),
        Err(why) => Err(why),
    }
}

/// The history with this many sales more.
pub fn with_sales(alloc: Global, mut state: State, sales: u32) -> Result<State, Fail> {
    for _ in 0..sales {
        let serial = state.records().saturating_add(1);
        sell(alloc, &mut state, serial)?;
    }
    Ok(state)
}

/// A shop with this many sales.
pub fn shop_of(alloc: Global, sales: u32) -> Result<PlainOutbox, Fail> {
    let Ok(issuer) = Nif::read("89890001K") else {
        return Err(Fail::from("a tax number"));
    };
    let state = with_sales(alloc, State::empty(alloc, &issuer, Version::Two), sales)?;
    Ok(PlainOutbox::new(alloc, state))
}

/// The Huellas of the first records of a shop that wait.
pub fn waiting_huellas(alloc: Global, shop: &PlainOutbox, max: u16) -> Result<HuellaList, Fail> {
    let records = shop.state().waiting_records(alloc, max)?;
    Ok(HuellaList::of(alloc, &records)?)
}

/// An agency that has processed nothing, whose calls these fates befall.
pub fn practice(alloc: Global, planned: &[PlannedFate]) -> Result<PracticeAgency, Fail> {
    let plan = Plan {
        verdicts: Verdicts::of(Vec::new(alloc)),
        wait: 60,
        fates: Fates::of(Vec::from_slice(alloc, planned)?),
    };
    let mut agency = PracticeAgency::new(alloc);
    agency.begin(alloc, &plan, &[])?;
    Ok(agency)
}
