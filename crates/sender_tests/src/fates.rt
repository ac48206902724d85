//! Drains under each fate.
use crate::shops::{NEXT_DAY, practice, shop_of};
use agency_port::{PracticeAgency, Told, Turns};
use agency_rules::{Fate, PlannedFate};
use once_world::PlainOutbox;
use ports::LeapSleeper;
use sender::{DrainFault, Sender};
use std::alloc::Global;
use std::sync::Wait;
use std::test::Fail;
use test_rows::holds;

// What a drain left.
#[derive(Drop)]
struct Drained {
    ended: Result<(), DrainFault>,
    told: Turns,
    shop: PlainOutbox,
    agency: PracticeAgency,
}

// A new sender drains a shop of this many sales, while these fates befall its calls.
fn drain_under(
    rt: &(impl AllocGlobal + Wait),
    sales: u32,
    planned: &[PlannedFate],
) -> Result<Drained, Fail> {
    let alloc = rt.alloc();
    let mut shop = shop_of(alloc, sales)?;
    let mut agency = practice(alloc, planned)?;
    let mut sleeper = LeapSleeper::new(NEXT_DAY);
    let mut told = Turns::new(alloc);
    let ended = Sender::new().drain(rt, alloc, &mut shop, &mut agency, &mut sleeper, &mut told);
    Ok(Drained {
        ended,
        told,
        shop,
        agency,
    })
}

// How many turns were told as a fault of the link.
fn links(told: &Turns) -> usize {
    told.as_slice()
        .iter()
        .filter(|t| matches!(t, Told::Link))
        .count()
}

// Whether the agency holds the records of the chain, each once and in its order.
fn holds_each_once(alloc: Global, left: &Drained) -> Result<bool, Fail> {
    let state = left.shop.state();
    let processed = left.agency.processed();
    if processed.len() as u64 != u64::from(state.records()) {
        return Ok(false);
    }
    let mut place = 0u32;
    for (sealed, _) in processed {
        place = place.saturating_add(1);
        let own = state.sealed(alloc, place)?.ok_or("a record")?;
        if own.huella != sealed.huella {
            return Ok(false);
        }
    }
    Ok(true)
}

// Whether one batch and this many faults of the link took no more turns than promised, the last of which isn't told.
fn is_bounded(told: &Turns) -> bool {
    let most = links(told).saturating_mul(6).saturating_add(2 + 8);
    told.as_slice().len() < most
}

// Three records under one fate at one call are noted, and the agency holds each once.
fn is_delivered(rt: &(impl AllocGlobal + Wait), call: u32, fate: Fate) -> Result<bool, Fail> {
    let left = drain_under(rt, 3, &[PlannedFate { call, fate }])?;
    let noted = left.shop.state().noted();
    let once = holds_each_once(rt.alloc(), &left)?;
    Ok(left.ended == Ok(()) && noted == 3 && once && is_bounded(&left.told))
}

const FATES: [(&str, Fate); 6] = [
    ("lost", Fate::Lost),
    ("taken", Fate::Taken),
    ("late 1", Fate::Late(1)),
    ("late 2", Fate::Late(2)),
    ("stale", Fate::Stale),
    ("again", Fate::Again),
];

#[test]
fn three_records_under_each_fate_at_each_call(rt: HostRuntime) -> Result<(), Fail> {
    for (name, fate) in FATES {
        for call in 1..5u32 {
            holds(is_delivered(&rt, call, fate)?, name)?;
        }
    }
    Ok(())
}
