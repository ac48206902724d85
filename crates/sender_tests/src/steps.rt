//! A sender's turns, one by one, and records that are added between them.
use crate::shops::{NEXT_DAY, practice, shop_of, with_sales};
use agency_port::Agency;
use agency_rules::{Fate, PlannedFate};
use once_world::PlainOutbox;
use sender::{SendFault, Sender, Turn};
use std::alloc::Global;
use std::sync::Wait;
use std::test::Fail;
use test_rows::holds;

/// What happens next.
#[derive(Clone, Copy)]
pub enum Step {
    /// This many sales are made.
    Sell(u32),
    /// A turn, this many seconds after `NEXT_DAY`.
    Turn(u64),
}

/// What turns answered.
pub type Answers = Vec<Result<Turn, SendFault>>;

// A new sender over a shop that begins empty.
pub fn answers<G: Agency>(
    rt: &(impl AllocGlobal + Wait),
    agency: &mut G,
    steps: &[Step],
) -> Result<Answers, Fail> {
    let alloc = rt.alloc();
    let mut sender = Sender::new();
    let mut shop = shop_of(alloc, 0)?;
    let mut answers = Vec::new(alloc);
    for step in steps {
        match step {
            Step::Sell(sales) => shop = with_more(alloc, shop, *sales)?,
            Step::Turn(after) => {
                let now = NEXT_DAY.saturating_add(*after);
                answers.push(sender.turn(rt, alloc, &mut shop, agency, now))?;
            }
        }
    }
    Ok(answers)
}

// The shop with this many sales more.
fn with_more(alloc: Global, shop: PlainOutbox, sales: u32) -> Result<PlainOutbox, Fail> {
    let state = with_sales(alloc, shop.into_state(), sales)?;
    Ok(PlainOutbox::new(alloc, state))
}

// The turns under one fate at the second call.
fn answers_under(
    rt: &(impl AllocGlobal + Wait),
    fate: Fate,
    steps: &[Step],
) -> Result<Answers, Fail> {
    let mut agency = practice(rt.alloc(), &[PlannedFate { call: 2, fate }])?;
    answers(rt, &mut agency, steps)
}

const TO_A_FULL_BATCH: [Step; 10] = [
    Step::Turn(0),
    Step::Sell(1),
    Step::Turn(0),
    Step::Sell(1),
    Step::Turn(0),
    Step::Sell(999),
    Step::Turn(0),
    Step::Sell(1),
    Step::Turn(0),
    Step::Turn(0),
];

const FULL_BATCH: [Result<Turn, SendFault>; 6] = [
    Ok(Turn::Idle { records: 0 }),
    Ok(Turn::Cleared),
    Ok(Turn::Noted { n: 2 }),
    Ok(Turn::WaitUntil(NEXT_DAY + 60)),
    Ok(Turn::Noted { n: 1000 }),
    Ok(Turn::Idle { records: 1002 }),
];

#[test]
fn a_full_batch_waits_for_no_second(rt: HostRuntime) -> Result<(), Fail> {
    let mut agency = practice(rt.alloc(), &[])?;
    let said = answers(&rt, &mut agency, &TO_A_FULL_BATCH)?;
    holds(said.as_slice() == FULL_BATCH.as_slice(), "the turns")?;
    holds(agency.processed().len() == 1002, "the records")
}

// Two sales are handed over and a third one is made after the fault, at whose batch nothing is due for a minute.
const BEHIND_A_FAULT: [Step; 9] = [
    Step::Sell(2),
    Step::Turn(0),
    Step::Turn(0),
    Step::Sell(1),
    Step::Turn(0),
    Step::Turn(0),
    Step::Turn(60),
    Step::Turn(60),
    Step::Turn(60),
];

// The batch came, and its answer was lost.
const LOST_ANSWER: [Result<Turn, SendFault>; 7] = [
    Ok(Turn::Cleared),
    Err(SendFault::LinkFault),
    Ok(Turn::Noted { n: 2 }),
    Ok(Turn::WaitUntil(NEXT_DAY + 60)),
    Ok(Turn::Noted { n: 1 }),
    Ok(Turn::Idle { records: 3 }),
    Ok(Turn::Idle { records: 3 }),
];

// The batch comes with the next one.
const LATE_BATCH: [Result<Turn, SendFault>; 7] = [
    Ok(Turn::Cleared),
    Err(SendFault::LinkFault),
    Ok(Turn::Cleared),
    Ok(Turn::WaitUntil(NEXT_DAY + 60)),
    Ok(Turn::Doubt { place: 1 }),
    Ok(Turn::Noted { n: 3 }),
    Ok(Turn::Idle { records: 3 }),
];

const FAULTS: [(&str, Fate, [Result<Turn, SendFault>; 7]); 3] = [
    ("taken", Fate::Taken, LOST_ANSWER),
    ("stale", Fate::Stale, LOST_ANSWER),
    ("late 2", Fate::Late(2), LATE_BATCH),
];

#[test]
fn a_record_behind_a_lost_answer_and_a_late_batch(rt: HostRuntime) -> Result<(), Fail> {
    for (name, fate, wanted) in FAULTS {
        let said = answers_under(&rt, fate, &BEHIND_A_FAULT)?;
        holds(said.as_slice() == wanted.as_slice(), name)?;
    }
    Ok(())
}
