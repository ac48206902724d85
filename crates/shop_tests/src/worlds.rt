//! A shop and what came of it at the agency, step by step.
use agency_rules::Plan;
use once_world::{Event, World, run_events};
use parties::Nif;
use series::SeriesName;
use shop_core::{Ask, Request};
use std::alloc::Global;
use std::test::Fail;
use test_rows::{holds, sale_draft};

// 2025-01-01, 10:00 on the peninsular clock.
const TEN: u64 = 1_735_722_000;

fn issuer() -> Result<Nif, Fail> {
    match Nif::read("89890001K") {
        Ok(nif) => Ok(nif),
        Err(_) => Err(Fail::from("a tax number")),
    }
}

// A sale of 100 euros at till 1.
fn sale(alloc: Global, serial: u32) -> Result<Ask, Fail> {
    if serial < 1 {
        return Err(Fail::from("a serial"));
    }
    let series = SeriesName::read("A").ok_or("a series")?;
    let draft = sale_draft(alloc, 10_000)?;
    Ok(Ask::new(1, serial, Request::Sale { series, draft }))
}

// An event, with the serial in place of a sale.
#[derive(Clone, Copy)]
enum Step {
    Append(u32),
    Send(u16),
    Deliver(u32),
    Look,
    Note,
    Tear(u32, bool),
    TearNote(bool),
    Reopen,
}

use Step::{Append, Deliver, Look, Note, Reopen, Send, Tear, TearNote};

fn event(alloc: Global, step: Step) -> Result<Event, Fail> {
    match step {
        Append(serial) => Ok(Event::Append {
            ask: sale(alloc, serial)?,
            seconds: TEN,
        }),
        Send(count) => Ok(Event::Send { count }),
        Deliver(index) => Ok(Event::Deliver { index }),
        Look => Ok(Event::Look),
        Note => Ok(Event::Note),
        Tear(serial, kept) => Ok(Event::Tear {
            ask: sale(alloc, serial)?,
            seconds: TEN,
            kept,
        }),
        TearNote(kept) => Ok(Event::TearNote { kept }),
        Reopen => Ok(Event::Reopen),
    }
}

fn after(alloc: Global, steps: &[Step]) -> Result<World, Fail> {
    let mut events = Vec::new(alloc);
    for step in steps {
        events.push(event(alloc, *step)?)?;
    }
    let Ok(world) = run_events(alloc, &issuer()?, &Plan::plain(alloc), &events) else {
        return Err(Fail::from("memory"));
    };
    Ok(world)
}

// Records, noted lines, processed records, batches sent, and learnt lines; whether the shop is up, and whether in doubt.
type Counts = (u32, u32, u32, usize, usize, bool, bool);

fn counts(alloc: Global, steps: &[Step]) -> Result<Counts, Fail> {
    let world = after(alloc, steps)?;
    let learnt = match &world.learnt {
        Some(lines) => lines.as_slice().len(),
        None => 0,
    };
    Ok((
        world.state.records(),
        world.state.noted(),
        world.processed.len(),
        world.sent.as_slice().len(),
        learnt,
        world.up,
        world.doubt,
    ))
}

const IN_DOUBT: [Step; 2] = [Append(1), Send(1)];

const TOO_MANY: [Step; 4] = [Look, Append(1), Send(2), Look];

const TWICE: [Step; 6] = [Append(1), Append(1), Tear(1, true), Look, Send(1), Send(1)];

const OLD_AFTER_NEW: [Step; 13] = [
    Append(1),
    Look,
    Send(1),
    Tear(2, true),
    Append(3),
    Reopen,
    Look,
    Send(2),
    Deliver(1),
    Deliver(0),
    Deliver(1),
    Deliver(2),
    Look,
];

const LEARNT: [Step; 7] = [
    Append(1),
    Append(2),
    Look,
    Send(1),
    Deliver(0),
    Look,
    Send(1),
];

const TORN_NOTES: [Step; 14] = [
    Append(1),
    Look,
    Send(1),
    Deliver(0),
    Look,
    TearNote(false),
    Note,
    Reopen,
    Look,
    TearNote(true),
    Reopen,
    Look,
    Note,
    TearNote(true),
];

const DOWN: [Step; 6] = [Append(1), Look, Tear(2, false), Send(1), Append(3), Look];

const BOTH_NOTED: [Step; 11] = [
    Append(1),
    Look,
    Send(1),
    Tear(2, true),
    Reopen,
    Look,
    Send(2),
    Deliver(1),
    Deliver(0),
    Look,
    Note,
];

const WORLDS: [(&str, &[Step], Counts); 8] = [
    ("in doubt", &IN_DOUBT, (1, 0, 0, 0, 0, true, true)),
    ("too many", &TOO_MANY, (1, 0, 0, 0, 0, true, false)),
    ("twice", &TWICE, (1, 0, 0, 1, 0, true, true)),
    (
        "old after new",
        &OLD_AFTER_NEW,
        (2, 0, 2, 2, 2, true, false),
    ),
    ("learnt", &LEARNT, (2, 0, 1, 1, 1, true, false)),
    ("torn notes", &TORN_NOTES, (1, 1, 1, 1, 0, true, false)),
    ("down", &DOWN, (1, 0, 0, 0, 0, false, false)),
    ("both noted", &BOTH_NOTED, (2, 2, 2, 2, 0, true, false)),
];

// Whatever is lost, late, repeated or torn.
#[test]
fn events_change_the_world(rt: HostRuntime) -> Result<(), Fail> {
    for (name, steps, wanted) in WORLDS {
        holds(counts(rt.alloc(), steps)? == wanted, name)?;
    }
    Ok(())
}
