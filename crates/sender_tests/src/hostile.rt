//! Agencies that keep no rules: they invent, forget, and leave holes.
use crate::shops::{NEXT_DAY, shop_of, waiting_huellas};
use crate::steps::{Answers, Step, answers};
use agency_port::{
    Evidence, Message, Reply, ReplyLine, ReplyLines, Seen, SeenList, State3, Told, ToldAgency,
    ToldAnswer, ToldAnswers, Turns,
};
use ports::LeapSleeper;
use record_fields::Line;
use sender::{DrainFault, SendFault, Sender, Turn};
use std::alloc::Global;
use std::sync::Wait;
use std::test::Fail;
use test_rows::holds;

fn seen(alloc: Global, said: &[Seen]) -> Result<ToldAnswer, Fail> {
    Ok(ToldAnswer::Consulted(SeenList::of(Vec::from_slice(alloc, said)?)))
}

// A reply for the first two records of a shop.
fn reply(alloc: Global, said: &[ReplyLine]) -> Result<ToldAnswer, Fail> {
    let huellas = waiting_huellas(alloc, &shop_of(alloc, 2)?, 2)?;
    let lines = ReplyLines::of(Vec::from_slice(alloc, said)?);
    if lines.as_slice().len() != huellas.as_slice().len() {
        return Err(Fail::from("two records"));
    }
    Ok(ToldAnswer::Submitted(Reply::of(huellas, lines, 60)))
}

// An agency that hasn't seen two records, replies this for them, and then has seen this of them.
fn inventing(alloc: Global, said: &[ReplyLine], then: &[Seen]) -> Result<ToldAgency, Fail> {
    let mut told = Vec::new(alloc);
    told.push(seen(alloc, &[Seen::NotSeen, Seen::NotSeen])?)?;
    told.push(reply(alloc, said)?)?;
    told.push(seen(alloc, then)?)?;
    Ok(ToldAgency::new(alloc, ToldAnswers::of(told)))
}

// An agency that says this once, and then nothing.
fn saying(alloc: Global, said: &[Seen]) -> Result<ToldAgency, Fail> {
    let mut told = Vec::new(alloc);
    told.push(seen(alloc, said)?)?;
    Ok(ToldAgency::new(alloc, ToldAnswers::of(told)))
}

// This many sales, and three turns.
fn three_turns(
    rt: &(impl AllocGlobal + Wait),
    agency: &mut ToldAgency,
    sales: u32,
) -> Result<Answers, Fail> {
    let steps = [
        Step::Sell(sales),
        Step::Turn(0),
        Step::Turn(0),
        Step::Turn(0),
    ];
    answers(rt, agency, &steps)
}

const NEW: ReplyLine = ReplyLine::First(Line::Correcto);

const AGAIN: ReplyLine = ReplyLine::Duplicado(State3::Correcto);

const UNSEEN: Seen = Seen::NotSeen;

const WAS: Seen = Seen::Was(Line::Correcto);

// The first record, of which the agency said that it has it, or took it.
const FIRST_AGAIN: Evidence = Evidence::Forgotten {
    place: 1,
    said: AGAIN,
};

const FIRST_NEW: Evidence = Evidence::Forgotten {
    place: 1,
    said: NEW,
};

const SECOND_AGAIN: Evidence = Evidence::Forgotten {
    place: 2,
    said: AGAIN,
};

// What an agency replies for two sales, what it then has seen of them, the place that is in doubt, and what it has forgotten.
type Forgets = (&'static str, [ReplyLine; 2], [Seen; 2], u32, Evidence);

const FORGETTING: [Forgets; 3] = [
    ("both", [AGAIN, AGAIN], [UNSEEN, UNSEEN], 1, FIRST_AGAIN),
    ("the new one", [NEW, AGAIN], [UNSEEN, UNSEEN], 2, FIRST_NEW),
    ("the old one", [NEW, AGAIN], [WAS, UNSEEN], 2, SECOND_AGAIN),
];

#[test]
fn an_agency_that_invents_and_forgets(rt: HostRuntime) -> Result<(), Fail> {
    for (name, said, then, place, forgotten) in FORGETTING {
        let mut agency = inventing(rt.alloc(), &said, &then)?;
        let turns = three_turns(&rt, &mut agency, 2)?;
        let wanted = [
            Ok(Turn::Cleared),
            Ok(Turn::Doubt { place }),
            Err(SendFault::Contradiction(forgotten)),
        ];
        holds(turns.as_slice() == wanted.as_slice(), name)?;
    }
    Ok(())
}

const HOLE: [Result<Turn, SendFault>; 3] = [
    Err(SendFault::Contradiction(Evidence::Hole { unseen: 1, seen: 2 })),
    Err(SendFault::LinkFault),
    Err(SendFault::LinkFault),
];

// It has seen the second of two records and not the first.
#[test]
fn an_agency_with_a_hole(rt: HostRuntime) -> Result<(), Fail> {
    let mut agency = saying(rt.alloc(), &[UNSEEN, WAS])?;
    let said = three_turns(&rt, &mut agency, 2)?;
    holds(said.as_slice() == HOLE.as_slice(), "a hole")
}

// How many batches were handed over.
fn submitted(agency: &ToldAgency) -> usize {
    agency
        .messages()
        .iter()
        .filter(|m| matches!(m, Message::Submitted { .. }))
        .count()
}

// What a drain of three sales answers, and what it tells.
fn drained(
    rt: &(impl AllocGlobal + Wait),
    agency: &mut ToldAgency,
) -> Result<(Result<(), DrainFault>, Turns), Fail> {
    let alloc = rt.alloc();
    let mut shop = shop_of(alloc, 3)?;
    let mut sleeper = LeapSleeper::new(NEXT_DAY);
    let mut told = Turns::new(alloc);
    let mut sender = Sender::new();
    let ended = sender.drain(rt, alloc, &mut shop, agency, &mut sleeper, &mut told);
    Ok((ended, told))
}

const THREE_LEFT: DrainFault = DrainFault::Undelivered {
    noted: 0,
    records: 3,
};

// Two answers for three records, a reply to a consultation, and then nothing: each is a fault of the link.
#[test]
fn answers_that_fit_no_question(rt: HostRuntime) -> Result<(), Fail> {
    let mut agency = inventing(rt.alloc(), &[NEW, NEW], &[UNSEEN, UNSEEN])?;
    let (ended, told) = drained(&rt, &mut agency)?;
    holds(ended == Err(THREE_LEFT), "the end")?;
    holds(told.as_slice() == [Told::Link; 8].as_slice(), "the turns")?;
    holds(submitted(&agency) == 0, "no batch")?;
    holds(agency.messages().len() == 8, "eight messages")
}
