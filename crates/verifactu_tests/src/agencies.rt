//! Agencies whose answers are told: those that forget, have a hole, fall silent, or answer another question.
use crate::runs::{DAY, DRAIN, Left, ONE, SERVE, TWO, file_of, ran, run_with};
use agency_port::{
    Evidence, Message, Reply, ReplyLine, ReplyLines, Seen, SeenList, State3, ToldAgency,
    ToldAnswer, ToldAnswers,
};
use batches::HuellaList;
use ports::OpenGate;
use record_fields::Line;
use report::Detail;
use std::alloc::Global;
use std::sync::Wait;
use std::test::Fail;
use std::thread::Threads;
use test_rows::holds;

const THREE: &str = "sale 1 1 A F2 21:10000\nsale 1 2 A F2 21:10000\nsale 1 3 A F2 21:10000\n";

// What an agency says of two records.
#[derive(Clone, Copy)]
enum Says {
    Seen(Seen, Seen),
    Replies(ReplyLine),
}

// The Huellas of two sales, as a drain of them asks for them.
fn two_huellas(rt: &(impl AllocGlobal + Threads + Wait + Sync)) -> Result<HuellaList, Fail> {
    let left = ran(rt, DRAIN, "", file_of(rt, TWO)?)?;
    for entry in left.agency.log() {
        if let Message::Consulted { asked, .. } = &entry.message {
            return Ok(asked.list().copied(rt.alloc())?);
        }
    }
    Err(Fail::from("a consultation"))
}

// A reply that says the same of two records.
fn reply(alloc: Global, huellas: &HuellaList, line: ReplyLine) -> Result<ToldAnswer, Fail> {
    let lines = ReplyLines::of(Vec::from_slice(alloc, &[line, line])?);
    if lines.as_slice().len() != huellas.as_slice().len() {
        return Err(Fail::from("two records"));
    }
    Ok(ToldAnswer::Submitted(Reply::of(huellas.copied(alloc)?, lines, 60)))
}

fn answer(alloc: Global, huellas: &HuellaList, says: &Says) -> Result<ToldAnswer, Fail> {
    match says {
        Says::Seen(first, second) => {
            let seen = Vec::from_slice(alloc, &[*first, *second])?;
            Ok(ToldAnswer::Consulted(SeenList::of(seen)))
        }
        Says::Replies(line) => reply(alloc, huellas, *line),
    }
}

// An agency that says this, and then nothing.
fn saying(alloc: Global, huellas: &HuellaList, said: &[Says]) -> Result<ToldAgency, Fail> {
    let mut answers = Vec::new(alloc);
    for says in said {
        answers.push(answer(alloc, huellas, says)?)?;
    }
    Ok(ToldAgency::new(alloc, ToldAnswers::of(answers)))
}

const UNSEEN: Says = Says::Seen(Seen::NotSeen, Seen::NotSeen);

const AGAIN: ReplyLine = ReplyLine::Duplicado(State3::Correcto);

const FORGETFUL: [Says; 3] = [UNSEEN, Says::Replies(AGAIN), UNSEEN];

const GAP: [Says; 1] = [Says::Seen(Seen::NotSeen, Seen::Was(Line::Correcto))];

// Three records wait: two answers don't fit a question for three, and a reply fits no question.
const OTHER: [Says; 2] = [UNSEEN, Says::Replies(ReplyLine::First(Line::Correcto))];

const FORGOTTEN: Detail = Detail::Contradiction(Evidence::Forgotten {
    place: 1,
    said: AGAIN,
});

const HOLE: Detail = Detail::Contradiction(Evidence::Hole { unseen: 1, seen: 2 });

const ONE_LEFT: Detail = Detail::Undelivered {
    noted: 0,
    records: 1,
};

const THREE_LEFT: Detail = Detail::Undelivered {
    noted: 0,
    records: 3,
};

// The words, the sales on the file, what is read, what the agency says, the end, the end of what is printed, and how many
// messages the agency had at least and at most. After a contradiction nothing is asked; there are eight faults of the link
// after the tills have ended, and maybe more while they ask.
type Told = (
    &'static str,
    &'static str,
    &'static str,
    &'static str,
    &'static [Says],
    Detail,
    &'static str,
    (usize, usize),
);

const ENDS: [Told; 7] = [
    (
        "a drain, forgotten",
        DRAIN,
        TWO,
        "",
        &FORGETFUL,
        FORGOTTEN,
        "cleared\ndoubt 1\ncontradiction\nchain 2 noted 0\n",
        (4, 4),
    ),
    (
        "a drain, a hole",
        DRAIN,
        TWO,
        "",
        &GAP,
        HOLE,
        "contradiction\nchain 2 noted 0\n",
        (2, 2),
    ),
    (
        "a drain, another question",
        DRAIN,
        THREE,
        "",
        &OTHER,
        THREE_LEFT,
        "link\nlink\nlink\nlink\nlink\nlink\nlink\nlink\nchain 3 noted 0\n",
        (9, 9),
    ),
    (
        "a day, forgotten",
        DAY,
        TWO,
        "",
        &FORGETFUL,
        FORGOTTEN,
        " pending\nchain 2 noted 0\n",
        (4, 4),
    ),
    (
        "a day, silence",
        DAY,
        "",
        ONE,
        &[],
        ONE_LEFT,
        " pending\nchain 1 noted 0\n",
        (9, 1000),
    ),
    (
        "a dialogue, forgotten",
        SERVE,
        TWO,
        "",
        &FORGETFUL,
        FORGOTTEN,
        "chain 2 noted 0\n",
        (4, 4),
    ),
    (
        "a dialogue, silence",
        SERVE,
        "",
        ONE,
        &[],
        ONE_LEFT,
        "till 1 serial 1 taken 1 A-1 D88B42F8D11C4EA2112502EC992F055A7E94F796D67095359B946A4A5B03E616\nchain 1 noted 0\n",
        (9, 1000),
    ),
];

// Whether a run left this end.
fn ends_so(left: &Left<ToldAgency>, row: &Told) -> bool {
    let is_told = left.ended.detail == row.5 && left.text.ends_with(row.6);
    let messages = left.agency.messages().len();
    is_told && row.7.0 <= messages && messages <= row.7.1
}

fn ends(
    rt: &(impl AllocGlobal + Threads + Wait + Sync),
    row: &Told,
    agency: ToldAgency,
) -> Result<(), Fail> {
    let file = file_of(rt, row.2)?;
    let left = run_with(rt, row.1, row.3, (0, 0), file, agency, &OpenGate)?;
    holds(ends_so(&left, row), row.0)
}

#[test]
fn agencies_that_forget_or_fall_silent_have_their_ends(rt: HostRuntime) -> Result<(), Fail> {
    let huellas = two_huellas(&rt)?;
    for row in &ENDS {
        ends(&rt, row, saying(rt.alloc(), &huellas, row.4)?)?;
    }
    Ok(())
}
