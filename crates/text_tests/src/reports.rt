//! The lines that a till and an owner read.
use agency_port::{Evidence, ReplyLine, Told, Turns};
use amounts::Cents;
use journal::StoreFault;
use parties::Nif;
use record_fields::{DraftFault, Line};
use report::{
    AnswerLine, Answers, Closed, Detail, answers_text, closed_text, ended_text, fault_text,
    followed_text, issuer_text, matches_text, migrated_text, status_of, turns_text, verdict_text,
};
use series::{InvoiceId, NumSerie};
use shop_core::{AuditEnd, Receipt, Refusal, Reply, What, Word};
use stamps::{civil_day, stamp_at};
use std::alloc::Global;
use std::test::Fail;
use test_rows::holds;

// 2025-01-01, 10:00 on the peninsular clock.
const TEN: u64 = 1_735_722_000;

const ANSWERS: &str = "\
till 64 serial 4294967295 taken 1000000 A/B-7 AB0000000000000000000000000000000000000000000000000000000000000F\n\
till 64 serial 4294967295 again 1000000 A/B-7 AB0000000000000000000000000000000000000000000000000000000000000F\n\
till 64 serial 4294967295 refused passed 5\n\
till 64 serial 4294967295 refused draft customer-missing\n\
till 64 serial 4294967295 refused draft customer-unwanted\n\
till 64 serial 4294967295 refused draft rect-missing\n\
till 64 serial 4294967295 refused draft rect-unwanted\n\
till 64 serial 4294967295 refused draft refs-missing\n\
till 64 serial 4294967295 refused draft refs-unwanted\n\
till 64 serial 4294967295 refused draft too-many-refs 101\n\
till 64 serial 4294967295 refused old-file 11\n\
till 64 serial 4294967295 refused unknown\n\
till 64 serial 4294967295 refused cancelled 3\n\
till 64 serial 4294967295 refused ref 0\n\
till 64 serial 4294967295 refused full\n\
till 64 serial 4294967295 refused clock 1704067199\n\
till 64 serial 4294967295 refused twice 12\n\
till 64 serial 4294967295 refused draft over-simplified 300001\n\
till 64 serial 4294967295 fault disk\n\
till 64 serial 4294967295 fault stopped 18446744073709551615\n\
till 64 serial 4294967295 fault memory\n\
till 64 saw 18446744073709551615\n";

const SOUND: &str =
    "sound 1000000 noted 7 last AB0000000000000000000000000000000000000000000000000000000000000F\n";

const TURNS: &str = "\
wait 18446744073709551615\n\
noted 1000\n\
cleared\n\
doubt 1000000\n\
link\n\
contradiction\n\
fault disk\n\
fault stopped 18446744073709551615\n\
fault memory\n\
chain 1000000 noted 7\n";

fn issuer() -> Result<Nif, Fail> {
    match Nif::read("89890001K") {
        Ok(nif) => Ok(nif),
        Err(_) => Err(Fail::from("a tax number")),
    }
}

fn number(num: &str) -> Result<NumSerie, Fail> {
    Ok(NumSerie::read(num).ok_or("a number")?)
}

fn receipt() -> Result<Receipt, Fail> {
    let Ok(moment) = stamp_at(TEN) else {
        return Err(Fail::from("a moment"));
    };
    let mut huella = [0u8; 32];
    huella[0] = 0xab;
    huella[31] = 0x0f;
    Ok(Receipt {
        place: 1_000_000,
        id: InvoiceId {
            num: number("A/B-7")?,
            day: civil_day(&moment),
        },
        moment,
        huella,
    })
}

fn answered(reply: Result<Reply, StoreFault>) -> AnswerLine {
    AnswerLine::Answered {
        till: 64,
        serial: u32::MAX,
        reply,
    }
}

fn refused(why: Refusal) -> AnswerLine {
    answered(Ok(Reply::Refused(why)))
}

// Fails where bytes are another text than this.
fn says(bytes: &[u8], text: &str) -> Result<(), Fail> {
    holds(bytes == text.as_bytes(), text)
}

const REFUSALS: [Refusal; 15] = [
    Refusal::Passed { last: 5 },
    Refusal::BadDraft(DraftFault::CustomerMissing),
    Refusal::BadDraft(DraftFault::CustomerUnwanted),
    Refusal::BadDraft(DraftFault::RectMissing),
    Refusal::BadDraft(DraftFault::RectUnwanted),
    Refusal::BadDraft(DraftFault::RefsMissing),
    Refusal::BadDraft(DraftFault::RefsUnwanted),
    Refusal::BadDraft(DraftFault::TooManyRefs { n: 101 }),
    Refusal::OldFile { index: 11 },
    Refusal::Unknown,
    Refusal::Cancelled { place: 3 },
    Refusal::RefNotSimplified { index: 0 },
    Refusal::ChainFull,
    Refusal::ClockRange { now: 1_704_067_199 },
    Refusal::HuellaTwice { place: 12 },
];

const FAULTS: [StoreFault; 3] = [
    StoreFault::DiskFault,
    StoreFault::Stopped { faults: u64::MAX },
    StoreFault::NoMemory,
];

// The lines of `ANSWERS`.
fn answers(alloc: Global) -> Result<Answers, Fail> {
    let total = Cents::new(300_001).ok_or("a total")?;
    let mut lines = Vec::new(alloc);
    lines.push(answered(Ok(Reply::Taken(receipt()?))))?;
    lines.push(answered(Ok(Reply::Again(receipt()?))))?;
    for why in REFUSALS {
        lines.push(refused(why))?;
    }
    lines.push(refused(Refusal::BadDraft(DraftFault::OverSimplified { total })))?;
    for fault in FAULTS {
        lines.push(answered(Err(fault)))?;
    }
    lines.push(AnswerLine::Saw {
        till: 64,
        count: u64::MAX,
    })?;
    Ok(Answers::of(lines))
}

#[test]
fn answers_have_lines(rt: HostRuntime) -> Result<(), Fail> {
    let alloc = rt.alloc();
    let text = answers_text(alloc, &answers(alloc)?)?;
    says(text.as_slice(), ANSWERS)?;
    let none = answers_text(alloc, &Answers::of(Vec::new(alloc)))?;
    says(none.as_slice(), "")
}

const TOLD: [Told; 9] = [
    Told::Wait(u64::MAX),
    Told::Noted(1000),
    Told::Cleared,
    Told::Doubt(1_000_000),
    Told::Link,
    Told::Contradiction,
    Told::Disk,
    Told::Stopped(u64::MAX),
    Told::Memory,
];

#[test]
fn turns_have_lines(rt: HostRuntime) -> Result<(), Fail> {
    let alloc = rt.alloc();
    let turns = Turns::of(Vec::from_slice(alloc, &TOLD)?);
    let text = turns_text(alloc, &turns, 1_000_000, 7)?;
    says(text.as_slice(), TURNS)?;
    let none = turns_text(alloc, &Turns::new(alloc), 0, 0)?;
    says(none.as_slice(), "chain 0 noted 0\n")
}

const BAD_LINE: Detail = Detail::Script {
    line: 16_777_217,
    fault: Word::TooMany,
};

const UNDELIVERED: Detail = Detail::Undelivered {
    noted: 7,
    records: 1_000_000,
};

const HOLE: Evidence = Evidence::Hole {
    unseen: 12,
    seen: 13,
};

const FORGOTTEN: Evidence = Evidence::Forgotten {
    place: 1_000_000,
    said: ReplyLine::First(Line::Correcto),
};

const ENDS: [(Detail, u8, &str); 19] = [
    (Detail::Done, 0, ""),
    (Detail::Usage, 2, "verifactu: usage\n"),
    (BAD_LINE, 3, "verifactu: script line 16777217 TooMany\n"),
    (Detail::ReadFault, 4, "verifactu: read fault\n"),
    (Detail::WriteFault, 5, "verifactu: write fault\n"),
    (Detail::DiskFault, 6, "verifactu: disk fault\n"),
    (Detail::Damaged { at: 19 }, 7, "verifactu: damaged at 19\n"),
    (
        Detail::Broken {
            place: 1,
            what: What::Seal,
        },
        9,
        "verifactu: broken 1 seal\n",
    ),
    (UNDELIVERED, 8, "verifactu: undelivered 7 of 1000000\n"),
    (
        Detail::Contradiction(HOLE),
        11,
        "verifactu: contradiction at 12\n",
    ),
    (
        Detail::Contradiction(FORGOTTEN),
        11,
        "verifactu: contradiction at 1000000\n",
    ),
    (Detail::NoMemory, 10, "verifactu: no memory\n"),
    (Detail::TooBig, 12, "verifactu: input too big\n"),
    (Detail::Unknown, 14, "verifactu: no such invoice\n"),
    (
        Detail::Occupied { length: u64::MAX },
        15,
        "verifactu: occupied\n",
    ),
    (Detail::NotOld { held: 2 }, 16, "verifactu: not old 2\n"),
    (
        Detail::Parted { entry: 1_000_000 },
        17,
        "verifactu: parted at 1000000\n",
    ),
    (
        Detail::Differs { line: u64::MAX },
        18,
        "verifactu: differs at line 18446744073709551615\n",
    ),
    (
        Detail::Issuer {
            index: 7,
            status: 13,
        },
        13,
        "verifactu: issuer 7\n",
    ),
];

fn ends(alloc: Global, detail: &Detail, status: u8, text: &str) -> Result<bool, Fail> {
    let printed = fault_text(alloc, detail)?;
    Ok(status_of(detail) == status && printed.as_slice() == text.as_bytes())
}

#[test]
fn ends_have_texts(rt: HostRuntime) -> Result<(), Fail> {
    let alloc = rt.alloc();
    for (detail, status, text) in ENDS {
        holds(ends(alloc, &detail, status, text)?, text)?;
    }
    let other = Detail::OtherIssuer { held: issuer()? };
    let text = "verifactu: file of 89890001K\n";
    holds(ends(alloc, &other, 13, text)?, text)
}

#[test]
fn counts_have_lines(rt: HostRuntime) -> Result<(), Fail> {
    let alloc = rt.alloc();
    let moved = migrated_text(alloc, 1_000_000, 7)?;
    says(moved.as_slice(), "migrated 1000000 noted 7\n")?;
    let followed = followed_text(alloc, 2, 2_000_000)?;
    says(followed.as_slice(), "followed 2 entries 2000000\n")?;
    let matched = matches_text(alloc, 2_000_000)?;
    says(matched.as_slice(), "matches 2000000\n")
}

const CLOSED: [(Closed, &str); 3] = [
    (
        Closed::Damaged { at: u64::MAX },
        "closed damaged 18446744073709551615\n",
    ),
    (Closed::Disk, "closed disk\n"),
    (Closed::Memory, "closed memory\n"),
];

#[test]
fn a_block_has_its_lines(rt: HostRuntime) -> Result<(), Fail> {
    let alloc = rt.alloc();
    for (closed, text) in CLOSED {
        let line = closed_text(alloc, &closed)?;
        says(line.as_slice(), text)?;
    }
    let held = issuer()?;
    let other = closed_text(alloc, &Closed::FileOf { held })?;
    says(other.as_slice(), "closed file-of 89890001K\n")?;
    let head = issuer_text(alloc, &held)?;
    says(head.as_slice(), "issuer 89890001K\n")?;
    let end = ended_text(alloc, 255)?;
    says(end.as_slice(), "ended 255\n")
}

const BROKEN: [(What, &str); 7] = [
    (
        What::Header,
        "broken 1000001 at 18446744073709551615 header\n",
    ),
    (
        What::Frame,
        "broken 1000001 at 18446744073709551615 frame\n",
    ),
    (What::Body, "broken 1000001 at 18446744073709551615 body\n"),
    (
        What::Notes,
        "broken 1000001 at 18446744073709551615 notes\n",
    ),
    (What::Link, "broken 1000001 at 18446744073709551615 link\n"),
    (What::Seal, "broken 1000001 at 18446744073709551615 seal\n"),
    (What::Rule, "broken 1000001 at 18446744073709551615 rule\n"),
];

#[test]
fn verdicts_have_lines(rt: HostRuntime) -> Result<(), Fail> {
    let mut huella = [0u8; 32];
    huella[0] = 0xab;
    huella[31] = 0x0f;
    let sound = AuditEnd::Sound {
        records: 1_000_000,
        noted: 7,
        last: Some(huella),
    };
    let printed = verdict_text(rt.alloc(), &sound)?;
    says(printed.as_slice(), SOUND)?;
    for (what, text) in BROKEN {
        let broken = AuditEnd::Broken {
            place: 1_000_001,
            at: u64::MAX,
            what,
        };
        let printed = verdict_text(rt.alloc(), &broken)?;
        says(printed.as_slice(), text)?;
    }
    Ok(())
}
