//! The lines of answers.
ghost use Rattle.std.specs.Prelude.{◌≡◌, ◌++◌, OnOk, IfOk};
ghost use Rattle.report.specs.Answers as spec;

use crate::pieces::{put, put_counted, put_huella, put_number, put_signed};
use journal::StoreFault;
use ports::NoMemory;
use record_fields::{DraftFault, Text};
use shop_core::{Receipt, Refusal, Reply};
use std::alloc::{AllocError, Global};
use std::marker::Model;

/// What was told to whom, to be printed on one line.
#[derive(Clone, Copy, Debug, PartialEq, Eq)]
pub enum AnswerLine {
    /// What a till was told under a serial of its own, or why its command could not be answered.
    Answered {
        till: u8,
        serial: u32,
        reply: Result<Reply, StoreFault>,
    },
    /// How many items of the shop's list a till had seen when its commands were done.
    Saw {
        till: u8,
        count: u64,
    },
}

/// Answers, in the order in which they are printed.
#[derive(Drop)]
pub struct Answers {
    lines: Vec<AnswerLine>,
}

impl Model for Answers {
    ghost use Rattle.std.specs.Prelude.{List};
    ghost use Rattle.report.specs.declared.answers.AnswerLine.{AnswerLine};

    ghost Value = { List AnswerLine };

    ghost view = { λ a. a.lines.items };
}

impl Answers {
    pub fn of(lines: Vec<AnswerLine>) -> Answers
        ensures { result ≡ lines.items }
    {
        Answers { lines }
    }

    pub fn as_slice(&self) -> &[AnswerLine]
        ensures { result.now ≡ self.now }
    {
        &self.lines
    }
}

fn put_receipt(text: &mut Vec<u8>, receipt: &Receipt) -> Result<(), AllocError>
    ensures { OnOk result (text.new.items ≡ text.old.items ++ spec.receipt_text receipt.now) }
{
    put_number(text, u64::from(receipt.place))?;
    put(text, b" ")?;
    put(text, receipt.id.num.as_slice())?;
    put(text, b" ")?;
    put_huella(text, &receipt.huella)
}

fn put_draft_fault(text: &mut Vec<u8>, fault: DraftFault) -> Result<(), AllocError>
    ensures { OnOk result (text.new.items ≡ text.old.items ++ spec.draft_fault_text fault) }
{
    match fault {
        DraftFault::CustomerMissing => put(text, b"customer-missing"),
        DraftFault::CustomerUnwanted => put(text, b"customer-unwanted"),
        DraftFault::RectMissing => put(text, b"rect-missing"),
        DraftFault::RectUnwanted => put(text, b"rect-unwanted"),
        DraftFault::RefsMissing => put(text, b"refs-missing"),
        DraftFault::RefsUnwanted => put(text, b"refs-unwanted"),
        DraftFault::TooManyRefs { n } => put_counted(text, b"too-many-refs ", n as u64),
        DraftFault::OverSimplified { total } => put_signed(text, b"over-simplified ", total.get()),
    }
}

fn put_refusal(text: &mut Vec<u8>, why: Refusal) -> Result<(), AllocError>
    ensures { OnOk result (text.new.items ≡ text.old.items ++ spec.refusal_text why) }
{
    match why {
        Refusal::Passed { last } => put_counted(text, b"passed ", u64::from(last)),
        Refusal::BadDraft(fault) => {
            put(text, b"draft ")?;
            put_draft_fault(text, fault)
        }
        Refusal::OldFile { index } => put_counted(text, b"old-file ", u64::from(index)),
        Refusal::Unknown => put(text, b"unknown"),
        Refusal::Cancelled { place } => put_counted(text, b"cancelled ", u64::from(place)),
        Refusal::RefNotSimplified { index } => put_counted(text, b"ref ", u64::from(index)),
        Refusal::ChainFull => put(text, b"full"),
        Refusal::ClockRange { now } => put_counted(text, b"clock ", now),
        Refusal::HuellaTwice { place } => put_counted(text, b"twice ", u64::from(place)),
    }
}

fn put_reply(text: &mut Vec<u8>, reply: &Reply) -> Result<(), AllocError>
    ensures { OnOk result (text.new.items ≡ text.old.items ++ spec.reply_text reply.now) }
{
    match reply {
        Reply::Taken(receipt) => {
            put(text, b"taken ")?;
            put_receipt(text, receipt)
        }
        Reply::Again(receipt) => {
            put(text, b"again ")?;
            put_receipt(text, receipt)
        }
        Reply::Refused(why) => {
            put(text, b"refused ")?;
            put_refusal(text, *why)
        }
    }
}

fn put_store_fault(text: &mut Vec<u8>, fault: StoreFault) -> Result<(), AllocError>
    ensures { OnOk result (text.new.items ≡ text.old.items ++ spec.store_fault_text fault) }
{
    match fault {
        StoreFault::DiskFault => put(text, b"disk"),
        StoreFault::Stopped { faults } => put_counted(text, b"stopped ", faults),
        StoreFault::NoMemory => put(text, b"memory"),
    }
}

fn put_told(text: &mut Vec<u8>, told: &Result<Reply, StoreFault>) -> Result<(), AllocError>
    ensures { OnOk result (text.new.items ≡ text.old.items ++ spec.told_text told.now) }
{
    match told {
        Ok(reply) => put_reply(text, reply),
        Err(fault) => {
            put(text, b"fault ")?;
            put_store_fault(text, *fault)
        }
    }
}

fn put_answer(text: &mut Vec<u8>, answer: &AnswerLine) -> Result<(), AllocError>
    ensures { OnOk result (text.new.items ≡ text.old.items ++ spec.answer_line answer.now) }
{
    match answer {
        AnswerLine::Answered {
            till,
            serial,
            reply,
        } => {
            put_counted(text, b"till ", u64::from(*till))?;
            put_counted(text, b" serial ", u64::from(*serial))?;
            put(text, b" ")?;
            put_told(text, reply)?;
            put(text, b"\n")
        }
        AnswerLine::Saw { till, count } => {
            put_counted(text, b"till ", u64::from(*till))?;
            put_counted(text, b" saw ", *count)?;
            put(text, b"\n")
        }
    }
}

fn put_answers(text: &mut Vec<u8>, answers: &[AnswerLine]) -> Result<(), AllocError>
    ensures { OnOk result (text.new.items ≡ text.old.items ++ spec.answers_text answers.now) }
{
    let mut rest = answers;
    while let [answer, after @ ..] = rest {
        put_answer(text, answer)?;
        rest = after;
    }
    Ok(())
}

/// A line for each answer, in order.
pub fn answers_text(alloc: Global, answers: &Answers) -> Result<Text, NoMemory>
    //= Each answer is one line, in order: till and serial, and the receipt, the refusal with its numbers, or the
    //= fault.
    ensures { IfOk result (λ text. text ≡ spec.answers_text answers.now) }
{
    let mut text = Vec::new(alloc);
    put_answers(&mut text, answers.as_slice())?;
    Ok(Text::of(text))
}
