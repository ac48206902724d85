//! What a question is answered at a history.
ghost use Rattle.std.specs.Prelude.{◌≡◌, IfOk};
ghost use Rattle.questions.specs.Answers as spec;
ghost use Rattle.questions.specs.Answers.{AreLinesAnswer};

use crate::TillQuestion;
use amounts::Cents;
use ports::NoMemory;
use record_fields::{Record, Text};
use report::{
    chain_text, last_text, no_record_text, no_serial_text, no_ticket_text, record_text,
    ticket_text, total_lines_text,
};
use series::NumSerie;
use shop_core::State;
use std::alloc::Global;
use tax_lines::{LineKey, lines_of_total};
use till_calls::Question;
use verify_link::{Host, link_of};

fn ticket(alloc: Global, state: &State, num: &NumSerie, host: Host) -> Result<Text, NoMemory>
    ensures { IfOk result (λ text. text ≡ spec.ticket_answer num.now host (spec.ticket_of state.now.entries num.now)) }
{
    let Some((place, sealed)) = state.placed_alta(alloc, num)? else {
        return no_ticket_text(alloc, num.as_slice());
    };
    let Record::Alta(alta) = &sealed.body else {
        return no_ticket_text(alloc, num.as_slice());
    };
    let link = link_of(alloc, alta, host)?;
    ticket_text(
        alloc,
        place,
        alta,
        &sealed.huella,
        link.as_slice(),
        state.line(place),
    )
}

fn record(alloc: Global, state: &State, place: u32) -> Result<Text, NoMemory>
    ensures { IfOk result (λ text. text ≡ spec.record_answer state.now.entries place) }
{
    match state.sealed(alloc, place)? {
        Some(sealed) => record_text(alloc, place, &sealed, state.line(place)),
        None => no_record_text(alloc, place),
    }
}

fn serial(alloc: Global, state: &State, till: u8, serial: u32) -> Result<Text, NoMemory>
    ensures { IfOk result (λ text. text ≡ spec.serial_answer state.now.entries till serial) }
{
    match state.kept(till, serial) {
        Some(receipt) => record(alloc, state, receipt.place),
        None => no_serial_text(alloc, till, serial),
    }
}

/// The answer to the question for lines, which needs no history.
pub fn lines_answer(alloc: Global, key: LineKey, total: Cents) -> Result<Text, NoMemory>
    ensures { IfOk result (AreLinesAnswer key total) }
{
    total_lines_text(alloc, lines_of_total(key, total))
}

impl TillQuestion {
    ghost use Rattle.questions.specs.Answers.{IsAnswer};

    /// The line that answers it at a history.
    pub fn answer(&self, alloc: Global, state: &State) -> Result<Text, NoMemory>
        //= A question is answered by its definition at a history.
        ensures { IfOk result (IsAnswer self.now state.now.entries) }
    {
        match self {
            TillQuestion::Ticket { num, host } => ticket(alloc, state, num, *host),
            TillQuestion::Record { place } => record(alloc, state, *place),
            TillQuestion::Serial {
                till,
                serial: number,
            } => serial(alloc, state, *till, *number),
            TillQuestion::Last { till } => last_text(alloc, *till, state.last_serial(*till)),
            TillQuestion::Lines { key, total } => lines_answer(alloc, *key, *total),
            TillQuestion::Chain => chain_text(alloc, state.records(), state.noted()),
        }
    }
}

impl Question for TillQuestion {
    type Learnt = Text;

    ghost use Rattle.questions.specs.Answers.{IsAnswer};

    ghost learns = { λ question version issuer entries text. IsAnswer question entries text };

    fn learn(&self, alloc: Global, state: &State) -> Result<Text, NoMemory> {
        self.answer(alloc, state)
    }
}
