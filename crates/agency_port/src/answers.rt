//! What the agency answers for each record.
ghost use Rattle.std.specs.Prelude.{◌≡◌, IfOk};
ghost use Rattle.agency_port.specs.Answers as spec;

use agency_rules::Delivered;
use ports::NoMemory;
use record_fields::Line;
use std::alloc::Global;
use std::marker::Model;
use thiserror::Error;

/// Why a call to the agency has no answer.
#[derive(Clone, Copy, Debug, PartialEq, Eq, Error)]
pub enum AgencyFault {
    /// It comes only where the agency's count of faults rose in this call.
    #[error("the agency did not answer")]
    Failed,
    #[error("no memory")]
    NoMemory,
}

impl From<NoMemory> for AgencyFault {
    ghost use Rattle.agency_port.specs.declared.answers.AgencyFault.TheVariants as fault_of;

    ghost from_gives = { λ _ fault. fault ≡ fault_of.NoMemory };

    fn from(_: NoMemory) -> Self {
        AgencyFault::NoMemory
    }
}

/// The state of a line that the agency keeps.
#[derive(Clone, Copy, Debug, PartialEq, Eq)]
pub enum State3 {
    Correcto,
    ConErrores,
    Incorrecto,
}

/// What a submission is answered for one of its records.
#[derive(Clone, Copy, Debug, PartialEq, Eq)]
pub enum ReplyLine {
    /// It is new, and this is its line.
    First(Line),
    /// It came before, and its line has this state.
    Duplicado(State3),
}

/// What a consultation is answered for one Huella.
#[derive(Clone, Copy, Debug, PartialEq, Eq)]
pub enum Seen {
    NotSeen,
    /// The line of its record.
    Was(Line),
}

fn state_of(line: Line) -> State3
    ensures { result ≡ spec.state_of line }
{
    match line {
        Line::Correcto => State3::Correcto,
        Line::ConErrores(_) => State3::ConErrores,
        Line::Incorrecto(_) => State3::Incorrecto,
    }
}

// The answer for a record that was delivered.
pub(crate) fn reply_line(met: Delivered) -> ReplyLine
    ensures { result ≡ spec.reply_line met }
{
    match met {
        Delivered::First(line) => ReplyLine::First(line),
        Delivered::Again(line) => ReplyLine::Duplicado(state_of(line)),
    }
}

// The answer for a Huella under which this line stands, if any.
pub(crate) fn seen_of(line: Option<Line>) -> Seen
    ensures { result ≡ spec.seen_of line }
{
    match line {
        None => Seen::NotSeen,
        Some(line) => Seen::Was(line),
    }
}

/// The answers to a submission, one a record.
#[derive(Drop)]
pub struct ReplyLines {
    list: Vec<ReplyLine>,
}

impl Model for ReplyLines {
    ghost use Rattle.std.specs.Prelude.{List};
    ghost use Rattle.agency_port.specs.declared.answers.ReplyLine.{ReplyLine};

    ghost Value = { List ReplyLine };

    ghost view = { λ l. l.list.items };
}

impl ReplyLines {
    /// The list of these answers.
    pub fn of(list: Vec<ReplyLine>) -> ReplyLines
        ensures { result ≡ list.items }
    {
        ReplyLines { list }
    }

    /// The answers, in order.
    pub fn as_slice(&self) -> &[ReplyLine]
        ensures { result.now ≡ self.now }
    {
        &self.list
    }

    /// The same answers, in memory of their own.
    pub fn copied(&self, alloc: Global) -> Result<ReplyLines, NoMemory>
        ensures { IfOk result (λ lines. lines ≡ self.now) }
    {
        Ok(ReplyLines {
            list: Vec::from_slice(alloc, &self.list)?,
        })
    }
}

/// The answers to a consultation, one a Huella.
#[derive(Drop)]
pub struct SeenList {
    list: Vec<Seen>,
}

impl Model for SeenList {
    ghost use Rattle.std.specs.Prelude.{List};
    ghost use Rattle.agency_port.specs.declared.answers.Seen.{Seen};

    ghost Value = { List Seen };

    ghost view = { λ l. l.list.items };
}

impl SeenList {
    /// The list of these answers.
    pub fn of(list: Vec<Seen>) -> SeenList
        ensures { result ≡ list.items }
    {
        SeenList { list }
    }

    /// The answers, in order.
    pub fn as_slice(&self) -> &[Seen]
        ensures { result.now ≡ self.now }
    {
        &self.list
    }

    /// The same answers, in memory of their own.
    pub fn copied(&self, alloc: Global) -> Result<SeenList, NoMemory>
        ensures { IfOk result (λ seen. seen ≡ self.now) }
    {
        Ok(SeenList {
            list: Vec::from_slice(alloc, &self.list)?,
        })
    }
}
