//! An agency that was told its answers.
ghost use Rattle.std.specs.Prelude.{◌≡◌, ◌<◌, ◌≤◌, ◌^◌, [], true, false, length, IsTrue, IfOk, OnOk, OnErr};
ghost use Rattle.std.proofs.Common.{rules, arith};
ghost use Rattle.agency_port.specs.Ledger.{counted};
ghost use Rattle.agency_port.specs.Practice.{IsRow, IsOpened};

use crate::fates::{copied_reply, copied_seen};
use crate::telling::{faults_after, next_reply, next_seen};
use crate::{Agency, AgencyFault, Message, Reply, SeenList};
use agency_rules::Plan;
use batches::{Batch, Huellas};
use ports::NoMemory;
use record_fields::{Line, Sealed};
use std::alloc::Global;
use std::marker::Model;

/// An answer that is to be given.
#[derive(Drop)]
pub enum ToldAnswer {
    Submitted(Reply),
    Consulted(SeenList),
}

/// The answers that are to be given, in order.
#[derive(Drop)]
pub struct ToldAnswers {
    list: Vec<ToldAnswer>,
}

impl Model for ToldAnswers {
    ghost use Rattle.std.specs.Prelude.{List};
    ghost use Rattle.agency_port.specs.declared.told.ToldAnswer.{ToldAnswer};

    ghost Value = { List ToldAnswer };

    ghost view = { λ t. t.list.items };
}

impl ToldAnswers {
    /// The list of these answers.
    pub fn of(list: Vec<ToldAnswer>) -> ToldAnswers
        ensures { result ≡ list.items }
    {
        ToldAnswers { list }
    }

    /// The answers, in order.
    pub fn as_slice(&self) -> &[ToldAnswer]
        ensures { result.now ≡ self.now }
    {
        &self.list
    }
}

/// Gives its answers one by one, an answer a submission or a consultation, and then fails. An answer that doesn't fit the
/// question is used up and given as a failure.
#[derive(Drop)]
pub struct ToldAgency {
    answers: ToldAnswers,
    at: usize,
    said: Vec<Message>,
    fault_count: u64,
}

impl Model for ToldAgency {
    ghost use Rattle.std.specs.Prelude.{◌≤◌, drop, length};
    ghost use Rattle.agency_port.specs.Telling.{Telling};

    ghost Value = { Telling };

    ghost view = { λ a. record { answers = drop a.at a.answers; messages = a.said.items; faults = a.fault_count } };

    ghost invariant = { λ a. a.at ≤ length a.answers };
}

impl ToldAgency {
    ghost use Rattle.agency_port.specs.Telling as telling;

    /// An agency that gives these answers.
    pub fn new(alloc: Global, answers: ToldAnswers) -> ToldAgency
        ensures { result ≡ record { answers = answers; messages = []; faults = 0 } }
    {
        ToldAgency {
            answers,
            at: 0,
            said: Vec::new(alloc),
            fault_count: 0,
        }
    }

    /// What was said to it and what it answered, in order.
    pub fn messages(&self) -> &[Message]
        ensures { result.now ≡ self.now.messages }
    {
        &self.said
    }

    /// How often it has failed. At the greatest u64 the count stays.
    pub fn faults(&self) -> u64
        ensures value { result ≡ self.now.faults }
        ensures small { self.now.faults < 2 ^ 64 }
    {
        self.fault_count
    }

    // The next answer is used up.
    fn use_up(&mut self)
        ensures { self.new ≡ telling.used_up self.old }
    {
        if self.at < self.answers.as_slice().len() {
            self.at += 1;
        }
    }

    fn submission(&mut self, alloc: Global, batch: &Batch) -> Result<Reply, AgencyFault>
        ensures { IsRow result (telling.submission_answer self.old.answers batch.now) self.old self.new
            (telling.submitted self.old batch.now) }
    {
        let answer = next_reply(alloc, &self.answers.as_slice()[self.at..], batch)?;
        let message = Message::Submitted {
            batch: batch.copied(alloc)?,
            answer: copied_reply(alloc, &answer)?,
        };
        self.say(message)?;
        self.use_up();
        self.fault_count = faults_after(self.fault_count, &answer);
        answer
    }

    fn consultation(&mut self, alloc: Global, huellas: &Huellas) -> Result<SeenList, AgencyFault>
        ensures { IsRow result (telling.consultation_answer self.old.answers huellas.now.huellas) self.old self.new
            (telling.consulted self.old huellas.now) }
    {
        let answer = next_seen(alloc, &self.answers.as_slice()[self.at..], huellas.list())?;
        let message = Message::Consulted {
            asked: huellas.copied(alloc)?,
            answer: copied_seen(alloc, &answer)?,
        };
        self.say(message)?;
        self.use_up();
        self.fault_count = faults_after(self.fault_count, &answer);
        answer
    }

    // One message more.
    fn say(&mut self, message: Message) -> Result<(), NoMemory>
        ensures ok { OnOk result (self.new ≡ telling.saying self.old message) }
        ensures err { OnErr result (self.new ≡ self.old) }
    {
        self.said.push(message)?;
        Ok(())
    }
}

impl Agency for ToldAgency {
    ghost use Rattle.std.specs.Prelude.{refl};
    ghost use Rattle.agency_port.specs.Telling as telling;

    ghost tells = { true };

    ghost keeps_rules = { false };

    ghost ledger = { telling.ledger_of };

    ghost faults = { λ a. counted a.faults };

    ghost begun = { λ processed _. processed };

    ghost opening = { λ old new plan noted result. IsOpened result old new (telling.opened old plan (length noted)) };

    ghost submission = { λ old new batch result.
        IsRow result (telling.submission_answer old.answers batch) old new (telling.submitted old batch) };

    ghost consultation = { λ old new huellas result.
        IsRow result (telling.consultation_answer old.answers huellas.huellas) old new (telling.consulted old huellas) };

    ghost keeps_and_tells = { λ keeps. refl };

    ghost few_faults = { Prim.search (rules, arith) };

    ghost sent_is = { λ agency tells. refl };

    fn begin(
        &mut self,
        alloc: Global,
        plan: &Plan,
        noted: &[(Sealed, Line)],
    ) -> Result<(), NoMemory> {
        self.say(Message::Begun {
            plan: plan.copied(alloc)?,
            pairs: noted.len() as u64,
        })
    }

    fn submit(&mut self, alloc: Global, batch: &Batch) -> Result<Reply, AgencyFault> {
        self.submission(alloc, batch)
    }

    fn consult(&mut self, alloc: Global, huellas: &Huellas) -> Result<SeenList, AgencyFault> {
        self.consultation(alloc, huellas)
    }
}
