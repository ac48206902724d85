//! The sender of one chain.
ghost use Rattle.std.specs.Prelude.{◌≡◌, ◌≤◌, ◌<◌, ◌^◌, ℕ, IsErrOf, true, false, length};
ghost use Rattle.pacing.specs.Pace.{is_due};
ghost use Rattle.shop_core.specs.History as history;
ghost use Rattle.shop_core.specs.Legal.{Legal};
ghost use Rattle.once_world.specs.Outbox.{history_of, ShowsWaiting};
ghost use Rattle.sender.specs.Sending.{fresh};
ghost use Rattle.agency_port.specs.Ledger.{Names};
ghost use Rattle.sender.specs.Draining.{CountsOf};
ghost use Rattle.sender.specs.TurnCalls.{StaysInAgreement, RepeatsNothingBlindly, LinkFaultHasCause, ServesAbove};
ghost use Rattle.sender.specs.Turning.{NoteEnds, IsLook, Deals, Replies, Turned, count_waiting, this_turn};
ghost use Rattle.pacing.specs.declared.pace.TheConstants.{MAX_BATCH};
ghost use Rattle.record_codec.specs.declared.entry.TheConstants.{MAX_NOTES};

use crate::draining::Counted;
use crate::evidence::learn;
use crate::laws::what_is_known;
use crate::{SendFault, Turn};
use agency_port::{Agency, AgencyFault, Reply, the_last_named_reply_is_kept};
use agency_replies::{Sorted, sort_reply};
use batches::{Batch, Huellas};
use once_world::Outbox;
use pacing::{MAX_BATCH, Pace, WaitUntil};
use record_fields::Line;
use shop_core::{
    Waiting, a_history_notes_its_records, a_run_of_a_history_is_linked, legal_is_chained,
};
use std::alloc::Global;
use std::marker::Model;
use std::sync::Wait;

/// Sends one shop's records to one agency. It is in doubt until a consultation says what the agency has seen, and again from
/// each submission until its reply is noted.
#[derive(Drop)]
pub struct Sender {
    in_doubt: bool,
    at_pace: Pace,
    last_said: Option<Reply>,
}

impl Model for Sender {
    ghost use Rattle.sender.specs.Sending.{Sending};

    ghost Value = { Sending };

    ghost view = { λ s. record { doubt = s.in_doubt; pace = s.at_pace; said = s.last_said } };
}

// A count fits its type.
fn counted(count: u32)
    ensures { count < 2 ^ 32 }
{}

impl Sender {
    /// In doubt: it knows nothing of what was sent before.
    pub fn new() -> Sender
        //= A session begins in doubt.
        ensures { result ≡ fresh }
    {
        Sender {
            in_doubt: true,
            at_pace: Pace::start(),
            last_said: None,
        }
    }

    // Hands lines to the shop. Out of doubt where they were noted.
    fn note<R: Wait, O: Outbox>(
        &mut self,
        rt: &R,
        alloc: Global,
        outbox: &mut O,
        lines: &[Line],
    ) -> Result<Turn, SendFault>
        requires some { 1 ≤ length lines.now }
        requires few { length lines.now ≤ MAX_NOTES }
        requires fits { length lines.now ≤ length (history.waiting (history_of (O.sight outbox.old))) }
        ensures ends { NoteEnds (O.sight outbox.old) (O.sight outbox.new) lines.now result self.old self.new }
        ensures fixed { O.fixed outbox.new ≡ O.fixed outbox.old }
    {
        match outbox.note(rt, alloc, lines) {
            Ok(()) => {
                self.in_doubt = false;
                Ok(Turn::Noted {
                    n: lines.len() as u32,
                })
            }
            Err(fault) => Err(SendFault::Store(fault)),
        }
    }

    // Asks what the agency has seen of the records shown, and notes what it says.
    fn consult<R: Wait, O: Outbox, G: Agency>(
        &mut self,
        rt: &R,
        alloc: Global,
        outbox: &mut O,
        agency: &mut G,
        shown: &Waiting,
    ) -> Result<Turn, SendFault>
        requires look { IsLook (O.sight outbox.old) shown.now }
        requires doubt { self.old.doubt ≡ true }
        ensures ends { (now : ℕ) → Deals (this_turn G.Agency agency.old agency.new (O.sight outbox.old) (O.sight outbox.new)
            self.old self.new now result) shown.now }
        ensures fixed { O.fixed outbox.new ≡ O.fixed outbox.old }
    {
        let records = shown.list.as_slice();
        let huellas = Huellas::of(alloc, records)?;
        match agency.consult(alloc, &huellas) {
            Err(AgencyFault::Failed) => Err(SendFault::LinkFault),
            Err(AgencyFault::NoMemory) => Err(SendFault::NoMemory),
            Ok(seen) => {
                let said = self.last_said.take();
                match learn(alloc, &said, shown.noted + 1, records, seen.as_slice()) {
                    Err(fault) => Err(fault),
                    Ok(lines) => {
                        if lines.as_slice().is_empty() {
                            self.in_doubt = false;
                            return Ok(Turn::Cleared);
                        }
                        self.note(rt, alloc, outbox, lines.as_slice())
                    }
                }
            }
        }
    }

    // Hands the records shown to the agency as a batch, and notes what it says.
    fn submit<R: Wait, O: Outbox, G: Agency>(
        &mut self,
        rt: &R,
        alloc: Global,
        outbox: &mut O,
        agency: &mut G,
        shown: &Waiting,
        now: u64,
    ) -> Result<Turn, SendFault>
        requires look { IsLook (O.sight outbox.old) shown.now }
        requires doubt { self.old.doubt ≡ false }
        requires due { is_due self.old.pace now (count_waiting shown.now) ≡ true }
        ensures ends { Deals (this_turn G.Agency agency.old agency.new (O.sight outbox.old) (O.sight outbox.new)
            self.old self.new now result) shown.now }
        ensures fixed { O.fixed outbox.new ≡ O.fixed outbox.old }
    {
        a_run_of_a_history_is_linked();
        let Some(batch) = Batch::cut(alloc, shown.list.as_slice())? else {
            unreachable!()
        };
        self.at_pace.sent(now);
        self.in_doubt = true;
        match agency.submit(alloc, &batch) {
            Err(AgencyFault::Failed) => Err(SendFault::LinkFault),
            Err(AgencyFault::NoMemory) => Err(SendFault::NoMemory),
            Ok(reply) => {
                if !reply.huellas().are_of(batch.as_slice()) {
                    return Err(SendFault::LinkFault);
                }
                self.keep_reply(rt, alloc, outbox, shown, &batch, reply)
            }
        }
    }

    // Keeps a reply that names its batch, and notes its lines where all are new.
    fn keep_reply<R: Wait, O: Outbox>(
        &mut self,
        rt: &R,
        alloc: Global,
        outbox: &mut O,
        shown: &Waiting,
        batch: &Batch,
        reply: Reply,
    ) -> Result<Turn, SendFault>
        requires look { IsLook (O.sight outbox.old) shown.now }
        requires all { batch.now ≡ shown.now.list }
        requires doubt { self.old.doubt ≡ true }
        requires names { Names reply batch.now }
        ensures ends { Replies self.old.pace.last shown.now (O.sight outbox.old) (O.sight outbox.new) reply result self.new }
        ensures fixed { O.fixed outbox.new ≡ O.fixed outbox.old }
    {
        let _matched = reply.lines();
        self.at_pace.told(reply.wait());
        let sorted = sort_reply(alloc, batch, &reply);
        self.last_said = Some(reply);
        match sorted {
            Err(_) => Err(SendFault::NoMemory),
            Ok(Sorted::Stale) => unreachable!(),
            Ok(Sorted::Doubt { index }) => Ok(Turn::Doubt {
                place: shown.noted + 1 + index,
            }),
            Ok(Sorted::All(lines)) => self.note(rt, alloc, outbox, lines.as_slice()),
        }
    }

    // A turn after the look that showed this.
    fn act<R: Wait, O: Outbox, G: Agency>(
        &mut self,
        rt: &R,
        alloc: Global,
        outbox: &mut O,
        agency: &mut G,
        shown: &Waiting,
        now: u64,
    ) -> Result<Turn, SendFault>
        requires shows { ShowsWaiting (O.sight outbox.old) MAX_BATCH shown.now }
        requires legal { Legal (O.sight outbox.old).version (O.sight outbox.old).issuer (history_of (O.sight outbox.old)) }
        ensures ends { Deals (this_turn G.Agency agency.old agency.new (O.sight outbox.old) (O.sight outbox.new)
            self.old self.new now result) shown.now }
        ensures fixed { O.fixed outbox.new ≡ O.fixed outbox.old }
    {
        a_history_notes_its_records();
        let records = shown.records;
        counted(records);
        if shown.noted == records {
            return Ok(Turn::Idle { records });
        }
        if self.in_doubt {
            return self.consult(rt, alloc, outbox, agency, shown);
        }
        if let Err(WaitUntil(at)) = self.at_pace.due(now, records - shown.noted) {
            return Ok(Turn::WaitUntil(at));
        }
        self.submit(rt, alloc, outbox, agency, shown, now)
    }

    // A turn: a look, and what it leads to, with the counts at the look.
    pub(crate) fn counted_turn<R: Wait, O: Outbox, G: Agency>(
        &mut self,
        rt: &R,
        alloc: Global,
        outbox: &mut O,
        agency: &mut G,
        now: u64,
    ) -> Counted
        ensures turned { Turned (this_turn G.Agency agency.old agency.new (O.sight outbox.old) (O.sight outbox.new)
            self.old self.new now result.answer) }
        ensures fixed { O.fixed outbox.new ≡ O.fixed outbox.old }
        ensures covers { O.least outbox.old ≤ length (O.sight outbox.new).items }
        ensures counts { IsErrOf result.answer SendFault.LinkFault → CountsOf (O.sight outbox.new) result.noted result.records }
    {
        match outbox.waiting(rt, alloc, MAX_BATCH) {
            Err(_) => Counted {
                noted: 0,
                records: 0,
                answer: Err(SendFault::NoMemory),
            },
            Ok(shown) => Counted {
                noted: shown.noted,
                records: shown.records,
                answer: self.act(rt, alloc, outbox, agency, &shown, now),
            },
        }
    }

    /// One turn: a look at the first `MAX_BATCH` waiting records. In doubt it asks the agency for them; otherwise it hands them over
    /// as a batch, where a submission is due at this second. What the agency says is noted.
    pub fn turn<R: Wait, O: Outbox, G: Agency>(
        &mut self,
        rt: &R,
        alloc: Global,
        outbox: &mut O,
        agency: &mut G,
        now: u64,
    ) -> Result<Turn, SendFault>
        // What was looked at, said and noted, and what is answered for it.
        ensures turned { Turned (this_turn G.Agency agency.old agency.new (O.sight outbox.old) (O.sight outbox.new)
            self.old self.new now result) }
        // With an agency that keeps its rules, in whose session the earlier turns were, agreement stays.
        ensures agreement { StaysInAgreement (this_turn G.Agency agency.old agency.new (O.sight outbox.old)
            (O.sight outbox.new) self.old self.new now result) }
        // No record is handed over again unless a consultation since has answered that it didn't come.
        ensures no_blind_repeat { RepeatsNothingBlindly (this_turn G.Agency agency.old agency.new (O.sight outbox.old)
            (O.sight outbox.new) self.old self.new now result) }
        // A link fault comes only where the agency's count of faults rose.
        ensures link_fault { LinkFaultHasCause (this_turn G.Agency agency.old agency.new (O.sight outbox.old)
            (O.sight outbox.new) self.old self.new now result) }
        // What is told of it, and what its own notes added.
        ensures above { ServesAbove (this_turn G.Agency agency.old agency.new (O.sight outbox.old) (O.sight outbox.new)
            self.old self.new now result) (O.fixed outbox.old) (O.fixed outbox.new) }
    {
        legal_is_chained();
        what_is_known();
        the_last_named_reply_is_kept();
        self.counted_turn(rt, alloc, outbox, agency, now).answer
    }
}
