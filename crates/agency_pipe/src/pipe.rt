//! The agency that a source and a sink lead to.
ghost use Rattle.std.specs.Prelude.{◌≡◌, ◌≤◌, vec_capacity};
ghost use Rattle.ports.specs.Memory.{counted_up};
ghost use Rattle.agency_pipe.specs.Speaking as spec;
ghost use Rattle.agency_pipe.specs.declared.reader.TheConstants.{MAX_ANSWER};

use crate::Unheard;
use crate::answer_reader::Deaf;
use crate::answers::{reply_in, seen_in};
use crate::exchange::{Quiet, exchange};
use crate::message_log::{MessageLog, is_told};
use crate::messages::{consult_line, opening_of, submit_line};
use crate::reader::MAX_ANSWER;
use crate::reasons::told_in;
use agency_port::{Agency, AgencyFault, Reply, SeenList};
use agency_rules::Plan;
use batches::{Batch, HuellaList, Huellas};
use parties::Nif;
use ports::{NoMemory, Sink, Source};
use record_fields::{Line, Sealed};
use serde_json::Value;
use std::alloc::Global;
use verify_link::Host;

/// Speaks of one issuer's records to whoever reads the sink and writes the source. Nothing is assumed of that side.
#[derive(Drop)]
pub struct PipeAgency<S, K> {
    source: S,
    sink: K,
    issuer: Nif,
    host: Host,
    // of the next call's begin
    number: u64,
    // the count of noted records of the session, and whether both files are open
    noted: u64,
    is_open: bool,
    text: Vec<u8>,
    fault_count: u64,
    last: Option<Quiet>,
    told: Option<String>,
    said: MessageLog,
    ghost room: { MAX_ANSWER ≤ vec_capacity text },
}

const OTHER_SHAPE: Quiet = Quiet::Deaf(Deaf::Line(Unheard::Shape));

// Counts a message without an answer, and keeps why it has none. The count stands still at the greatest u64.
fn missed(count: &mut u64, last: &mut Option<Quiet>, why: Quiet)
    ensures { count.new ≡ counted_up count.old }
{
    *count = count.saturating_add(1);
    *last = Some(why);
}

// Whether the files stay open after a call without an answer: where one failed or ended both are opened anew.
fn goes_on(why: Quiet) -> bool
    ensures { result ≡ spec.stays_open why }
{
    match why {
        Quiet::Sink | Quiet::Closed => false,
        Quiet::Unbegun(Deaf::Source | Deaf::End) | Quiet::Deaf(Deaf::Source | Deaf::End) => false,
        Quiet::Unbegun(_) | Quiet::Deaf(_) => true,
    }
}

fn is_no_memory(why: Unheard) -> bool
    ensures { result ≡ spec.is_no_memory why }
{
    match why {
        Unheard::NoMemory => true,
        Unheard::Json | Unheard::Earlier | Unheard::Fault | Unheard::Hello | Unheard::Shape => {
            false
        }
    }
}

fn lacks_memory(why: Deaf) -> bool
    ensures { result ≡ spec.lacks_memory why }
{
    match why {
        Deaf::Line(why) => is_no_memory(why),
        Deaf::Source | Deaf::End | Deaf::TooLong | Deaf::Earlier => false,
    }
}

// Whether there was no memory to read a line.
fn wants_memory(why: Quiet) -> bool
    ensures { result ≡ spec.wants_memory why }
{
    match why {
        Quiet::Sink | Quiet::Closed => false,
        Quiet::Unbegun(why) => lacks_memory(why),
        Quiet::Deaf(why) => lacks_memory(why),
    }
}

impl<S: Source + Drop, K: Sink + Drop> PipeAgency<S, K> {
    ghost use Rattle.std.specs.Prelude.{◌≡◌, [], false, IfOk};
    ghost use Rattle.batches.specs.Batches.{huellas_of};
    ghost use Rattle.ports.specs.Sinks.{this_sink};
    ghost use Rattle.ports.specs.Sources.{this_source};
    ghost use Rattle.agency_port.specs.Ledger.{HasCause, counted};
    ghost use Rattle.agency_pipe.specs.Answers.{GivesReply, GivesSeen};
    ghost use Rattle.agency_pipe.specs.Calls.{consult_call, submit_call};
    ghost use Rattle.agency_pipe.specs.Messages.{opening_of};
    ghost use Rattle.agency_pipe.specs.MessageLog.{said_in};
    ghost use Rattle.agency_pipe.specs.Speaking.{Asks, Speaks, after, call_of, faults_by, kept};

    /// The agency that these lead to. Its first begin has this number. It takes the memory for the longest answer.
    pub fn new(
        alloc: Global,
        source: S,
        sink: K,
        issuer: Nif,
        host: Host,
        first: u64,
    ) -> Result<PipeAgency<S, K>, NoMemory>
        ensures said { IfOk result (λ agency. said_in agency.said ≡ []) }
        ensures session { IfOk result (λ agency. agency.is_open ≡ false) }
        ensures ends { IfOk result (λ agency. (agency.source ≡ source) × (agency.sink ≡ sink)) }
        ensures keeps { IfOk result (λ agency. kept agency.number agency.issuer agency.host agency.noted agency.fault_count
            ≡ kept first issuer host 0 0) }
    {
        let text = Vec::with_capacity(alloc, MAX_ANSWER)?;
        Ok(PipeAgency {
            source,
            sink,
            issuer,
            host,
            number: first,
            noted: 0,
            is_open: false,
            text,
            fault_count: 0,
            last: None,
            told: None,
            said: MessageLog::nothing(),
        })
    }

    /// Why the last message that has no answer has none. Nothing is claimed of it.
    pub fn trouble(&self) -> Option<Quiet> {
        self.last
    }

    /// What the other side last told of a fault of its own, where there was memory to keep it. Nothing is claimed of it.
    pub fn told(&self) -> Option<&str> {
        match &self.told {
            Some(told) => Some(told.as_str()),
            None => None,
        }
    }

    /// What it reads.
    pub fn source(&self) -> &S
        ensures { result.now ≡ self.now.source }
    {
        &self.source
    }

    /// What it writes to.
    pub fn sink(&self) -> &K
        ensures { result.now ≡ self.now.sink }
    {
        &self.sink
    }

    // Makes a call, whose begin has this number, and reads its answer. Where there is none the failure is counted.
    fn ask(&mut self, alloc: Global, number: u64, message: &[u8]) -> Result<Value, AgencyFault>
        ensures said { said_in self.new.said ≡ said_in self.old.said }
        ensures cause { HasCause (counted self.old.fault_count) (counted self.new.fault_count) result }
        ensures asks { Asks (this_source S.left S.faults self.old.source self.new.source)
            (this_sink K.taken K.faults self.old.sink self.new.sink)
            (call_of (opening_of self.old.issuer number self.old.noted) number message.now) self.old.is_open self.new.is_open result }
        ensures keeps { kept self.new.number self.new.issuer self.new.host self.new.noted self.new.fault_count
            ≡ kept self.old.number self.old.issuer self.old.host self.old.noted (faults_by result self.old.fault_count) }
    {
        let opening = opening_of(alloc, &self.issuer, number, self.noted)?;
        match exchange(
            alloc,
            &mut self.source,
            &mut self.sink,
            &mut self.text,
            self.is_open,
            number,
            &opening,
            message,
        ) {
            Ok(value) => {
                self.is_open = true;
                Ok(value)
            }
            Err(why) => {
                self.is_open = goes_on(why);
                if wants_memory(why) {
                    return Err(AgencyFault::NoMemory);
                }
                self.told = told_in(alloc, why, &self.text);
                missed(&mut self.fault_count, &mut self.last, why);
                Err(AgencyFault::Failed)
            }
        }
    }

    fn submission(&mut self, alloc: Global, batch: &Batch) -> Result<Reply, AgencyFault>
        ensures said { said_in self.new.said ≡ said_in self.old.said }
        ensures cause { HasCause (counted self.old.fault_count) (counted self.new.fault_count) result }
        ensures named { IfOk result (λ reply. reply.huellas ≡ huellas_of batch.now) }
        ensures row { Speaks (GivesReply (huellas_of batch.now))
            (submit_call self.old.issuer self.old.number self.old.noted self.old.host batch.now)
            (this_source S.left S.faults self.old.source self.new.source)
            (this_sink K.taken K.faults self.old.sink self.new.sink) self.old.is_open self.new.is_open result }
        ensures keeps { kept self.new.number self.new.issuer self.new.host self.new.noted self.new.fault_count
            ≡ after (kept self.old.number self.old.issuer self.old.host self.old.noted self.old.fault_count) result }
    {
        let number = self.number;
        let next = number.saturating_add(1);
        self.number = next.saturating_add(1);
        let line = submit_line(alloc, next, self.host, batch)?;
        let huellas = HuellaList::of(alloc, batch.as_slice())?;
        let value = match self.ask(alloc, number, &line) {
            Ok(value) => value,
            Err(why) => return Err(why),
        };
        match reply_in(alloc, &value, huellas) {
            Ok(Some(reply)) => Ok(reply),
            Ok(None) => {
                missed(&mut self.fault_count, &mut self.last, OTHER_SHAPE);
                Err(AgencyFault::Failed)
            }
            Err(NoMemory) => Err(AgencyFault::NoMemory),
        }
    }

    fn consultation(&mut self, alloc: Global, huellas: &Huellas) -> Result<SeenList, AgencyFault>
        ensures said { said_in self.new.said ≡ said_in self.old.said }
        ensures cause { HasCause (counted self.old.fault_count) (counted self.new.fault_count) result }
        ensures row { Speaks (GivesSeen huellas.now.huellas) (consult_call self.old.issuer self.old.number self.old.noted huellas.now)
            (this_source S.left S.faults self.old.source self.new.source)
            (this_sink K.taken K.faults self.old.sink self.new.sink) self.old.is_open self.new.is_open result }
        ensures keeps { kept self.new.number self.new.issuer self.new.host self.new.noted self.new.fault_count
            ≡ after (kept self.old.number self.old.issuer self.old.host self.old.noted self.old.fault_count) result }
    {
        let number = self.number;
        let next = number.saturating_add(1);
        self.number = next.saturating_add(1);
        let line = consult_line(alloc, next, huellas)?;
        let value = match self.ask(alloc, number, &line) {
            Ok(value) => value,
            Err(why) => return Err(why),
        };
        match seen_in(alloc, &value, huellas) {
            Ok(Some(seen)) => Ok(seen),
            Ok(None) => {
                missed(&mut self.fault_count, &mut self.last, OTHER_SHAPE);
                Err(AgencyFault::Failed)
            }
            Err(NoMemory) => Err(AgencyFault::NoMemory),
        }
    }
}

impl<S: Source + Drop, K: Sink + Drop> Agency for PipeAgency<S, K> {
    ghost use Rattle.std.specs.Prelude.{◌≡◌, length, refl, false, true};
    ghost use Rattle.std.proofs.Common.{rules, arith};
    ghost use Rattle.batches.specs.Batches.{huellas_of};
    ghost use Rattle.ports.specs.Sinks.{this_sink};
    ghost use Rattle.ports.specs.Sources.{this_source};
    ghost use Rattle.agency_port.specs.Ledger.{counted};
    ghost use Rattle.agency_pipe.specs.Answers.{GivesReply, GivesSeen};
    ghost use Rattle.agency_pipe.specs.Calls.{consult_call, submit_call};
    ghost use Rattle.agency_pipe.specs.MessageLog.{ledger_of, said_in};
    ghost use Rattle.agency_pipe.specs.Speaking.{Speaks, after, kept};

    ghost tells = { true };

    ghost keeps_rules = { false };

    ghost ledger = { λ a. ledger_of (said_in a.said) };

    ghost faults = { λ a. counted a.fault_count };

    ghost begun = { λ processed _. processed };

    ghost opening = { λ old new plan noted result. (new.is_open ≡ old.is_open) × (new.source ≡ old.source) × (new.sink ≡ old.sink)
        × ((kept new.number new.issuer new.host new.noted new.fault_count)
        ≡ kept old.number old.issuer old.host (length noted) old.fault_count) };

    ghost submission = { λ old new batch result. Speaks (GivesReply (huellas_of batch))
        (submit_call old.issuer old.number old.noted old.host batch)
        (this_source S.left S.faults old.source new.source) (this_sink K.taken K.faults old.sink new.sink) old.is_open new.is_open result
        × ((kept new.number new.issuer new.host new.noted new.fault_count)
        ≡ after (kept old.number old.issuer old.host old.noted old.fault_count) result) };

    ghost consultation = { λ old new huellas result. Speaks (GivesSeen huellas.huellas) (consult_call old.issuer old.number old.noted huellas)
        (this_source S.left S.faults old.source new.source) (this_sink K.taken K.faults old.sink new.sink) old.is_open new.is_open result
        × ((kept new.number new.issuer new.host new.noted new.fault_count)
        ≡ after (kept old.number old.issuer old.host old.noted old.fault_count) result) };

    ghost keeps_and_tells = { λ keeps. refl };

    ghost few_faults = { Prim.search (rules, arith) };

    ghost sent_is = { λ agency tells. refl };

    fn begin(
        &mut self,
        _alloc: Global,
        plan: &Plan,
        noted: &[(Sealed, Line)],
    ) -> Result<(), NoMemory> {
        let pairs = noted.len() as u64;
        self.noted = pairs;
        self.said.begun(plan, pairs);
        Ok(())
    }

    fn submit(&mut self, alloc: Global, batch: &Batch) -> Result<Reply, AgencyFault> {
        let answer = self.submission(alloc, batch);
        self.said.submitted(batch, &answer);
        answer
    }

    fn consult(&mut self, alloc: Global, huellas: &Huellas) -> Result<SeenList, AgencyFault> {
        let answer = self.consultation(alloc, huellas);
        if is_told(&answer) {
            self.said.consulted(huellas, &answer);
        }
        answer
    }
}
