//! The agency that a shop practises with.
ghost use Rattle.std.specs.Prelude.{◌≡◌, ◌<◌, ◌≤◌, ◌^◌, [], true, length, IsTrue, IfOk, OnOk, OnErr};
ghost use Rattle.std.proofs.Common.{rules, arith};
ghost use Rattle.agency_port.specs.Ledger.{counted};
ghost use Rattle.agency_port.specs.Practice.{IsRow, IsOpened, IsCutShort, cut, opened, submission_answer, submitted};
ghost use Rattle.agency_port.specs.Practice.{consultation_answer, consulted};

use crate::fates::{
    answer_to, comes_at, copied_reply, copied_seen, fate_before, faults_after, seen_by,
};
use crate::{Agency, AgencyFault, Logged, Message, Reply, SeenList};
use agency_rules::{Pairs, Plan};
use batches::{Batch, Huellas};
use ports::NoMemory;
use record_fields::{Line, Sealed};
use std::alloc::Global;
use std::marker::Model;

/// Keeps the rules, and what befalls its calls is planned. Submissions and consultations are counted together, from 1.
#[derive(Drop)]
pub struct PracticeAgency {
    plan: Plan,
    pairs: Pairs,
    entries: Vec<Logged>,
    calls: u64,
    fault_count: u64,
}

impl Model for PracticeAgency {
    ghost use Rattle.std.specs.Prelude.{◌≡◌, count_by};
    ghost use Rattle.agency_port.specs.Practice.{Practice, is_call};

    ghost Value = { Practice };

    ghost view = { λ a. record { plan = a.plan; processed = a.pairs; log = a.entries.items; faults = a.fault_count } };

    ghost invariant = { λ a. a.calls ≡ count_by is_call a.entries.items };
}

impl PracticeAgency {
    ghost use Rattle.agency_rules.specs.Plans.{plain};

    /// An agency that has processed nothing, under the plan without a line.
    pub fn new(alloc: Global) -> PracticeAgency
        ensures { result ≡ record { plan = plain; processed = []; log = []; faults = 0 } }
    {
        PracticeAgency {
            plan: Plan::plain(alloc),
            pairs: Pairs::new(alloc),
            entries: Vec::new(alloc),
            calls: 0,
            fault_count: 0,
        }
    }

    /// What it has processed, in order.
    pub fn processed(&self) -> &[(Sealed, Line)]
        ensures { result.now ≡ self.now.processed }
    {
        self.pairs.as_slice()
    }

    /// What was said to it and what it answered, in order.
    pub fn log(&self) -> &[Logged]
        ensures { result.now ≡ self.now.log }
    {
        &self.entries
    }

    /// How often it has failed. At the greatest u64 the count stays.
    pub fn faults(&self) -> u64
        ensures value { result ≡ self.now.faults }
        ensures small { self.now.faults < 2 ^ 64 }
    {
        self.fault_count
    }

    fn processed_count(&self) -> u32
        ensures { result ≡ length self.now.processed }
    {
        self.pairs.len()
    }

    // Keeps the first pairs.
    fn cut_back(&mut self, count: u32)
        ensures { self.new ≡ cut self.old count }
    {
        self.pairs.truncate(count);
    }

    // A session is opened. Where nothing was processed the noted records are.
    fn open(&mut self, alloc: Global, plan: &Plan, noted: &[(Sealed, Line)]) -> Result<(), NoMemory>
        ensures ok { OnOk result (self.new ≡ opened self.old plan.now noted.now) }
        ensures err { OnErr result (self.new ≡ self.old) }
    {
        let entry = Logged {
            message: Message::Begun {
                plan: plan.copied(alloc)?,
                pairs: noted.len() as u64,
            },
            comes: None,
        };
        let own = plan.copied(alloc)?;
        if self.pairs.len() == 0 {
            let pairs = Pairs::of(alloc, noted)?;
            self.entries.push(entry)?;
            self.pairs = pairs;
        } else {
            self.entries.push(entry)?;
        }
        self.plan = own;
        Ok(())
    }

    // What a submission delivers and answers. Without memory some of it may have been delivered.
    fn try_submission(
        &mut self,
        alloc: Global,
        batch: &Batch,
    ) -> Result<Result<Reply, AgencyFault>, NoMemory>
        ensures said { IfOk result (λ answer. answer ≡ submission_answer self.old batch.now) }
        ensures ok { OnOk result (self.new ≡ submitted self.old batch.now) }
        ensures err { OnErr result (IsCutShort self.old self.new) }
    {
        let call = self.calls + 1;
        let fate = fate_before(alloc, &self.plan, &mut self.pairs, &self.entries, call)?;
        let answer = answer_to(
            alloc,
            &self.plan,
            &mut self.pairs,
            &self.entries,
            fate,
            batch,
        )?;
        let message = Message::Submitted {
            batch: batch.copied(alloc)?,
            answer: copied_reply(alloc, &answer)?,
        };
        let comes = comes_at(fate, call);
        self.entries.push(Logged { message, comes })?;
        self.calls = call;
        self.fault_count = faults_after(self.fault_count, fate);
        Ok(answer)
    }

    fn submission(&mut self, alloc: Global, batch: &Batch) -> Result<Reply, AgencyFault>
        ensures { IsRow result (submission_answer self.old batch.now) self.old self.new (submitted self.old batch.now) }
    {
        let count = self.processed_count();
        match self.try_submission(alloc, batch) {
            Ok(answer) => answer,
            Err(NoMemory) => {
                self.cut_back(count);
                Err(AgencyFault::NoMemory)
            }
        }
    }

    // The same of a consultation.
    fn try_consultation(
        &mut self,
        alloc: Global,
        huellas: &Huellas,
    ) -> Result<Result<SeenList, AgencyFault>, NoMemory>
        ensures said { IfOk result (λ answer. answer ≡ consultation_answer self.old huellas.now.huellas) }
        ensures ok { OnOk result (self.new ≡ consulted self.old huellas.now) }
        ensures err { OnErr result (IsCutShort self.old self.new) }
    {
        let call = self.calls + 1;
        let fate = fate_before(alloc, &self.plan, &mut self.pairs, &self.entries, call)?;
        let answer = seen_by(alloc, &self.pairs, fate, huellas.list())?;
        let message = Message::Consulted {
            asked: huellas.copied(alloc)?,
            answer: copied_seen(alloc, &answer)?,
        };
        self.entries.push(Logged {
            message,
            comes: None,
        })?;
        self.calls = call;
        self.fault_count = faults_after(self.fault_count, fate);
        Ok(answer)
    }

    fn consultation(&mut self, alloc: Global, huellas: &Huellas) -> Result<SeenList, AgencyFault>
        ensures { IsRow result (consultation_answer self.old huellas.now.huellas) self.old self.new (consulted self.old huellas.now) }
    {
        let count = self.processed_count();
        match self.try_consultation(alloc, huellas) {
            Ok(answer) => answer,
            Err(NoMemory) => {
                self.cut_back(count);
                Err(AgencyFault::NoMemory)
            }
        }
    }
}

impl Agency for PracticeAgency {
    ghost use Rattle.std.specs.Prelude.{refl};
    ghost use Rattle.agency_port.specs.Practice as rows;

    ghost tells = { true };

    ghost keeps_rules = { true };

    ghost ledger = { rows.ledger_of };

    ghost faults = { λ a. counted a.faults };

    ghost begun = { rows.begun };

    ghost opening = { λ old new plan noted result. IsOpened result old new (opened old plan noted) };

    ghost submission = { λ old new batch result. IsRow result (submission_answer old batch) old new (submitted old batch) };

    ghost consultation = { λ old new huellas result.
        IsRow result (consultation_answer old huellas.huellas) old new (consulted old huellas) };

    ghost keeps_and_tells = { λ keeps. keeps };

    ghost few_faults = { Prim.search (rules, arith) };

    ghost sent_is = { λ agency tells. refl };

    /// Where nothing was processed the noted records are; the plan is the agency's from now on.
    fn begin(
        &mut self,
        alloc: Global,
        plan: &Plan,
        noted: &[(Sealed, Line)],
    ) -> Result<(), NoMemory> {
        self.open(alloc, plan, noted)
    }

    fn submit(&mut self, alloc: Global, batch: &Batch) -> Result<Reply, AgencyFault> {
        self.submission(alloc, batch)
    }

    fn consult(&mut self, alloc: Global, huellas: &Huellas) -> Result<SeenList, AgencyFault> {
        self.consultation(alloc, huellas)
    }
}
