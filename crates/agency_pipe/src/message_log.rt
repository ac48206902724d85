//! What was said, for contracts alone: it takes no memory.
ghost use Rattle.std.specs.Prelude.{◌≡◌};
ghost use Rattle.agency_pipe.specs.ToldConsultations.{is_told};

use crate::log::Log;
use agency_port::{AgencyFault, Reply, SeenList};
use agency_rules::Plan;
use batches::{Batch, Huellas};
use std::snapshot::Snapshot;

/// A message and its answer, as they were at their call.
#[derive(Drop)]
pub enum Asked {
    Begun(Snapshot<Plan>, u64),
    Submitted(Snapshot<Batch>, Snapshot<Result<Reply, AgencyFault>>),
    Consulted(Snapshot<Huellas>, Snapshot<Result<SeenList, AgencyFault>>),
}

/// Whether a consultation with this answer is told: one for which memory ran out isn't.
pub fn is_told(answer: &Result<SeenList, AgencyFault>) -> bool
    ensures { result ≡ is_told answer.now }
{
    match answer {
        Ok(_) | Err(AgencyFault::Failed) => true,
        Err(AgencyFault::NoMemory) => false,
    }
}

/// All that was said.
#[derive(Drop)]
pub struct MessageLog {
    pub log: Log<Asked>,
}

impl MessageLog {
    ghost use Rattle.std.specs.Prelude.{◌≡◌, ◌++◌, ◌∷◌, []};
    ghost use Rattle.agency_pipe.specs.MessageLog.{said_in};
    ghost use Rattle.agency_port.specs.declared.messages.Message.TheVariants as message;

    pub fn nothing() -> MessageLog
        ensures { said_in result ≡ [] }
    {
        MessageLog { log: Log::new() }
    }

    pub fn begun(&mut self, plan: &Plan, pairs: u64)
        ensures { said_in self.new ≡ said_in self.old ++ message.Begun plan.now pairs ∷ [] }
    {
        self.log = self.log.and(&Asked::Begun(Snapshot::of(plan), pairs));
    }

    pub fn submitted(&mut self, batch: &Batch, answer: &Result<Reply, AgencyFault>)
        ensures { said_in self.new ≡ said_in self.old ++ message.Submitted batch.now answer.now ∷ [] }
    {
        self.log = self.log.and(&Asked::Submitted(Snapshot::of(batch), Snapshot::of(answer)));
    }

    pub fn consulted(&mut self, huellas: &Huellas, answer: &Result<SeenList, AgencyFault>)
        ensures { said_in self.new ≡ said_in self.old ++ message.Consulted huellas.now answer.now ∷ [] }
    {
        self.log = self.log.and(&Asked::Consulted(Snapshot::of(huellas), Snapshot::of(answer)));
    }
}
