//! The trait of an agency.
ghost use Rattle.std.specs.Prelude.{◌≡◌, ◌≤◌, ◌-◌, ◌^◌, ℕ, List, Bool, IsTrue, length, Result, IfOk, OnOk, OnErr, ⊤};
ghost use Rattle.record_fields.specs.declared.records.Sealed.{Sealed as AnySealed};
ghost use Rattle.record_fields.specs.declared.lines.Line.{Line as AnyLine};
ghost use Rattle.agency_port.specs.declared.agency.TheConstants.{MAX_CONSULTED};
ghost use Rattle.batches.specs.Batches.{Named};
ghost use Rattle.ports.specs.declared.faults.NoMemory.{NoMemory as AnyNoMemory};
ghost use Rattle.agency_rules.specs.declared.plans.Plan.{Plan as AnyPlan};
ghost use Rattle.agency_port.specs.declared.answers.AgencyFault.{AgencyFault as AnyFault};
ghost use Rattle.agency_port.specs.declared.answers.Seen.{Seen as AnySeen};
ghost use Rattle.agency_port.specs.Reply.{Replied};
ghost use Rattle.agency_port.specs.Ledger.{Ledger, HasCause, StaleShows, Begins, Submits, Consults};
ghost use Rattle.agency_port.specs.Messages.{batches_in};
ghost use Rattle.agency_port.specs.Rules.{SubmitKeeps, ConsultKeeps};

use crate::{AgencyFault, Reply, SeenList};
use agency_rules::Plan;
use batches::{Batch, Huellas};
use ports::NoMemory;
use record_fields::{Line, Sealed};
use std::alloc::Global;

/// The most Huellas of one consultation, by the tax agency's description of the submission service. A sender asks for a batch at a
/// time, so it is to be no less than `MAX_BATCH`.
pub const MAX_CONSULTED: u16 = 1000;

/// Takes batches of records and answers for them. Each failure is counted.
pub trait Agency {
    /// Whether agencies of this type tell what was handed over and said.
    ghost tells: { Bool };

    /// Whether they tell what they have processed and their verdicts too, and keep the rules.
    ghost keeps_rules: { Bool };

    /// What they tell.
    ghost ledger: { Self → Ledger };

    /// The count of faults, which never falls. At the greatest u64 it stays.
    ghost faults: { Self → ℕ };

    /// What has been processed once a session is open, by what had been and the noted records.
    ghost begun: { List (AnySealed × AnyLine) → List (AnySealed × AnyLine) → List (AnySealed × AnyLine) };

    /// What agencies of this type say of their calls beyond what every agency does: of the opening of a session, of a
    /// submission and of a consultation.
    ghost opening: { Self → Self → AnyPlan → List (AnySealed × AnyLine) → Result ⊤ AnyNoMemory → Type 0 } = { λ _ _ _ _ _. ⊤ };

    ghost submission: { Self → Self → List AnySealed → Result Replied AnyFault → Type 0 } = { λ _ _ _ _. ⊤ };

    ghost consultation: { Self → Self → Named → Result (List AnySeen) AnyFault → Type 0 } = { λ _ _ _ _. ⊤ };

    /// Opens a session. Lack of memory changes nothing that is told.
    fn begin(
        &mut self,
        alloc: Global,
        plan: &Plan,
        noted: &[(Sealed, Line)],
    ) -> Result<(), NoMemory>
        ensures same { faults self.new ≡ faults self.old }
        //= Opening a session adds one message, with the plan and the number of noted pairs, and hands nothing over.
        //= No body: each agency proves it by its own log
        ensures lists { OnOk result (IsTrue tells → Begins (ledger self.old) (ledger self.new) plan.now (length noted.now)) }
        ensures rules { OnOk result (IsTrue keeps_rules →
            (ledger self.new).processed ≡ begun (ledger self.old).processed noted.now) }
        ensures err { OnErr result (IsTrue tells → ledger self.new ≡ ledger self.old) }
        ensures row { opening self.old self.new plan.now noted.now result };

    /// Hands a batch over. A reply that doesn't name the batch comes only where the count of faults rose. After `Failed` the
    /// batch counts as handed over.
    fn submit(&mut self, alloc: Global, batch: &Batch) -> Result<Reply, AgencyFault>
        //= A submission fails only where the agency's count of faults rose.
        ensures cause { HasCause (faults self.old) (faults self.new) result }
        //= A reply that names another batch comes only where that count rose.
        //= No body: what breaks it breaks `row` too
        ensures stale { StaleShows (faults self.old) (faults self.new) batch.now result }
        //= Where an agency tells its messages, a submission adds one, with its batch and its answer; after out of
        //= memory it may.
        //= No body: each agency proves it by its own log, as its rows say
        ensures lists { IsTrue tells → Submits (ledger self.old) (ledger self.new) batch.now result }
        //= An agency that keeps its rules delivers only whole batches that were handed over, and a reply that names
        //= its batch is what its delivery answered.
        //= No body: what breaks it breaks the practice agency's `row` too
        ensures rules { IsTrue keeps_rules → SubmitKeeps (ledger self.old) (ledger self.new) batch.now result }
        //= Each call of the practice agency, and of one whose answers are told beforehand, is exactly the row of its
        //= fate, with the count of faults and the wait.
        ensures row { submission self.old self.new batch.now result };

    /// Asks what stands under 1 to `MAX_CONSULTED` Huellas; one answer for each, in order. Lack of memory changes nothing that is told.
    fn consult(&mut self, alloc: Global, huellas: &Huellas) -> Result<SeenList, AgencyFault>
        requires some { 1 ≤ length huellas.now.huellas }
        requires few { length huellas.now.huellas ≤ MAX_CONSULTED }
        //= A consultation has one answer for each Huella.
        //= No body: it is of the list that `row` gives
        ensures count { IfOk result (λ seen. length seen ≡ length huellas.now.huellas) }
        ensures cause { HasCause (faults self.old) (faults self.new) result }
        //= A consultation adds one message, with what it names and its answer; after out of memory nothing.
        //= No body: each agency proves it by its own log
        ensures lists { IsTrue tells → Consults (ledger self.old) (ledger self.new) huellas.now result }
        ensures rules { IsTrue keeps_rules → ConsultKeeps (ledger self.old) (ledger self.new) huellas.now.huellas result }
        ensures row { consultation self.old self.new huellas.now result };

    /// Who keeps the rules tells what was said.
    ghost keeps_and_tells: { IsTrue keeps_rules → IsTrue tells };

    /// The count of faults is one that a u64 holds.
    ghost few_faults: { (agency : Self) → faults agency ≤ 2 ^ 64 - 1 };

    /// The batches that were ever handed over are those of the messages, in order.
    ghost sent_is: { (agency : Self) → IsTrue tells → (ledger agency).sent ≡ batches_in (ledger agency).messages };
}
