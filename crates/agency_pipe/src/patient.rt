//! An agency that isn't hurried: before a call that follows failed ones it waits. Nothing is claimed of time.
ghost use Rattle.std.specs.Prelude.{◌≡◌};
ghost use Rattle.agency_pipe.specs.Patience as spec;

use agency_port::{Agency, AgencyFault, Reply, SeenList};
use agency_rules::Plan;
use batches::{Batch, Huellas};
use ports::NoMemory;
use record_fields::{Line, Sealed};
use std::alloc::Global;
use std::thread;
use std::time::{Clock, Duration};

// The seconds that are waited after this many failed calls: 1, 2, 4, and then 8.
fn pause_after(failed: u32) -> u64
    //= The pause after this many failed calls is 1, 2, 4 and then 8 seconds.
    ensures { result ≡ spec.pause_after failed }
{
    if failed < 1 {
        0
    } else if failed < 2 {
        1
    } else if failed < 3 {
        2
    } else if failed < 4 {
        4
    } else {
        8
    }
}

// How many calls have failed one after another, once a call has had this answer. One without memory leaves the count.
fn failed_after<T>(failed: u32, answer: &Result<T, AgencyFault>) -> u32
    //= A call that succeeds ends the pauses, one that fails makes the next one longer, and out of memory leaves them.
    ensures { result ≡ spec.failed_after answer.now failed }
{
    match answer {
        Ok(_) => 0,
        Err(AgencyFault::Failed) => failed.saturating_add(1),
        Err(AgencyFault::NoMemory) => failed,
    }
}

/// An agency around another one. Before a submission or a consultation that follows failed ones it sleeps 1, 2, 4 and then 8
/// seconds, until one succeeds. All that is said and told is the inner one's.
#[derive(Drop)]
pub struct Patient<'a, R, G> {
    clock: &'a R,
    inner: G,
    failed: u32,
}

impl<'a, R: Clock, G: Agency> Patient<'a, R, G> {
    /// The agency that is this one, with pauses by this clock.
    pub fn new(clock: &'a R, inner: G) -> Patient<'a, R, G>
        ensures inner { result.inner ≡ inner }
        ensures failed { result.failed ≡ 0 }
    {
        Patient {
            clock,
            inner,
            failed: 0,
        }
    }

    /// The agency inside.
    pub fn inner(&self) -> &G
        ensures { result.now ≡ self.now.inner }
    {
        &self.inner
    }

    fn wait(&self) {
        let seconds = pause_after(self.failed);
        if seconds > 0 {
            thread::sleep(self.clock, Duration::from_secs(seconds));
        }
    }
}

impl<'a, R: Clock, G: Agency> Agency for Patient<'a, R, G> {
    ghost tells = { G.tells };

    ghost keeps_rules = { G.keeps_rules };

    ghost ledger = { λ a. G.ledger a.inner };

    ghost faults = { λ a. G.faults a.inner };

    ghost begun = { G.begun };

    ghost opening = { λ old new plan noted result. G.opening old.inner new.inner plan noted result };

    ghost submission = { λ old new batch result. G.submission old.inner new.inner batch result };

    ghost consultation = { λ old new huellas result. G.consultation old.inner new.inner huellas result };

    ghost keeps_and_tells = { G.keeps_and_tells };

    ghost few_faults = { λ a. G.few_faults a.inner };

    ghost sent_is = { λ a tells. G.sent_is a.inner tells };

    fn begin(
        &mut self,
        alloc: Global,
        plan: &Plan,
        noted: &[(Sealed, Line)],
    ) -> Result<(), NoMemory> {
        self.inner.begin(alloc, plan, noted)
    }

    fn submit(&mut self, alloc: Global, batch: &Batch) -> Result<Reply, AgencyFault> {
        self.wait();
        let answer = self.inner.submit(alloc, batch);
        self.failed = failed_after(self.failed, &answer);
        answer
    }

    fn consult(&mut self, alloc: Global, huellas: &Huellas) -> Result<SeenList, AgencyFault> {
        self.wait();
        let answer = self.inner.consult(alloc, huellas);
        self.failed = failed_after(self.failed, &answer);
        answer
    }
}
