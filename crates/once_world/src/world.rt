//! The world of a shop and its agency, event by event.
ghost use Rattle.std.specs.Prelude.{◌≡◌, ◌++◌, ◌∷◌, [], IfOk, OnOk, IfSome, length, None, slice_get, take, true, if◌then◌else◌};
ghost use Rattle.record_codec.specs.declared.entry.Entry.{Entry as AnyEntry};
ghost use Rattle.record_fields.specs.declared.versions.Version.TheVariants.{Two};
ghost use Rattle.shop_core.specs.History as history;
ghost use Rattle.shop_core.specs.Legal.{Legal, Continues, AreNext};
ghost use Rattle.shop_core.specs.declared.answer.Planned.TheVariants.{Made as made};
ghost use Rattle.once_world.specs.Agreement.{Agree, IsLearnt, AreOnce, HasNoRefusedSale};
ghost use Rattle.once_world.specs.World as spec;

use crate::Event;
use crate::looks::lines_in_front;
use agency_port::MAX_CONSULTED;
use agency_rules::{Pairs, Plan};
use batches::{Batch, Batches};
use pacing::MAX_BATCH;
use parties::Nif;
use ports::NoMemory;
use record_codec::{Entry, Version};
use record_fields::Lines;
use shop_core::{
    Ask, Planned, State, a_run_of_a_history_is_linked, a_sale_has_a_new_number, legal_is_chained,
    what_is_made_is_a_record,
};
use std::alloc::Global;

/// A shop's history, what its agency has processed, and the batches that were ever sent from the one to the other.
#[derive(Drop)]
pub struct World {
    /// The shop's history.
    pub state: State,
    /// The records that the agency has processed, each with its line, in order.
    pub processed: Pairs,
    /// The batches that were ever sent, in order.
    pub sent: Batches,
    /// Whether the shop is open.
    pub up: bool,
    /// Whether a batch may have come of which the shop knows nothing.
    pub doubt: bool,
    /// The agency's lines that the shop has learnt and not noted.
    pub learnt: Option<Lines>,
}

// Adds an entry that continues the history.
fn add(state: &mut State, entry: Entry) -> Result<(), NoMemory>
    requires { Continues state.old.version state.old.issuer state.old.entries entry }
    ensures { OnOk result (state.new
        ≡ record {
          issuer = state.old.issuer;
          version = state.old.version;
          entries = state.old.entries ++ entry ∷ [];
          room = None;
        }) }
{
    state.reserve(&entry)?;
    state.apply(entry);
    Ok(())
}

impl World {
    // Up and in doubt, and nothing else.
    fn empty(alloc: Global, issuer: &Nif) -> World
        ensures { result ≡ spec.empty issuer.now }
    {
        World {
            state: State::empty(alloc, issuer, Version::NEWEST),
            processed: Pairs::new(alloc),
            sent: Batches::of(Vec::new(alloc)),
            up: true,
            doubt: true,
            learnt: None,
        }
    }

    fn append(&mut self, planned: Planned) -> Result<(), NoMemory>
        requires { (entry : AnyEntry) → planned ≡ made entry →
            Continues self.old.state.version self.old.state.issuer self.old.state.entries entry }
        ensures { OnOk result (self.new ≡ spec.appended self.old planned) }
    {
        match planned {
            Planned::Made(entry) => add(&mut self.state, entry),
            Planned::Again(_) | Planned::Refused(_) => Ok(()),
        }
    }

    fn tear(&mut self, planned: Planned, kept: bool) -> Result<(), NoMemory>
        requires { (entry : AnyEntry) → planned ≡ made entry →
            Continues self.old.state.version self.old.state.issuer self.old.state.entries entry }
        ensures { OnOk result (self.new ≡ spec.torn self.old kept planned) }
    {
        if let Planned::Made(entry) = planned {
            if kept {
                add(&mut self.state, entry)?;
            }
            self.up = false;
        }
        Ok(())
    }

    fn may_send(&self, count: u16) -> bool
        ensures { result ≡ spec.may_send self.now count }
    {
        let waiting = self.state.records().saturating_sub(self.state.noted());
        self.up
            && !self.doubt
            && self.learnt.is_none()
            && 1 <= count
            && count <= MAX_BATCH
            && u32::from(count) <= waiting
    }

    // The first waiting records, this many of them.
    fn next_batch(&self, alloc: Global, count: u16) -> Result<Batch, NoMemory>
        requires { spec.may_send self.now count ≡ true }
        ensures { IfOk result (λ batch. batch ≡ take count (history.waiting self.now.state.entries)) }
    {
        a_run_of_a_history_is_linked();
        self.state.is_legal();
        let records = self.state.waiting_records(alloc, count)?;
        match Batch::cut(alloc, &records)? {
            Some(batch) => Ok(batch),
            None => unreachable!(),
        }
    }

    fn send(&mut self, alloc: Global, count: u16) -> Result<(), NoMemory>
        ensures { OnOk result (self.new ≡ if spec.may_send self.old count then spec.after_send self.old count else self.old) }
    {
        if self.may_send(count) {
            let batch = self.next_batch(alloc, count)?;
            self.sent.push(batch)?;
            self.doubt = true;
        }
        Ok(())
    }

    fn deliver(&mut self, alloc: Global, plan: &Plan, index: u32) -> Result<(), NoMemory>
        ensures { OnOk result (self.new ≡ spec.after_delivery plan.now self.old (slice_get self.old.sent index)) }
    {
        match self.sent.as_slice().get(index as usize) {
            None => Ok(()),
            Some(batch) => self
                .processed
                .deliver(alloc, &plan.verdicts, batch.as_slice()),
        }
    }

    fn look(&mut self, alloc: Global) -> Result<(), NoMemory>
        ensures { OnOk result (self.new ≡ spec.after_look self.old) }
    {
        let records = self.state.waiting_records(alloc, MAX_CONSULTED)?;
        let lines = lines_in_front(alloc, &self.processed, &records)?;
        self.learnt = if lines.is_empty() {
            None
        } else {
            Some(Lines::of(lines))
        };
        self.doubt = false;
        Ok(())
    }

    fn note(&mut self) -> Result<(), NoMemory>
        requires { IfSome self.old.learnt (AreNext self.old.state.entries (length (history.noted self.old.state.entries))) }
        ensures { OnOk result (self.new ≡ spec.after_note self.old self.old.learnt) }
    {
        match self.learnt.take() {
            None => Ok(()),
            Some(lines) => {
                let first = self.state.noted();
                add(&mut self.state, Entry::Notes { first, lines })
            }
        }
    }

    fn tear_note(&mut self, kept: bool) -> Result<(), NoMemory>
        requires { IfSome self.old.learnt (AreNext self.old.state.entries (length (history.noted self.old.state.entries))) }
        ensures { OnOk result (self.new ≡ spec.torn_note self.old kept self.old.learnt) }
    {
        if self.learnt.is_none() {
            return Ok(());
        }
        if kept {
            self.note()?;
        } else {
            self.learnt = None;
        }
        self.up = false;
        Ok(())
    }

    fn reopen(&mut self)
        ensures { self.new ≡ if self.old.up then self.old else spec.reopened self.old }
    {
        if !self.up {
            self.up = true;
            self.doubt = true;
            self.learnt = None;
        }
    }

    // What an event makes of the world.
    fn step(&mut self, alloc: Global, plan: &Plan, event: &Event) -> Result<(), NoMemory>
        requires { IfSome self.old.learnt (AreNext self.old.state.entries (length (history.noted self.old.state.entries))) }
        ensures { OnOk result (self.new ≡ spec.happens plan.now self.old event.now) }
    {
        match event {
            Event::Append { ask, seconds } => {
                if !self.up {
                    return Ok(());
                }
                let planned = shop_core::plan(alloc, &self.state, ask, *seconds)?;
                self.append(planned)
            }
            Event::Tear { ask, seconds, kept } => {
                if !self.up {
                    return Ok(());
                }
                let planned = shop_core::plan(alloc, &self.state, ask, *seconds)?;
                self.tear(planned, *kept)
            }
            Event::Send { count } => self.send(alloc, *count),
            Event::Deliver { index } => self.deliver(alloc, plan, *index),
            Event::Look => {
                if self.up && self.doubt {
                    self.look(alloc)?;
                }
                Ok(())
            }
            Event::Note => {
                if self.up {
                    self.note()?;
                }
                Ok(())
            }
            Event::TearNote { kept } => {
                if self.up {
                    self.tear_note(*kept)?;
                }
                Ok(())
            }
            Event::Reopen => {
                self.reopen();
                Ok(())
            }
        }
    }
}

/// The world after these events, from an empty and open shop on. Whatever is lost, late, repeated or torn, its history is
/// legal, it agrees with the agency, and what is learnt are the agency's next lines. So each record is processed once, and
/// no sale is refused because the register says otherwise.
pub fn run_events(
    alloc: Global,
    issuer: &Nif,
    plan: &Plan,
    events: &[Event],
) -> Result<World, NoMemory>
    //= A shop and its agency are left, after any list of events, as the definition says: records made, batches sent
    //= and coming late, again or never, consultations, notes, and stops while a record or its notes are written.
    ensures world { IfOk result (λ w. w ≡ spec.world issuer.now plan.now events.now) }
    //= The history is legal at version Two.
    //= No body: it follows from `world`, by the law `every_world_is_sound`
    ensures legal { IfOk result (λ w. Legal Two issuer.now w.state.entries) }
    //= Whatever the events, the processed records are the first of the chain, and the noted lines the first of
    //= theirs.
    //= No body: it follows from `world`, by the law `every_world_is_sound`
    ensures agree { IfOk result (λ w. Agree w.state.entries w.processed w.sent) }
    //= What was learnt are the agency's next lines.
    //= No body: it follows from `world`, by the same law
    ensures learnt { IfOk result (λ w. IsLearnt w.state.entries w.processed w.learnt) }
    //= Each Huella stands once among the processed records.
    //= No body: it follows from `world`, by the same law
    ensures once { IfOk result (λ w. AreOnce w.processed) }
    //= No alta of a sale is refused as held, not held or gone.
    //= No body: it follows from `world`, by the same law
    ensures sales { IfOk result (λ w. HasNoRefusedSale w.processed) }
{
    legal_is_chained();
    a_sale_has_a_new_number();
    what_is_made_is_a_record();
    let mut world = World::empty(alloc, issuer);
    for event in events {
        world.state.is_legal();
        world.step(alloc, plan, event)?;
    }
    world.state.is_legal();
    Ok(world)
}
