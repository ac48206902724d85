//! A shop in memory alone, as its sender sees it.
ghost use Rattle.std.specs.Prelude.{◌≡◌, ◌↔◌, ◌++◌, ◌∷◌, [], length, IfOk, IfErr, IsErrOf, OnOk, OnErr, ℕ, ◌<◌, ◌≤◌, All};
ghost use Rattle.record_codec.specs.declared.entry.Entry.TheVariants.{Notes};
ghost use Rattle.record_codec.specs.declared.entry.TheConstants.{MAX_NOTES};
ghost use Rattle.shop_core.specs.History.{noted, waiting};
ghost use Rattle.shop_core.specs.Legal.{AreNext, Continues};
ghost use Rattle.journal.specs.declared.faults.StoreFault.TheVariants as store_fault;
ghost use Rattle.once_world.specs.Outbox.{Grows, HasStopped, NotedBy, OwnWithin, ShowsWaiting, history_of, seen_of};

use crate::Outbox;
use journal::StoreFault;
use ports::NoMemory;
use record_codec::Entry;
use record_fields::{Line, Lines, SealedList};
use shop_core::{State, Waiting};
use std::alloc::Global;
use std::sync::Wait;

/// The outbox of a history that is kept in memory. It shows entries alone: it never stops.
#[derive(Drop)]
pub struct PlainOutbox {
    state: State,
    own: Vec<u64>,
    // Each place of its own notes is that of an entry.
    ghost within: { All (λ (place : ℕ). place < length state.entries) own.items },
}

impl PlainOutbox {
    /// The outbox of this history, which added nothing of its own yet.
    pub fn new(alloc: Global, state: State) -> PlainOutbox
        ensures state { result.state ≡ state }
        ensures own { result.own.items ≡ [] }
    {
        PlainOutbox {
            state,
            own: Vec::new(alloc),
        }
    }

    /// The history as it is now.
    pub fn state(&self) -> &State
        ensures { result.now ≡ self.now.state }
    {
        &self.state
    }

    /// Gives the history back.
    pub fn into_state(self) -> State
        ensures { result ≡ self.state }
    {
        self.state
    }

    // Adds an entry of its own that continues the history. Without memory nothing is added.
    fn add(&mut self, entry: Entry) -> Result<(), NoMemory>
        requires { Continues self.old.state.version self.old.state.issuer self.old.state.entries entry }
        ensures issuer { self.new.state.issuer ≡ self.old.state.issuer }
        ensures version { self.new.state.version ≡ self.old.state.version }
        ensures ok { OnOk result ((self.new.state.entries ≡ self.old.state.entries ++ entry ∷ [])
            × (self.new.own.items ≡ self.old.own.items ++ length self.old.state.entries ∷ [])) }
        ensures err { OnErr result ((self.new.state.entries ≡ self.old.state.entries)
            × (self.new.own.items ≡ self.old.own.items)) }
    {
        let index = self.state.entries();
        if self.own.reserve(1).is_err() {
            return Err(NoMemory);
        }
        self.state.reserve(&entry)?;
        let Ok(()) = self.own.push(index) else {
            unreachable!()
        };
        self.state.apply(entry);
        Ok(())
    }

    // These lines as the next ones of the history.
    fn notes(&self, alloc: Global, lines: &[Line]) -> Result<Entry, NoMemory>
        ensures { IfOk result (λ entry. entry ≡ Notes (length (noted self.now.state.entries)) lines.now) }
    {
        Ok(Entry::Notes {
            first: self.state.noted(),
            lines: Lines::of(Vec::from_slice(alloc, lines)?),
        })
    }

    // Notes the next lines.
    fn add_notes(&mut self, alloc: Global, lines: &[Line]) -> Result<(), NoMemory>
        requires { AreNext self.old.state.entries (length (noted self.old.state.entries)) lines.now }
        ensures issuer { self.new.state.issuer ≡ self.old.state.issuer }
        ensures version { self.new.state.version ≡ self.old.state.version }
        ensures ok { OnOk result ((self.new.state.entries
            ≡ self.old.state.entries ++ Notes (length (noted self.old.state.entries)) lines.now ∷ [])
            × (self.new.own.items ≡ self.old.own.items ++ length self.old.state.entries ∷ [])) }
        ensures err { OnErr result ((self.new.state.entries ≡ self.old.state.entries)
            × (self.new.own.items ≡ self.old.own.items)) }
    {
        let entry = self.notes(alloc, lines)?;
        self.add(entry)
    }
}

impl Outbox for PlainOutbox {
    type Fixed = ();

    ghost fixed = { λ o. tt };

    ghost sight = { λ o. seen_of o.state o.own.items };

    ghost least = { λ o. length o.state.entries };

    /// Adds nothing.
    fn waiting<R: Wait>(&mut self, _rt: &R, alloc: Global, max: u16) -> Result<Waiting, NoMemory>
        ensures grows { Grows (seen_of self.old.state self.old.own.items) (seen_of self.new.state self.new.own.items) }
        ensures covers { length self.old.state.entries ≤ length (seen_of self.new.state self.new.own.items).items }
        ensures own { (seen_of self.new.state self.new.own.items).own ≡ (seen_of self.old.state self.old.own.items).own }
        ensures within { OwnWithin (seen_of self.new.state self.new.own.items) }
        ensures shows { IfOk result (ShowsWaiting (seen_of self.new.state self.new.own.items) max) }
        ensures same { self.new ≡ self.old }
    {
        self.state.is_legal();
        let list = self.state.waiting_records(alloc, max)?;
        Ok(Waiting {
            noted: self.state.noted(),
            records: self.state.records(),
            list: SealedList::of(list),
        })
    }

    /// Adds these lines behind the history, and fails for lack of memory alone, adding nothing.
    fn note<R: Wait>(&mut self, _rt: &R, alloc: Global, lines: &[Line]) -> Result<(), StoreFault>
        requires some { 1 ≤ length lines.now }
        requires few { length lines.now ≤ MAX_NOTES }
        requires fits { length lines.now ≤ length (waiting (history_of (seen_of self.old.state self.old.own.items))) }
        ensures grows { Grows (seen_of self.old.state self.old.own.items) (seen_of self.new.state self.new.own.items) }
        ensures within { OwnWithin (seen_of self.new.state self.new.own.items) }
        ensures noted { NotedBy (seen_of self.old.state self.old.own.items) (seen_of self.new.state self.new.own.items) lines.now result }
        ensures stopped { (faults : ℕ) → IsErrOf result (store_fault.Stopped faults) ↔ HasStopped (seen_of self.old.state self.old.own.items) (seen_of self.new.state self.new.own.items) faults }
        ensures adds { OnOk result ((self.new.state.entries
            ≡ self.old.state.entries ++ Notes (length (noted self.old.state.entries)) lines.now ∷ [])
            × (self.new.own.items ≡ self.old.own.items ++ length self.old.state.entries ∷ [])) }
        ensures kept { OnErr result ((self.new.state.entries ≡ self.old.state.entries)
            × (self.new.own.items ≡ self.old.own.items)) }
        ensures memory { IfErr result (λ fault. fault ≡ store_fault.NoMemory) }
    {
        match self.add_notes(alloc, lines) {
            Ok(()) => {
                self.state.is_legal();
                Ok(())
            }
            Err(_) => {
                self.state.is_legal();
                Err(StoreFault::NoMemory)
            }
        }
    }
}
