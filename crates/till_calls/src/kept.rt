//! The value under a shop's lock.
ghost use Rattle.std.specs.Prelude.{◌≡◌, length, None, Some};
ghost use Rattle.std.specs.Int.{IsInRange};
ghost use Rattle.chain_store.specs.Store.{Ready, journal_of};
ghost use Rattle.journal.specs.Journal.{stopped_of};
ghost use Rattle.record_codec.specs.declared.entry.TheConstants.{MAX_NOTES};
ghost use Rattle.till_calls.specs.Root.{items_in, parts_of, root_of};
ghost use Rattle.till_calls.specs.Sound.{IsSound};
ghost use Rattle.till_calls.specs.Turns.{LearnTurn, LookTurn, SeatTurn, TillTurn};

use crate::clockless::Clockless;
use crate::questions::Question;
use crate::root::ShopRoot;
use chain_disk::Disk;
use chain_lock::Recorded;
use chain_store::Store;
use journal::StoreFault;
use ports::{Clock, NoMemory};
use record_fields::Line;
use shop_core::{Asking, Item, Reply, Waiting};
use std::alloc::Global;
use std::marker::Model;
use std::snapshot::Snapshot;

/// What a shop's lock guards: its store, and how the store was at the start.
#[derive(Drop)]
pub struct Kept<D: Disk, C: Clock> {
    store: Store<D, C>,
    start: Snapshot<Store<D, C>>,
}

impl<D: Disk, C: Clock> Model for Kept<D, C> {
    ghost use Rattle.till_calls.specs.Root.{Guarded, parts_of, root_of};
    ghost use Rattle.till_calls.specs.Sound.{IsSound};

    ghost Value = { Guarded D C };

    ghost view = { λ k. record { root = root_of D.on_disk D.faults (parts_of k.start.value); parts = parts_of k.store } };

    ghost invariant = { λ k. IsSound D.tells D.on_disk D.faults C.coming (root_of D.on_disk D.faults (parts_of k.start.value))
        (parts_of k.store) };
}

impl<D: Disk, C: Clock> Kept<D, C> {
    pub(crate) fn new(store: Store<D, C>) -> Kept<D, C>
        requires going_on { stopped_of (journal_of store) ≡ None }
        requires ready { Ready D.tells D.on_disk store }
        ensures { result ≡ record { root = root_of D.on_disk D.faults (parts_of store); parts = parts_of store } }
    {
        store.state().is_legal();
        let start = Snapshot::of(&store);
        Kept { store, start }
    }

    // One ask of a till.
    pub(crate) fn take(&mut self, alloc: Global, ask: &Asking) -> Result<Reply, StoreFault>
        ensures root { self.new.root ≡ self.old.root }
        ensures turn { TillTurn C.coming ask.now result self.old.root (items_in self.old.parts) (items_in self.new.parts) }
    {
        let reply = self.store.take_asking(alloc, ask);
        self.store.state().is_legal();
        reply
    }

    // One note of the sender. Nothing is added where fewer records wait than there are lines.
    pub(crate) fn note(&mut self, alloc: Global, lines: &[Line]) -> Result<(), StoreFault>
        requires { IsInRange 1 MAX_NOTES (length lines.now) }
        ensures root { self.new.root ≡ self.old.root }
        ensures turn { SeatTurn lines.now result self.old.root (items_in self.old.parts) (items_in self.new.parts) }
    {
        if let Some(faults) = self.store.stopped() {
            return Err(StoreFault::Stopped { faults });
        }
        let noted = u64::from(self.store.state().noted());
        let records = u64::from(self.store.state().records());
        if records < noted + lines.len() as u64 {
            return Err(StoreFault::NoMemory);
        }
        let told = self.store.note(alloc, lines);
        self.store.state().is_legal();
        told
    }

    // The counts, and the first records that wait.
    pub(crate) fn look(&mut self, alloc: Global, max: u16) -> Result<Waiting, NoMemory>
        ensures root { self.new.root ≡ self.old.root }
        ensures turn { LookTurn max result self.old.root (items_in self.old.parts) (items_in self.new.parts) }
    {
        self.store.waiting(alloc, max)
    }

    // One question of a till.
    pub(crate) fn learn<Q: Question>(
        &self,
        alloc: Global,
        question: &Q,
    ) -> Result<Q::Learnt, NoMemory>
        ensures turn { LearnTurn (Q.learns question.now) result self.now.root (items_in self.now.parts) (items_in self.now.parts) }
    {
        question.learn(alloc, self.store.state())
    }

    pub(crate) fn into_store(self) -> Store<D, C>
        ensures parts { parts_of result ≡ self.parts }
        ensures sound { IsSound D.tells D.on_disk D.faults C.coming self.root (parts_of result) }
    {
        self.store
    }
}

impl<D: Disk> Kept<D, Clockless> {
    // One ask of a till, at a reading that is given.
    pub(crate) fn take_at(
        &mut self,
        alloc: Global,
        ask: &Asking,
        seconds: u64,
    ) -> Result<Reply, StoreFault>
        ensures root { self.new.root ≡ self.old.root }
        ensures turn { TillTurn (λ c k. Some seconds) ask.now result self.old.root (items_in self.old.parts)
            (items_in self.new.parts) }
    {
        let reply = self.store.take_at(alloc, ask, seconds);
        self.store.state().is_legal();
        reply
    }
}

impl<D: Disk, C: Clock> Recorded for Kept<D, C> {
    type Item = Item;

    type Root = ShopRoot<C>;

    ghost use Rattle.till_calls.specs.Root.{items_in};

    ghost items = { λ k. items_in k.parts };

    ghost root = { λ k. k.root };

    fn recorded(&self) -> u64 {
        let entries = self.store.state().entries();
        if self.store.stopped().is_some() {
            entries + 1
        } else {
            entries
        }
    }
}
