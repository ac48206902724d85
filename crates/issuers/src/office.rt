//! Several stores, one an issuer.
ghost use Rattle.std.specs.Prelude.{◌≡◌, ◌<◌, ◌≤◌, ◌↔◌, [], List, All, OnOk, bytes_eq, length, map, slice_get, true};
ghost use Rattle.std.specs.List.{list_any};
ghost use Rattle.std.specs.Int.{IsInRange};
ghost use Rattle.chain_store.specs.Store.{Ready};
ghost use Rattle.chain_store.specs.declared.store.Store.{Store as AnyStore};
ghost use Rattle.chain_store.specs.Taking.{Along};
ghost use Rattle.issuers.specs.Office.{AreOwn, TookAt, issuer_of, stores_of};
ghost use Rattle.issuers.specs.Parts.{HasLines};
ghost use Rattle.issuers.specs.Serving as spec;
ghost use Rattle.issuers.specs.Serving.{ComesTo, NoneLeft, Served, Serving};
ghost use Rattle.issuers.specs.Worlds.{HasOwnWorlds};
ghost use Rattle.parties.specs.declared.limits.TheConstants.{MAX_ISSUERS};

use crate::answers::{OfficeAnswer, OfficeAnswers};
use crate::laws::an_issuer_has_its_own_world;
use crate::next::next_turn;
use crate::parts::{Part, Parts};
use chain_disk::Disk;
use chain_store::{Store, a_run_begins, a_run_ends, take_next};
use journal::StoreFault;
use parties::{MAX_ISSUERS, Nif};
use ports::{Clock, NoMemory};
use record_fields::ListOf;
use shop_core::{Ask, Reply};
use std::alloc::Global;

/// Stores, one an issuer.
pub type Stores<D, C> = ListOf<Store<D, C>>;

/// No issuer stands twice.
pub fn are_distinct<D: Disk, C: Clock>(stores: &[Store<D, C>]) -> bool
    ensures { (result ≡ true) ↔ AreOwn (map issuer_of stores.now) }
{
    let mut rest = stores;
    while let Some((first, others)) = rest.split_first() {
        if stands_in(others, first.state().issuer()) {
            return false;
        }
        rest = others;
    }
    true
}

fn stands_in<D: Disk, C: Clock>(stores: &[Store<D, C>], issuer: &Nif) -> bool
    ensures { result ≡ list_any (λ store. bytes_eq (issuer_of store) issuer.now) stores.now }
{
    stores.iter().any(|store| store.state().issuer() == issuer)
}

/// An installation of 1 to `MAX_ISSUERS` issuers: a store for each.
#[derive(Drop)]
pub struct Office<D: Disk, C: Clock> {
    stores: Vec<Store<D, C>>,
}

impl<D: Disk, C: Clock> Office<D, C> {
    /// The office of these stores, of distinct issuers.
    pub fn of(stores: Stores<D, C>) -> Office<D, C>
        requires count { IsInRange 1 MAX_ISSUERS (length stores) }
        requires distinct { AreOwn (map issuer_of stores) }
        ensures { stores_of result ≡ stores }
    {
        Office {
            stores: stores.into_vec(),
        }
    }

    /// The stores, in their order.
    pub fn into_stores(self) -> Stores<D, C>
        ensures { result ≡ stores_of self }
    {
        let Office { stores } = self;
        Stores::of(stores)
    }

    /// Answers an ask of the issuer of this index, from 0, as its store does. Every other store stays as it was.
    pub fn take(&mut self, alloc: Global, index: u16, ask: &Ask) -> Result<Reply, StoreFault>
        requires index { index < length (stores_of self.old) }
        requires ready { All (Ready D.tells D.on_disk) (stores_of self.old) }
        ensures ready { All (Ready D.tells D.on_disk) (stores_of self.new) }
        //= A store's own command is taken by it as by itself, and every other store is as before.
        //= No body: it is `Store::take` of the store of this index
        ensures took { TookAt D.Disk C.Clock (stores_of self.old) (stores_of self.new) index ask.now result }
    {
        take_next(alloc, &mut self.stores[index as usize], ask)
    }

    /// Takes the asks of all parts in order of line, at one line in order of the issuers: one answer an ask. Where memory
    /// runs out the answers so far stand, and the stores hold what they took.
    pub fn serve(
        &mut self,
        alloc: Global,
        parts: &Parts,
        answers: &mut OfficeAnswers,
    ) -> Result<(), NoMemory>
        requires few { length (stores_of self.old) ≤ MAX_ISSUERS }
        requires one_each { length parts.now ≡ length (stores_of self.old) }
        requires lines { All HasLines parts.now }
        requires none { answers.old ≡ [] }
        requires ready { All (Ready D.tells D.on_disk) (stores_of self.old) }
        ensures ready { All (Ready D.tells D.on_disk) (stores_of self.new) }
        //= Several issuers' commands are taken in the order of lines, and each issuer's answers are those of a run of
        //= its own commands alone, from its own history at its own clock's readings.
        ensures served { Served D.Disk C.Clock parts.now (stores_of self.old) (stores_of self.new) answers.new result }
        // What each issuer gets doesn't depend on the others.
        ensures world { OnOk result (HasOwnWorlds D.Disk C.Clock parts.now (stores_of self.old) (stores_of self.new) answers.new) }
    {
        an_issuer_has_its_own_world::<D, C, D, C>();
        all_begin(&self.stores);
        let mut places = [0usize; MAX_ISSUERS];
        let served = self.serve_all(alloc, parts.as_slice(), &mut places, &mut answers.list);
        all_end(&self.stores);
        served
    }

    // Takes what is left of all parts.
    fn serve_all(
        &mut self,
        alloc: Global,
        parts: &[Part],
        places: &mut [usize],
        answers: &mut Vec<OfficeAnswer>,
    ) -> Result<(), NoMemory>
        requires few { length (stores_of self.old) ≤ MAX_ISSUERS }
        requires one_each { length parts.now ≡ length (stores_of self.old) }
        requires lines { All HasLines parts.now }
        requires places { length places.old ≡ MAX_ISSUERS }
        requires ready { All (Ready D.tells D.on_disk) (stores_of self.old) }
        ensures ready { All (Ready D.tells D.on_disk) (stores_of self.new) }
        ensures served { (before : List (AnyStore D C D.Disk)) →
            Serving D.Disk C.Clock parts.now before (stores_of self.old) places.old answers.old.items →
            Serving D.Disk C.Clock parts.now before (stores_of self.new) places.new answers.new.items }
        ensures whole { OnOk result (NoneLeft parts.now places.new) }
    {
        while let Some(spot) = next_turn(parts, places) {
            answers.reserve(1)?;
            let index = spot.index as usize;
            let ask = ask_at(&parts[index], places[index]);
            let reply = self.take(alloc, spot.index, ask);
            answers.push_reserved(answer_to(spot.index, ask, reply));
            places[index] += 1;
        }
        Ok(())
    }
}

// The ask of this place in a part.
fn ask_at(part: &Part, place: usize) -> &Ask
    requires { place < length part.now.script.asks }
    ensures ask { slice_get part.now.script.asks place ≡ Some result.now }
    ensures few { place < usize.MAX }
{
    &part.script.asks.as_slice()[place]
}

// The answer to an ask of the issuer of this index.
fn answer_to(index: u16, ask: &Ask, reply: Result<Reply, StoreFault>) -> OfficeAnswer
    ensures { result ≡ spec.answer_to index ask.now reply }
{
    OfficeAnswer {
        index,
        till: ask.till,
        serial: ask.serial,
        reply,
    }
}

// Where the runs of all stores begin.
fn all_begin<D: Disk, C: Clock>(stores: &[Store<D, C>])
    requires { All (Ready D.tells D.on_disk) stores.now }
    ensures { All (λ store. Along D.Disk C.Clock store store [] []) stores.now }
{
    for store in stores {
        a_run_begins(store);
    }
}

// What the runs of all stores come to.
fn all_end<D: Disk, C: Clock>(stores: &[Store<D, C>])
    ensures { All (ComesTo D.Disk C.Clock) stores.now }
{
    for store in stores {
        a_run_ends(store);
    }
}
