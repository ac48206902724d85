//! A shop: its start, its tills' asks, and its end.
ghost use Rattle.std.specs.Prelude.{◌≡◌, ◌≤◌, ◌<◌, ◌+◌, ◌++◌, ◌∷◌, [], ℕ, length, All, IfOk, IfErr, IfSome, None};
ghost use Rattle.std.specs.Prelude.{max, vec_capacity};
ghost use Rattle.std.specs.Int.{IsInRange};
ghost use Rattle.chain_lock.specs.Known.{Fits, IsNew, holders, owners};
ghost use Rattle.chain_lock.specs.Lists.{StartsWith};
ghost use Rattle.chain_store.specs.Store.{Ready, journal_of};
ghost use Rattle.journal.specs.Journal.{stopped_of};
ghost use Rattle.record_codec.specs.declared.entry.TheConstants.{LAST_TILL};
ghost use Rattle.till_calls.specs.Root.{items_in, parts_of, root_of};
ghost use Rattle.till_calls.specs.Sound.{IsSound};

use crate::clockless::Clockless;
use crate::kept::Kept;
use crate::questions::Question;
use crate::tills::{SenderSeat, Till, TillNumber, Tills};
use crate::turns::{Learning, Taking, TakingAt};
use chain_disk::Disk;
use chain_lock::{ChainLock, Refused};
use chain_store::Store;
use journal::StoreFault;
use ports::{Clock, NoMemory};
use shop_core::{Asking, Reply, Request};
use std::alloc::Global;
use std::sync::Wait;

/// A shop, of which many tills can ask at a time.
#[derive(Drop)]
pub struct Shop<D: Disk, C: Clock> {
    pub(crate) lock: ChainLock<Kept<D, C>>,
}

/// A shop that has just begun.
#[derive(Drop)]
pub struct Started<D: Disk, C: Clock> {
    pub shop: Shop<D, C>,
    pub tills: Tills<D, C>,
    pub seat: SenderSeat<D, C>,
}

/// Memory ran out, and this is the store.
#[derive(Drop)]
pub struct StartRefused<D: Disk, C: Clock> {
    pub store: Store<D, C>,
}

impl<D: Disk, C: Clock> Shop<D, C> {
    ghost use Rattle.till_calls.specs.Seen.{Looks};
    ghost use Rattle.till_calls.specs.Shop.{Asks, first_items, made_tills, numbers, places, shop_id, shop_root};
    ghost use Rattle.till_calls.specs.Shop.{seat_knows, seat_shop, till_knows, till_number, till_shop, tills_know, tills_shop};

    /// The answer to a till's request under a serial of its own, from 1: that of `Store::take` at a history that goes on from
    /// all that the till has seen, with a reading of the clock since the start. What is taken is an item of the till's own.
    /// `DiskFault` records the stop as one of its own. `Stopped` comes exactly where an earlier call recorded the stop.
    pub fn ask<R: Wait>(
        &self,
        rt: &R,
        alloc: Global,
        till: &mut Till<D, C>,
        serial: u32,
        request: &Request,
    ) -> Result<Reply, StoreFault>
        requires own { till_shop till.old ≡ shop_id self.now }
        requires serial { IsInRange 1 4_294_967_295 serial }
        ensures same { (till_shop till.new ≡ till_shop till.old) × (till_number till.new ≡ till_number till.old) }
        //= A till's ask is answered at a history that goes on from all that it had seen and has as many items as it
        //= knew of, at a reading that the clock still had to give; with `Taken` the list and the till's own gain
        //= exactly that record.
        ensures asks { Asks C.coming (record { till = till_number till.old; serial = serial; request = request.now }) result
            (till_knows till.old) (till_knows till.new) }
    {
        let mut taking = Taking {
            alloc,
            ask: Asking::new(till.number(), serial, request),
        };
        self.lock.turn(rt, &mut till.pass, &mut taking)
    }

    /// The answer to a till's question at a history that goes on from all that the till has seen, and which it has then seen.
    /// Nothing is added. A shop that has stopped answers too.
    pub fn look<Q: Question, R: Wait>(
        &self,
        rt: &R,
        alloc: Global,
        till: &mut Till<D, C>,
        question: &Q,
    ) -> Result<Q::Learnt, NoMemory>
        requires own { till_shop till.old ≡ shop_id self.now }
        ensures same { (till_shop till.new ≡ till_shop till.old) × (till_number till.new ≡ till_number till.old) }
        //= A question is answered at a history that goes on from all that its till has seen and has as many items as
        //= it knew of, and adds nothing.
        ensures looks { Looks (Q.learns question.now) result (till_knows till.old) (till_knows till.new) }
    {
        let mut learning = Learning { alloc, question };
        self.lock.turn(rt, &mut till.pass, &mut learning)
    }

    /// A till tells another of how many items it knows. What the other is answered next is at a list of as many, or more. It
    /// waits for nobody.
    pub fn inform(&self, from: &mut Till<D, C>, to: &mut Till<D, C>)
        requires own { (till_shop from.old ≡ shop_id self.now) × (till_shop to.old ≡ shop_id self.now) }
        ensures from { (till_shop from.new ≡ till_shop from.old) × (till_number from.new ≡ till_number from.old) }
        ensures to { (till_shop to.new ≡ till_shop to.old) × (till_number to.new ≡ till_number to.old) }
        ensures knows { till_knows from.new ≡ till_knows from.old }
        //= By `inform` a till knows of as many items as the other does.
        ensures raised { till_knows to.new
            ≡ record (till_knows to.old) { least = max (till_knows to.old).least (till_knows from.old).least } }
    {
        self.lock.inform(&mut from.pass, &mut to.pass);
    }

    /// How many items there are, without waiting: the entries, and one more where the shop has stopped. The till then knows of
    /// as many.
    pub fn count_now(&self, till: &mut Till<D, C>) -> u64
        requires own { till_shop till.old ≡ shop_id self.now }
        ensures same { (till_shop till.new ≡ till_shop till.old) × (till_number till.new ≡ till_number till.old) }
        //= A count never falls below what the till knew.
        ensures at_least { (till_knows till.old).least ≤ result }
        ensures raised { till_knows till.new ≡ record (till_knows till.old) { least = result } }
    {
        self.lock.glance(&mut till.pass)
    }

    /// A till tells the seat of how many items it knows. The seat's next look then shows as many, or more. It waits for nobody.
    pub fn tell_seat(&self, till: &mut Till<D, C>, seat: &mut SenderSeat<D, C>)
        requires own { (till_shop till.old ≡ shop_id self.now) × (seat_shop seat.old ≡ shop_id self.now) }
        ensures till { (till_shop till.new ≡ till_shop till.old) × (till_number till.new ≡ till_number till.old) }
        ensures knows { till_knows till.new ≡ till_knows till.old }
        ensures shop { seat_shop seat.new ≡ seat_shop seat.old }
        ensures raised { seat_knows seat.new
            ≡ record (seat_knows seat.old) { least = max (seat_knows seat.old).least (till_knows till.old).least } }
    {
        self.lock.inform(&mut till.pass, &mut seat.pass);
    }

    /// Ends the shop, once all its tills and its seat are back, and gives the store. It takes no memory.
    ///
    /// The store's items go on from what each till and the seat has seen, have the own items of each at their places, and no
    /// others since the start.
    pub fn close(self, tills: Tills<D, C>, seat: SenderSeat<D, C>) -> Store<D, C>
        requires own { (tills_shop tills ≡ shop_id self) × (seat_shop seat ≡ shop_id self) }
        requires whole { (n : ℕ) → n < places self → 0 < holders n (tills_know tills ++ seat_knows seat ∷ []) }
        //= The store that comes back has a legal history that begins with the start's; each crash since then leaves a
        //= front of it, or of it with the torn entry.
        //= No body: it is of `Store::take` and `Store::note`, whose clauses refuse others
        ensures sound { IsSound D.tells D.on_disk D.faults C.coming (shop_root self) (parts_of result) }
        //= The items of a shop that is closed go on from the start's, and from what each till and the seat has seen.
        //= No body: it is the lock's rule, which each step keeps
        ensures begins { StartsWith (items_in (parts_of result)) (first_items self) }
        ensures each { All (Fits (items_in (parts_of result))) (tills_know tills ++ seat_knows seat ∷ []) }
        ensures before { (n : ℕ) → n < length (first_items self) → owners n (tills_know tills ++ seat_knows seat ∷ []) ≡ 0 }
        //= Each place since the start has exactly one owner, a till or the sender's seat.
        //= No body: it is the lock's rule, which each step keeps
        ensures since { (n : ℕ) → length (first_items self) ≤ n → n < length (items_in (parts_of result)) →
            owners n (tills_know tills ++ seat_knows seat ∷ []) ≡ 1 }
    {
        let Tills {
            mut passes,
            numbers: _,
            made: _,
        } = tills;
        let SenderSeat { pass } = seat;
        passes.hand_back(pass);
        self.lock.close(passes).into_store()
    }

    /// Begins a shop over a store that goes on, with a till for each number, at most `LAST_TILL` of them, and the sender's seat.
    /// Where memory runs out the store comes back. No later call but `ask` and those of the seat takes memory.
    pub fn start(
        alloc: Global,
        store: Store<D, C>,
        tills: &[u8],
    ) -> Result<Started<D, C>, StartRefused<D, C>>
        requires numbers { All (IsInRange 1 LAST_TILL) tills.now }
        requires few { length tills.now ≤ LAST_TILL }
        requires going_on { stopped_of (journal_of store) ≡ None }
        requires ready { Ready D.tells D.on_disk store }
        ensures root { IfOk result (λ s. (shop_root s.shop ≡ root_of D.on_disk D.faults (parts_of store))
            × (first_items s.shop ≡ items_in (parts_of store))) }
        ensures numbers { IfOk result (λ s. (numbers s.tills ≡ tills.now) × (made_tills s.tills ≡ length tills.now)
            × (places s.shop ≡ length tills.now + 1)) }
        ensures own { IfOk result (λ s. (tills_shop s.tills ≡ shop_id s.shop) × (seat_shop s.seat ≡ shop_id s.shop)) }
        ensures new { IfOk result (λ s. All (IsNew (first_items s.shop) (shop_root s.shop))
            (tills_know s.tills ++ seat_knows s.seat ∷ [])) }
        ensures whole { IfOk result (λ s. (n : ℕ) → n < places s.shop →
            holders n (tills_know s.tills ++ seat_knows s.seat ∷ []) ≡ 1) }
        //= Where memory runs out the store is handed back with all its parts.
        //= No body: it is `ChainLock::new`
        ensures refused { IfErr result (λ e. parts_of e.store ≡ parts_of store) }
    {
        let Some(list) = till_numbers(alloc, tills) else {
            return Err(StartRefused { store });
        };
        let made = list.len();
        match ChainLock::new(alloc, Kept::new(store), made as u16 + 1) {
            Ok((lock, mut passes)) => {
                let Some(pass) = passes.pull() else {
                    unreachable!()
                };
                Ok(Started {
                    shop: Shop { lock },
                    tills: Tills {
                        passes,
                        numbers: list,
                        made,
                    },
                    seat: SenderSeat { pass },
                })
            }
            Err(refused) => Err(StartRefused {
                store: store_of(refused),
            }),
        }
    }
}

impl<D: Disk> Shop<D, Clockless> {
    ghost use Rattle.std.specs.Prelude.{Some};
    ghost use Rattle.till_calls.specs.Shop.{Asks, shop_id, till_knows, till_number, till_shop};

    /// The answer to a till's request as of `ask`, at a reading of the clock that whoever asks gives.
    pub fn ask_at<R: Wait>(
        &self,
        rt: &R,
        alloc: Global,
        till: &mut Till<D, Clockless>,
        serial: u32,
        request: &Request,
        seconds: u64,
    ) -> Result<Reply, StoreFault>
        requires own { till_shop till.old ≡ shop_id self.now }
        requires serial { IsInRange 1 4_294_967_295 serial }
        ensures same { (till_shop till.new ≡ till_shop till.old) × (till_number till.new ≡ till_number till.old) }
        //= A till's ask of a shop without a clock is answered at exactly the reading that was given with it, else as any.
        ensures asks { Asks (λ c k. Some seconds) (record { till = till_number till.old; serial = serial; request = request.now })
            result (till_knows till.old) (till_knows till.new) }
    {
        let mut taking = TakingAt {
            alloc,
            ask: Asking::new(till.number(), serial, request),
            seconds,
        };
        self.lock.turn(rt, &mut till.pass, &mut taking)
    }
}

fn store_of<D: Disk, C: Clock>(refused: Refused<Kept<D, C>>) -> Store<D, C>
    ensures { parts_of result ≡ refused.value.parts }
{
    let Refused { value } = refused;
    value.into_store()
}

// The numbers as a list of their type. None where memory runs out.
fn till_numbers(alloc: Global, tills: &[u8]) -> Option<Vec<TillNumber>>
    requires { All (IsInRange 1 LAST_TILL) tills.now }
    ensures items { IfSome result (λ list. list.items ≡ tills.now) }
    ensures room { IfSome result (λ list. length tills.now ≤ vec_capacity list) }
{
    let Ok(mut list) = Vec::with_capacity(alloc, tills.len()) else {
        return None;
    };
    for number in tills {
        list.push_reserved(TillNumber { number: *number });
    }
    Some(list)
}
