//! Two tills that ask at the same time, a thread each.
ghost use Rattle.std.specs.Prelude.{◌≡◌, ◌≢◌, ◌≤◌, ◌<◌, ◌^◌, ℕ, [], None, IfErr, IfOk, length, vec_capacity};
ghost use Rattle.chain_store.specs.Store.{Ready, journal_of};
ghost use Rattle.journal.specs.Journal.{stopped_of};
ghost use Rattle.till_calls.specs.Laws.{AddsForNoOther, AddsWhatIsTaken, ToldAtTheEnd};
ghost use Rattle.till_calls.specs.Root.{items_in, parts_of, root_of};
ghost use Rattle.till_calls.specs.Client.{TillRun, asks_of};
ghost use Rattle.till_calls.specs.Shop.{shop_id, till_knows, till_number, till_shop};
ghost use Rattle.till_calls.specs.Sound.{IsSound};
ghost use Rattle.library_examples.specs.Threads.{AreReplies, records_since};

use chain_disk::Disk;
use chain_store::Store;
use journal::StoreFault;
use ports::Clock;
use shop_core::{Reply, Request};
use std::alloc::Global;
use std::sync::Wait;
use std::thread::{Threads, join};
use till_calls::{
    Shop, StartRefused, Started, Till, a_run_is_told_at_the_end, a_till_adds_for_no_other,
    a_till_adds_what_is_taken, serve,
};

/// What the tills 1 and 2 were told, a reply for each request, and the store at the end.
#[derive(Drop)]
pub struct TwoTills<D: Disk, C: Clock> {
    pub first: Vec<Result<Reply, StoreFault>>,
    pub second: Vec<Result<Reply, StoreFault>>,
    pub store: Store<D, C>,
}

// A till that has asked, and what it was told.
#[derive(Drop)]
struct Served<D: Disk, C: Clock> {
    till: Till<D, C>,
    replies: Vec<Result<Reply, StoreFault>>,
}

// A till's thread: its requests in order, with serials from 1.
fn work<D: Disk, C: Clock, R: Wait>(
    rt: &R,
    alloc: Global,
    shop: &Shop<D, C>,
    mut till: Till<D, C>,
    requests: &[Request],
    mut replies: Vec<Result<Reply, StoreFault>>,
) -> Served<D, C>
    requires own { till_shop till ≡ shop_id shop.now }
    requires few { length requests.now < 2 ^ 32 }
    requires room { (length requests.now ≤ vec_capacity replies) × (replies.items ≡ []) }
    ensures own { till_shop result.till ≡ shop_id shop.now }
    ensures run { TillRun C.coming (till_knows till) (asks_of (till_number till) requests.now) result.replies.items
        (till_knows result.till) }
{
    serve(rt, alloc, shop, &mut till, requests, &mut replies);
    Served { till, replies }
}

// What the runs of a shop's tills come to at its end: for the proof alone.
fn runs_are_told<C: Clock>()
    ensures told { ToldAtTheEnd C.coming }
    ensures taken { AddsWhatIsTaken C.coming }
    ensures others { AddsForNoOther C.coming }
{
    a_run_is_told_at_the_end::<C>();
    a_till_adds_what_is_taken::<C>();
    a_till_adds_for_no_other::<C>();
}

/// Serves the tills 1 and 2 at the same time over one chain. Where memory runs out the store comes back.
pub fn one_till_a_thread<D: Disk + Send + Drop, C: Clock + Send + Drop, R: Threads + Wait + Sync>(
    rt: &R,
    alloc: Global,
    store: Store<D, C>,
    first: &[Request],
    second: &[Request],
) -> Result<TwoTills<D, C>, StartRefused<D, C>>
    requires few { (length first.now < 2 ^ 32) × (length second.now < 2 ^ 32) }
    requires going_on { stopped_of (journal_of store) ≡ None }
    requires ready { Ready D.tells D.on_disk store }
    ensures sound { IfOk result (λ day.
        IsSound D.tells D.on_disk D.faults C.coming (root_of D.on_disk D.faults (parts_of store)) (parts_of day.store)) }
    //= Two tills at the same time are each told one reply for each request, in order, and each one's records since
    //= the start are those that it was told as taken.
    ensures first { IfOk result (λ day. AreReplies C.coming (root_of D.on_disk D.faults (parts_of store))
        (items_in (parts_of day.store)) 1 first.now day.first.items) }
    ensures second { IfOk result (λ day. AreReplies C.coming (root_of D.on_disk D.faults (parts_of store))
        (items_in (parts_of day.store)) 2 second.now day.second.items) }
    //= Beside the two tills no other till has a record since.
    //= No body: it follows from the shop's laws
    ensures others { IfOk result (λ day. (till : ℕ) → till ≢ 1 → till ≢ 2 →
        records_since (root_of D.on_disk D.faults (parts_of store)) (items_in (parts_of day.store)) till ≡ []) }
    ensures refused { IfErr result (λ e. parts_of e.store ≡ parts_of store) }
{
    runs_are_told::<C>();
    let Ok(first_room) = Vec::with_capacity(alloc, first.len()) else {
        return Err(StartRefused { store });
    };
    let Ok(second_room) = Vec::with_capacity(alloc, second.len()) else {
        return Err(StartRefused { store });
    };
    let Started {
        shop,
        mut tills,
        seat,
    } = Shop::start(alloc, store, &[1, 2])?;
    let Some(two) = tills.pull() else {
        unreachable!()
    };
    let Some(one) = tills.pull() else {
        unreachable!()
    };
    let counter = &shop;
    let (one, two) = join(
        rt,
        move || -> Served<D, C>
            requires { (till_shop one ≡ shop_id counter.now) × (length first.now < 2 ^ 32)
                × (length first.now ≤ vec_capacity first_room) × (first_room.items ≡ []) }
            ensures { (till_shop result.till ≡ shop_id counter.entry.now) × TillRun C.coming (till_knows one)
                (asks_of (till_number one) first.entry.now) result.replies.items (till_knows result.till) }
        { work(rt, alloc, counter, one, first, first_room) },
        move || -> Served<D, C>
            requires { (till_shop two ≡ shop_id counter.now) × (length second.now < 2 ^ 32)
                × (length second.now ≤ vec_capacity second_room) × (second_room.items ≡ []) }
            ensures { (till_shop result.till ≡ shop_id counter.entry.now) × TillRun C.coming (till_knows two)
                (asks_of (till_number two) second.entry.now) result.replies.items (till_knows result.till) }
        { work(rt, alloc, counter, two, second, second_room) },
    );
    tills.hand_back(one.till);
    tills.hand_back(two.till);
    Ok(TwoTills {
        first: one.replies,
        second: two.replies,
        store: shop.close(tills, seat),
    })
}
