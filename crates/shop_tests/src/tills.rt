//! Tills that ask in turns and at the same time, and what they were told.
ghost use Rattle.std.specs.Prelude.{◌≡◌, IfSome, IsTrue, None};
ghost use Rattle.chain_disk.specs.OnDisk.{IsSettled};
ghost use Rattle.chain_store.specs.Store.{Ready, journal_of};
ghost use Rattle.journal.specs.File.{IsNotBegun};
ghost use Rattle.journal.specs.Journal.{stopped_of};

use chain_disk::{Disk, MemDisk};
use chain_store::Store;
use journal::{Journal, StoreFault};
use parties::Nif;
use ports::{Clock, CountingClock, NoMemory};
use record_codec::Version;
use series::SeriesName;
use shop_core::{Reply, Request, State};
use std::alloc::Global;
use std::sync::Wait;
use std::test::Fail;
use test_rows::{holds, sale_draft};
use till_calls::{Question, Shop, Started};

// 2025-01-01, 10:00 on the peninsular clock.
const TEN: u64 = 1_735_722_000;

// A sale of 100 euros.
fn sale(alloc: Global) -> Result<Request, Fail> {
    let series = SeriesName::read("A").ok_or("a series")?;
    let draft = sale_draft(alloc, 10_000)?;
    Ok(Request::Sale { series, draft })
}

// The store of a file that isn't begun, which begins it.
fn begun<D: Disk + Drop, C: Clock + Drop>(alloc: Global, disk: D, clock: C) -> Option<Store<D, C>>
    requires { IsTrue D.tells → IsNotBegun (D.on_disk disk).content × IsSettled (D.on_disk disk) }
    ensures going_on { IfSome result (λ store. stopped_of (journal_of store) ≡ None) }
    ensures ready { IfSome result (λ store. Ready D.tells D.on_disk store) }
{
    let Ok(issuer) = Nif::read("89890001K") else {
        return None;
    };
    let state = State::empty(alloc, &issuer, Version::Two);
    match Journal::create(disk, &issuer, Version::Two) {
        Ok(journal) => Some(Store::of(state, journal, clock)),
        Err(_) => None,
    }
}

// How many records are there?
struct Records;

impl Question for Records {
    type Learnt = u32;

    ghost use Rattle.std.specs.Prelude.{◌≡◌, length};
    ghost use Rattle.shop_core.specs.History.{recs};

    ghost learns = { λ question version issuer entries learnt. learnt ≡ length (recs entries) };

    fn learn(&self, _alloc: Global, state: &State) -> Result<u32, NoMemory> {
        Ok(state.records())
    }
}

// What two tills were told, one after the other, and the store at the end.
#[derive(Drop)]
struct Ran<D: Disk, C: Clock> {
    first: Result<Reply, StoreFault>,
    second: Result<Reply, StoreFault>,
    again: Result<Reply, StoreFault>,
    // How many items till 2 knew of before till 1 was answered, and after that, when it had asked for nothing.
    seen: (u64, u64),
    // How many records till 2 saw then.
    looked: Result<u32, NoMemory>,
    count: u64,
    store: Store<D, C>,
}

// Till 1 and till 2 ask for the same sale, then till 1 asks once more under its serial, and tells how many items there are.
fn run_in_turns<D: Disk + Drop, C: Clock + Drop, R: Wait>(
    rt: &R,
    alloc: Global,
    store: Store<D, C>,
    request: &Request,
) -> Option<Ran<D, C>>
    requires going_on { stopped_of (journal_of store) ≡ None }
    requires ready { Ready D.tells D.on_disk store }
{
    let Ok(started) = Shop::start(alloc, store, &[1, 2]) else {
        return None;
    };
    let Started {
        shop,
        mut tills,
        seat,
    } = started;
    let Some(mut two) = tills.pull() else {
        return None;
    };
    let Some(mut one) = tills.pull() else {
        return None;
    };
    let before = shop.count_now(&mut two);
    let first = shop.ask(rt, alloc, &mut one, 1, request);
    let behind = shop.count_now(&mut two);
    shop.inform(&mut one, &mut two);
    let looked = shop.look(rt, alloc, &mut two, &Records);
    let second = shop.ask(rt, alloc, &mut two, 1, request);
    let again = shop.ask(rt, alloc, &mut one, 1, request);
    let count = shop.count_now(&mut two);
    tills.hand_back(one);
    tills.hand_back(two);
    Some(Ran {
        first,
        second,
        again,
        seen: (before, behind),
        looked,
        count,
        store: shop.close(tills, seat),
    })
}

// Runs the two tills over a disk whose calls of these numbers fail.
fn run_over<R: Wait>(
    rt: &R,
    alloc: Global,
    failing: Vec<u64>,
) -> Result<Option<Ran<MemDisk, CountingClock>>, Fail> {
    let request = sale(alloc)?;
    let disk = MemDisk::new(alloc, Vec::new(alloc), failing);
    match begun(alloc, disk, CountingClock::new(TEN, 1)) {
        Some(store) => Ok(run_in_turns(rt, alloc, store, &request)),
        None => Ok(None),
    }
}

// The place of the record that was taken, or 0.
fn taken_at(reply: &Result<Reply, StoreFault>) -> u32 {
    match reply {
        Ok(Reply::Taken(receipt)) => receipt.place,
        _ => 0,
    }
}

// The place of the record that was taken before, or 0.
fn again_at(reply: &Result<Reply, StoreFault>) -> u32 {
    match reply {
        Ok(Reply::Again(receipt)) => receipt.place,
        _ => 0,
    }
}

// Whether a look showed this many records.
fn shows(looked: &Result<u32, NoMemory>, records: u32) -> bool {
    match looked {
        Ok(n) => *n == records,
        Err(_) => false,
    }
}

fn is_stopped(reply: &Result<Reply, StoreFault>) -> bool {
    matches!(reply, Err(StoreFault::Stopped { .. }))
}

fn is_disk_fault(reply: &Result<Reply, StoreFault>) -> bool {
    matches!(reply, Err(StoreFault::DiskFault))
}

// Whether the disk of a run never failed. Fails where the tills were told something else than the store has.
fn is_whole(ran: &Ran<MemDisk, CountingClock>) -> Result<bool, Fail> {
    let records = u64::from(ran.store.state().records());
    holds(
        shows(&ran.looked, taken_at(&ran.first)),
        "what till 2 looks at",
    )?;
    if ran.store.stopped().is_none() {
        holds(ran.count == 2 && records == 2, "two records")?;
        holds(taken_at(&ran.first) == 1, "till 1")?;
        holds(taken_at(&ran.second) == 2, "till 2")?;
        holds(again_at(&ran.again) == 1, "till 1 again")?;
        holds(ran.seen == (0, 1), "what till 2 has seen")?;
        return Ok(true);
    }
    holds(is_stopped(&ran.again), "till 1 again, stopped")?;
    holds(ran.count == records.wrapping_add(1), "the count, stopped")?;
    if is_disk_fault(&ran.first) {
        holds(records == 0 && is_stopped(&ran.second), "till 1 fails")?;
    } else {
        holds(records == 1 && is_disk_fault(&ran.second), "till 2 fails")?;
    }
    Ok(false)
}

#[test]
fn two_tills_ask_until_the_disk_fails(rt: HostRuntime) -> Result<(), Fail> {
    let (mut stops, mut wholes) = (0u32, 0u32);
    for call in 0..24u64 {
        let Some(ran) = run_over(&rt, rt.alloc(), vec![in rt.alloc(); call]?)? else {
            continue;
        };
        if is_whole(&ran)? {
            wholes = wholes.wrapping_add(1);
        } else {
            stops = stops.wrapping_add(1);
        }
    }
    holds(1 < stops && 0 < wholes, "runs of both kinds")
}
