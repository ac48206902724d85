//! Two threads that add at one lock while a third looks, and what a pass tells another.
ghost use Rattle.std.specs.Prelude.{◌≡◌};
ghost use Rattle.chain_lock.specs.Words.{known, lock_id, pass_lock};

use chain_lock::*;
use std::alloc::{AllocError, Global};
use std::process::Abort;
use std::sync::Wait;
use std::test::*;
use std::thread::{Threads, join};
use test_rows::holds;

const TURNS: u64 = 1_000;

/// Numbers, and a name that stays.
#[derive(Drop)]
struct Ledger {
    name: u64,
    items: Vec<u64>,
}

impl Recorded for Ledger {
    type Item = u64;

    type Root = u64;

    ghost items = { λ l. l.items.items };

    ghost root = { λ l. l.name };

    fn recorded(&self) -> u64 {
        self.items.len() as u64
    }
}

/// Adds an item where there is room. It tells the item's place.
#[derive(Drop)]
struct Add {
    item: u64,
}

impl Act<Ledger> for Add {
    type Told = Option<u64>;

    ghost relates = { λ before root list after items told. after.item ≡ before.item };

    fn act(&mut self, value: &mut Ledger) -> Option<u64> {
        if value.items.len() == value.items.capacity() {
            return None;
        }
        let place = value.items.len() as u64;
        value.items.push_reserved(self.item);
        Some(place)
    }
}

/// What three threads did with one lock.
#[derive(Drop)]
struct Told {
    ledger: Ledger,
    /// The places at which each of two threads added its items.
    first: Vec<u64>,
    second: Vec<u64>,
    /// A glance of the third was less than the one before it.
    fell: bool,
    /// A glance after the two had ended.
    last: u64,
}

/// Adds the items from `start` on, and notes their places.
fn add_all<R: Wait>(
    rt: &R,
    lock: &ChainLock<Ledger>,
    mut pass: Pass<Ledger>,
    start: u64,
    mut places: Vec<u64>,
) -> (Pass<Ledger>, Vec<u64>)
    requires { pass_lock pass ≡ lock_id lock.now }
    ensures lock { pass_lock result.0 ≡ pass_lock pass }
    ensures numbers { (known result.0).numbers ≡ (known pass).numbers }
{
    for k in 0..TURNS {
        let mut add = Add {
            item: start.wrapping_add(k),
        };
        if let Some(place) = lock.turn(rt, &mut pass, &mut add) {
            let _ = places.push(place);
        }
    }
    (pass, places)
}

/// Glances again and again, and tells whether one was less than the one before.
fn glance_all(lock: &ChainLock<Ledger>, mut pass: Pass<Ledger>) -> (Pass<Ledger>, bool)
    requires { pass_lock pass ≡ lock_id lock.now }
    ensures lock { pass_lock result.0 ≡ pass_lock pass }
    ensures numbers { (known result.0).numbers ≡ (known pass).numbers }
{
    let mut fell = false;
    let mut before = 0;
    for _ in 0..100_000u32 {
        let now = lock.glance(&mut pass);
        fell = fell || now < before || 2 * TURNS < now;
        before = now;
    }
    (pass, fell)
}

fn add_beside_glances<R: Threads + Wait + Sync>(
    rt: &R,
    lock: &ChainLock<Ledger>,
    adds: Pass<Ledger>,
    glances: Pass<Ledger>,
    places: Vec<u64>,
) -> ((Pass<Ledger>, Vec<u64>), (Pass<Ledger>, bool))
    requires { (pass_lock adds ≡ lock_id lock.now) × (pass_lock glances ≡ lock_id lock.now) }
    ensures locks { (pass_lock result.0.0 ≡ pass_lock adds) × (pass_lock result.1.0 ≡ pass_lock glances) }
    ensures numbers { ((known result.0.0).numbers ≡ (known adds).numbers)
        × ((known result.1.0).numbers ≡ (known glances).numbers) }
{
    join(
        rt,
        || add_all(rt, lock, adds, TURNS, places),
        || glance_all(lock, glances),
    )
}

fn three_threads<R: Threads + Wait + Sync>(
    rt: &R,
    alloc: Global,
    ledger: Ledger,
    first: Vec<u64>,
    second: Vec<u64>,
) -> Result<Told, Refused<Ledger>> {
    let (lock, mut passes) = ChainLock::new(alloc, ledger, 3)?;
    let Some(a) = passes.pull() else {
        unreachable!()
    };
    let Some(b) = passes.pull() else {
        unreachable!()
    };
    let Some(c) = passes.pull() else {
        unreachable!()
    };
    let ((a, first), ((b, second), (mut c, fell))) = join(
        rt,
        || -> (Pass<Ledger>, Vec<u64>)
            requires { pass_lock a ≡ lock_id lock }
            ensures locks { pass_lock result.0 ≡ pass_lock a }
            ensures numbers { (known result.0).numbers ≡ (known a).numbers }
        { add_all(rt, &lock, a, 0, first) },
        || -> ((Pass<Ledger>, Vec<u64>), (Pass<Ledger>, bool))
            requires { (pass_lock b ≡ lock_id lock) × (pass_lock c ≡ lock_id lock) }
            ensures locks { (pass_lock result.0.0 ≡ pass_lock b) × (pass_lock result.1.0 ≡ pass_lock c) }
            ensures numbers { ((known result.0.0).numbers ≡ (known b).numbers)
                × ((known result.1.0).numbers ≡ (known c).numbers) }
        { add_beside_glances(rt, &lock, b, c, second) },
    );
    let last = lock.glance(&mut c);
    passes.hand_back(a);
    passes.hand_back(c);
    passes.hand_back(b);
    let ledger = lock.close(passes);
    Ok(Told {
        ledger,
        first,
        second,
        fell,
        last,
    })
}

// Fails where the items from `start` on don't stand at these places.
fn are_at(items: &[u64], places: &[u64], start: u64) -> Result<(), Fail> {
    holds(places.len() == 1_000, "the places")?;
    for k in 0..1_000usize {
        let place = places.get(k).copied().ok_or("no place")?;
        let item = items.get(place as usize).copied();
        holds(item == Some(start.wrapping_add(k as u64)), "an item")?;
    }
    Ok(())
}

#[test]
fn two_threads_add_and_a_third_glances(rt: HostRuntime) -> Result<(), Fail> {
    let items = Vec::with_capacity(rt.alloc(), 2_000)?;
    let first = Vec::with_capacity(rt.alloc(), 1_000)?;
    let second = Vec::with_capacity(rt.alloc(), 1_000)?;
    match three_threads(&rt, rt.alloc(), Ledger { name: 7, items }, first, second) {
        Ok(told) => {
            holds(told.ledger.name == 7, "the name")?;
            holds(told.ledger.items.len() == 2_000, "the items")?;
            holds(told.last == 2_000, "the last glance")?;
            holds(!told.fell, "the glances")?;
            are_at(&told.ledger.items, &told.first, 0)?;
            are_at(&told.ledger.items, &told.second, TURNS)
        }
        Err(refused) => {
            let Ledger { name, items } = refused.value;
            holds(name == 7 && items.is_empty(), "the ledger is back")?;
            Err(Fail::from(AllocError))
        }
    }
}

#[test]
fn a_pass_tells_another_of_how_many_items_it_knows(rt: HostRuntime) -> Result<(), Fail> {
    let items = Vec::with_capacity(rt.alloc(), 1)?;
    let Ok((lock, mut passes)) = ChainLock::new(rt.alloc(), Ledger { name: 7, items }, 2) else {
        return Err(Fail::from(AllocError));
    };
    let (Some(mut from), Some(mut to)) = (passes.pull(), passes.pull()) else {
        return Err(Fail::from("no pass"));
    };
    let place = lock.turn(&rt, &mut from, &mut Add { item: 5 });
    lock.inform(&mut from, &mut to);
    holds(place == Some(0), "its place")?;
    holds(lock.glance(&mut to) == 1, "the other's glance")?;
    Ok(())
}
