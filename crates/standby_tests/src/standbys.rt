//! A standby that is told pieces, and a pair that notes.
ghost use Rattle.std.specs.Prelude.{◌≡◌, IfOk, IfSome, None};
ghost use Rattle.chain_store.specs.Store.{Ready, state_of};

use chain_disk::{Disk, MemDisk};
use chain_store::Store;
use journal::StoreFault;
use once_world::Outbox;
use parties::Nif;
use ports::{Clock, CountingClock};
use record_codec::{BadEntry, Version};
use record_fields::{Bytes, Line};
use recovery::open_store;
use series::SeriesName;
use shop_core::{Ask, Break, Request, State};
use standby::{Arrived, Pair, Piece, Standby, StandbyCause, catch_up, first_apart, piece_of};
use std::alloc::Global;
use std::sync::Wait;
use std::test::Fail;
use test_rows::{holds, sale_draft};

// 2025-01-01, 10:00 on the peninsular clock.
const TEN: u64 = 1_735_722_000;

type Shop = Store<MemDisk, CountingClock>;

type Copies = Pair<MemDisk, CountingClock, MemDisk>;

// A disk whose call of this number fails; none does at 0.
fn disk_failing_at(alloc: Global, call: u64) -> Result<MemDisk, Fail> {
    Ok(MemDisk::new(alloc, Vec::new(alloc), vec![in alloc; call]?))
}

// A sale of this many cents by till 1 in the series A.
fn sale(alloc: Global, serial: u32, cents: i64) -> Result<Ask, Fail> {
    if serial < 1 {
        return Err(Fail::from("a serial"));
    }
    let series = SeriesName::read("A").ok_or("a series")?;
    let draft = sale_draft(alloc, cents)?;
    Ok(Ask::new(1, serial, Request::Sale { series, draft }))
}

// Takes such a sale.
fn sell<D: Disk, C: Clock>(
    alloc: Global,
    store: &mut Store<D, C>,
    serial: u32,
    cents: i64,
) -> Result<(), Fail>
    requires { Ready D.tells D.on_disk store.old }
    ensures { Ready D.tells D.on_disk store.new }
{
    let ask = sale(alloc, serial, cents)?;
    let _ = store.take(alloc, &ask);
    Ok(())
}

// A shop on this disk.
fn shop_on<D: Disk + Drop>(alloc: Global, disk: D) -> Option<Store<D, CountingClock>>
    ensures { IfSome result (λ store. Ready D.tells D.on_disk store) }
{
    let Ok(issuer) = Nif::read("89890001K") else {
        return None;
    };
    match open_store(alloc, disk, CountingClock::new(TEN, 0), &issuer) {
        Ok(store) => Some(store),
        Err(_) => None,
    }
}

// A shop with three sales, the first of this many cents.
fn shop_of_three(alloc: Global, cents: i64) -> Result<Shop, Fail> {
    let Some(mut store) = shop_on(alloc, disk_failing_at(alloc, 0)?) else {
        return Err(Fail::from("a shop"));
    };
    sell(alloc, &mut store, 1, cents)?;
    sell(alloc, &mut store, 2, 10_000)?;
    sell(alloc, &mut store, 3, 10_000)?;
    Ok(store)
}

// A standby of this shop on this disk.
fn started(alloc: Global, store: &Shop, disk: MemDisk) -> Option<Standby<MemDisk>>
    ensures going_on { IfSome result (λ copy. copy.stopped ≡ None) }
    ensures issuer { IfSome result (λ copy. copy.history.issuer ≡ (state_of store.now).issuer) }
    ensures version { IfSome result (λ copy. copy.history.version ≡ (state_of store.now).version) }
{
    let state = store.state();
    match Standby::start(alloc, disk, state.issuer(), state.version()) {
        Ok(copy) => Some(copy),
        Err(_) => None,
    }
}

fn begun(alloc: Global, store: &Shop) -> Result<Standby<MemDisk>, Fail>
    ensures going_on { IfOk result (λ copy. copy.stopped ≡ None) }
    ensures issuer { IfOk result (λ copy. copy.history.issuer ≡ (state_of store.now).issuer) }
    ensures version { IfOk result (λ copy. copy.history.version ≡ (state_of store.now).version) }
{
    match started(alloc, store, disk_failing_at(alloc, 0)?) {
        Some(copy) => Ok(copy),
        None => Err(Fail::from("a standby")),
    }
}

// Why a file is no copy of a chain, and the file.
fn refused(
    alloc: Global,
    disk: MemDisk,
    issuer: &Nif,
    version: Version,
) -> Result<(StandbyCause, MemDisk), Fail> {
    match Standby::start(alloc, disk, issuer, version) {
        Ok(_) => Err(Fail::from("a file of another chain")),
        Err(fault) => Ok((fault.cause, fault.disk)),
    }
}

// What the file of a shop is to a copy of another version, and of another issuer.
#[test]
fn a_file_of_another_chain_is_no_copy(rt: HostRuntime) -> Result<(), Fail> {
    let alloc = rt.alloc();
    let issuer = Nif::read("89890001K").ok().ok_or("an issuer")?;
    let other = Nif::read("12345678Z").ok().ok_or("another issuer")?;
    let begun = Standby::start(alloc, disk_failing_at(alloc, 0)?, &issuer, Version::One);
    let Ok(copy) = begun else {
        return Err(Fail::from("a standby"));
    };
    let (cause, disk) = refused(alloc, copy.into_disk(), &issuer, Version::Two)?;
    let wanted = StandbyCause::OtherVersion { held: Version::One };
    holds(cause == wanted, "another version")?;
    let (cause, _) = refused(alloc, disk, &other, Version::One)?;
    let wanted = StandbyCause::OtherIssuer { held: issuer };
    holds(cause == wanted, "another issuer")
}

fn piece(alloc: Global, store: &Shop, index: u64) -> Result<Piece, Fail> {
    Ok(piece_of(alloc, store.state(), index)?.ok_or("a piece")?)
}

// What becomes of a piece. There are no clauses here, so that those of `arrive` stay out of the callers' proofs.
fn arrived(
    alloc: Global,
    copy: &mut Standby<MemDisk>,
    piece: &Piece,
) -> Result<Arrived, StoreFault> {
    copy.arrive(alloc, piece)
}

// Fails at this row where something else becomes of a piece.
fn arrives(
    alloc: Global,
    copy: &mut Standby<MemDisk>,
    piece: &Piece,
    told: Arrived,
    row: &str,
) -> Result<(), Fail> {
    holds(arrived(alloc, copy, piece) == Ok(told), row)
}

const ARRIVALS: [(&str, u64, Arrived); 5] = [
    ("the second too early", 1, Arrived::Gap { next: 0 }),
    ("the first", 0, Arrived::Kept),
    ("the first again", 0, Arrived::Old),
    ("the third too early", 2, Arrived::Gap { next: 1 }),
    ("the second", 1, Arrived::Kept),
];

#[test]
fn pieces_come_in_any_order(rt: HostRuntime) -> Result<(), Fail> {
    let alloc = rt.alloc();
    let store = shop_of_three(alloc, 10_000)?;
    let mut copy = begun(alloc, &store)?;
    for (name, index, told) in ARRIVALS {
        arrives(alloc, &mut copy, &piece(alloc, &store, index)?, told, name)?;
    }
    holds(copy.state().entries() == 2, "two entries")?;
    if copy.stopped().is_some() {
        return Err(Fail::from("a standby that goes on"));
    }
    let promoted = copy.promote(CountingClock::new(TEN, 0));
    holds(promoted.state().records() == 2, "two records")?;
    holds(
        piece_of(alloc, promoted.state(), 2)?.is_none(),
        "no third piece",
    )
}

// A piece of such a shop.
fn piece_of_three(alloc: Global, cents: i64, index: u64) -> Result<Piece, Fail> {
    piece(alloc, &shop_of_three(alloc, cents)?, index)
}

fn copy_of_three(alloc: Global) -> Result<Standby<MemDisk>, Fail> {
    begun(alloc, &shop_of_three(alloc, 10_000)?)
}

#[test]
fn a_piece_of_another_chain_is_not_kept(rt: HostRuntime) -> Result<(), Fail> {
    let alloc = rt.alloc();
    let own = piece_of_three(alloc, 10_000, 0)?;
    let foreign = piece_of_three(alloc, 20_000, 1)?;
    let torn = Piece {
        index: 1,
        body: Bytes::of(vec![in alloc; 1u8]?),
    };
    let mut copy = copy_of_three(alloc)?;
    let is_foreign = Arrived::Foreign(Break::Link);
    let is_torn = Arrived::Bad(BadEntry::At { at: 1 });
    arrives(alloc, &mut copy, &own, Arrived::Kept, "its own")?;
    arrives(alloc, &mut copy, &foreign, is_foreign, "another chain's")?;
    arrives(alloc, &mut copy, &torn, is_torn, "one that is torn")?;
    holds(copy.state().entries() == 1, "one entry")
}

// Whether a standby's disk fails at this call while its first piece arrives. The standby stops then, and its file is a front of the
// shop's.
fn fails_at(alloc: Global, store: &Shop, first: &Piece, call: u64) -> Result<bool, Fail> {
    let Some(mut copy) = started(alloc, store, disk_failing_at(alloc, call)?) else {
        return Ok(false);
    };
    let told = arrived(alloc, &mut copy, first);
    if told == Ok(Arrived::Kept) {
        return Ok(false);
    }
    holds(told == Err(StoreFault::DiskFault), "the piece")?;
    let again = arrived(alloc, &mut copy, first);
    holds(
        again == Err(StoreFault::Stopped { faults: 1 }),
        "the piece again",
    )?;
    let Some(copy) = started(alloc, store, copy.into_disk()) else {
        return Err(Fail::from("a standby again"));
    };
    holds(
        first_apart(alloc, store.state(), copy.state())?.is_none(),
        "a front",
    )?;
    Ok(true)
}

// Each call of the standby's disk fails in turn.
#[test]
fn a_standby_stops_where_its_disk_fails(rt: HostRuntime) -> Result<(), Fail> {
    let alloc = rt.alloc();
    let store = shop_of_three(alloc, 10_000)?;
    let first = piece(alloc, &store, 0)?;
    let mut failed = 0u32;
    for call in 1..30u64 {
        let fails = fails_at(alloc, &store, &first, call)?;
        failed = failed.saturating_add(u32::from(fails));
    }
    holds(failed == 4, "four calls")
}

// Twelve places of a chain of three, in an order of this number.
fn order(alloc: Global, number: u64) -> Result<Vec<u64>, Fail> {
    let mut places = Vec::new(alloc);
    let mut state = number;
    for _ in 0..12u8 {
        state = state
            .wrapping_mul(6_364_136_223_846_793_005)
            .wrapping_add(1);
        places.push((state >> 33) % 3)?;
    }
    Ok(places)
}

// How many places come in their order, one after the other, from 0.
fn followed(places: &[u64]) -> u64 {
    let mut next = 0u64;
    for place in places {
        if *place == next {
            next = next.wrapping_add(1);
        }
    }
    next
}

fn pieces(alloc: Global, store: &Shop, places: &[u64]) -> Result<Vec<Piece>, Fail> {
    let mut pieces = Vec::new(alloc);
    for place in places {
        pieces.push(piece(alloc, store, *place)?)?;
    }
    Ok(pieces)
}

// How many pieces a copy keeps of those that come in the order of a number. It is a front of the shop then.
fn kept_in(alloc: Global, store: &Shop, number: u64) -> Result<u64, Fail> {
    let places = order(alloc, number)?;
    let pieces = pieces(alloc, store, &places)?;
    let mut copy = begun(alloc, store)?;
    let kept = copy.receive(alloc, &pieces)?;
    let is_front = first_apart(alloc, store.state(), copy.state())?.is_none();
    let are_kept = kept == followed(&places) && copy.state().entries() == kept;
    holds(is_front && are_kept, "a front")?;
    Ok(kept)
}

#[test]
fn whatever_order_they_come_in_the_copy_is_a_front(rt: HostRuntime) -> Result<(), Fail> {
    let alloc = rt.alloc();
    let store = shop_of_three(alloc, 10_000)?;
    let mut whole = false;
    for number in 0..40u64 {
        let kept = kept_in(alloc, &store, number)?;
        whole = whole || kept == 3;
    }
    holds(whole, "one of them whole")
}

// A standby that was brought up to this history. None where its disk failed.
fn caught_up<D: Disk + Drop>(alloc: Global, state: &State, copy: Standby<D>) -> Option<Standby<D>>
    requires going_on { copy.stopped ≡ None }
    requires issuer { copy.history.issuer ≡ state.now.issuer }
    requires version { copy.history.version ≡ state.now.version }
    ensures going_on { IfSome result (λ same. same.stopped ≡ None) }
    ensures issuer { IfSome result (λ same. same.history.issuer ≡ state.now.issuer) }
    ensures version { IfSome result (λ same. same.history.version ≡ state.now.version) }
    ensures entries { IfSome result (λ same. same.history.entries ≡ state.now.entries) }
{
    let mut copy = copy;
    match first_apart(alloc, state, copy.state()) {
        Ok(None) => {}
        _ => return None,
    }
    match catch_up(alloc, state, &mut copy) {
        Ok(_) => Some(copy),
        Err(_) => None,
    }
}

// None where the shop's disk failed.
fn paired<D: Disk + Drop, C: Clock + Drop, M: Disk + Drop>(
    store: Store<D, C>,
    copy: Standby<M>,
) -> Option<Pair<D, C, M>>
    requires ready { Ready D.tells D.on_disk store }
    requires going_on { copy.stopped ≡ None }
    requires issuer { copy.history.issuer ≡ (state_of store).issuer }
    requires version { copy.history.version ≡ (state_of store).version }
    requires entries { copy.history.entries ≡ (state_of store).entries }
{
    match store.stopped() {
        Some(_) => None,
        None => Some(Pair::of(store, copy)),
    }
}

// How many lines each of the two has.
fn noted_in<D: Disk + Drop, C: Clock + Drop, M: Disk + Drop>(pair: Pair<D, C, M>) -> (u32, u32) {
    let (store, copy) = pair.into_parts();
    (store.state().noted(), copy.state().noted())
}

// A shop with a sale and its standby, on disks whose calls of these numbers fail. None where one of them failed before they are a
// pair.
fn pair(alloc: Global, of_shop: u64, of_copy: u64) -> Result<Option<Copies>, Fail> {
    let Some(mut store) = shop_on(alloc, disk_failing_at(alloc, of_shop)?) else {
        return Ok(None);
    };
    sell(alloc, &mut store, 1, 10_000)?;
    let Some(copy) = started(alloc, &store, disk_failing_at(alloc, of_copy)?) else {
        return Ok(None);
    };
    match caught_up(alloc, store.state(), copy) {
        Some(copy) => Ok(paired(store, copy)),
        None => Ok(None),
    }
}

// What a note of one line is answered; None where no record waits.
fn note_one<R: Wait>(
    rt: &R,
    alloc: Global,
    pair: &mut Copies,
) -> Result<Option<Result<(), StoreFault>>, Fail> {
    let shown = pair.waiting(rt, alloc, 10)?;
    if shown.list.as_slice().is_empty() {
        return Ok(None);
    }
    Ok(Some(pair.note(rt, alloc, &[Line::Correcto])))
}

// Whether one of two disks fails while they are a pair. The pair stops then, and the standby has at most the last notes less.
fn pair_fails_at<R: Wait>(rt: &R, alloc: Global, of_shop: u64, of_copy: u64) -> Result<bool, Fail> {
    let Some(mut pair) = pair(alloc, of_shop, of_copy)? else {
        return Ok(false);
    };
    let told = note_one(rt, alloc, &mut pair)?;
    let again = note_one(rt, alloc, &mut pair)?;
    let stopped = pair.stopped();
    let noted = noted_in(pair);
    if told == Some(Ok(())) {
        holds(again.is_none() && stopped.is_none(), "nothing waits")?;
        holds(noted == (1, 1), "both noted")?;
        return Ok(false);
    }
    holds(told == Some(Err(StoreFault::DiskFault)), "the note")?;
    holds(
        again == Some(Err(StoreFault::Stopped { faults: 1 })),
        "the note again",
    )?;
    holds(stopped == Some(1), "stopped")?;
    let left = if of_shop > 0 { (0, 0) } else { (1, 0) };
    holds(noted == left, "what is noted")?;
    Ok(true)
}

// Each call of either disk fails in turn.
#[test]
fn a_pair_stops_where_either_disk_fails(rt: HostRuntime) -> Result<(), Fail> {
    let mut failed = 0u32;
    for call in 1..40u64 {
        let of_shop = pair_fails_at(&rt, rt.alloc(), call, 0)?;
        let of_copy = pair_fails_at(&rt, rt.alloc(), 0, call)?;
        failed = failed.saturating_add(u32::from(of_shop));
        failed = failed.saturating_add(u32::from(of_copy));
    }
    holds(failed == 8, "eight calls")
}
