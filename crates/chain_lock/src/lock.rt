//! The lock: turns, one at a time, and glances, which wait for none.
ghost use Rattle.std.specs.Prelude.{◌≡◌, ◌≤◌, ◌<◌, ◌^◌, ◌++◌, [], ◌∷◌, false, true, length, max, Some, None};
ghost use Rattle.std.specs.Bool.{OnTrue, OnFalse};
ghost use Rattle.chain_lock.specs.Known.{Turns, KnowsOfSeen};
ghost use Rattle.chain_lock.specs.Lists.{MayAdd};
ghost use Rattle.chain_lock.specs.Rule.{Counted, HasTurn, IsAtRest, known_of, with_added};

use crate::act::{Act, Recorded};
use crate::pass::{Pass, RestingPlace};
use crate::plays::{Added, Free, Glance, Learn, Mark, Note, Try};
use crate::view::{Board, Place};
use std::hint::spin_loop;
use std::marker::Brand;
use std::sync::Wait;
use std::sync::atomic::AtomicU64;
use std::sync::atomic::Ordering::SeqCst;
use std::time::Duration;

// How often a thread looks for a free turn before it sleeps, at most.
const LOOKS: u32 = 100;

// How often one that was woken naps between its looks, at most, and for how many microseconds.
const NAPS: u32 = 20;

const NAP: u64 = 50;

/// A lock over one value. One pass at a time has the turn and works on the value; any other can read how many items
/// there are without waiting for it.
#[derive(Drop)]
pub struct ChainLock<V: Recorded> {
    pub(crate) board: Board<V>,
    // 1 where a thread may sleep until the turn is free, and else 0.
    pub(crate) asleep: AtomicU64,
    pub(crate) count: u16,
    ghost sized: { (board.shared.table_id.words ≡ 2) × (board.shared.table_id.slots ≡ 1) },
    ghost counted: { (board.shared.key.count ≡ count) × (0 < count) },
}

impl<V: Recorded> ChainLock<V> {
    ghost use Rattle.chain_lock.specs.Words.{known, lock_id, pass_lock};

    /// How many items the value has recorded. It is one load, and never waits for a turn.
    pub fn glance(&self, pass: &mut Pass<V>) -> u64
        requires { pass_lock pass.old ≡ lock_id self.now }
        ensures lock { pass_lock pass.new ≡ pass_lock pass.old }
        //= A look at the count never gives less than the pass knew of.
        //= No body: a count that fell breaks the lock's rule, which each step of a word keeps
        ensures at_least { (known pass.old).least ≤ result }
        ensures seen { KnowsOfSeen (known pass.new) }
        ensures raised { known pass.new ≡ record (known pass.old) { least = result } }
    {
        self.board.shared.load::<Glance>(&mut pass.seat.place, 0)
    }

    /// One pass tells another of how many items it knows. It is two loads, and waits for nobody.
    pub fn inform(&self, from: &mut Pass<V>, to: &mut Pass<V>)
        requires own { (pass_lock from.old ≡ lock_id self.now) × (pass_lock to.old ≡ lock_id self.now) }
        ensures lock { (pass_lock from.new ≡ pass_lock from.old) × (pass_lock to.new ≡ pass_lock to.old) }
        ensures same { known from.new ≡ known from.old }
        ensures raised { known to.new ≡ record (known to.old) { least = max (known to.old).least (known from.old).least } }
    {
        let note = self.board.shared.split_seat::<Note>(&mut from.seat.place);
        self.board
            .shared
            .join_seat::<Learn>(&mut to.seat.place, note);
    }

    // Swaps 1 into the turn's word. Where 0 was there, the pass has the turn.
    fn try_turn(&self, place: &mut Place<V>) -> bool
        requires table { place.old.table_id ≡ self.now.board.shared.table_id }
        requires rest { IsAtRest place.old.me }
        ensures same { (place.new.table_id ≡ place.old.table_id) × (place.new.id ≡ place.old.id) }
        ensures busy { OnFalse result (place.new.me ≡ place.old.me) }
        ensures got { OnTrue result ((y : V) × HasTurn V.items V.root place.old.me.0 y place.new.me) }
    {
        self.board.shared.swap::<Try<V>>(place, 1, 1) == 0
    }

    // Moves the value out of its place.
    fn take_value(&self, place: &mut Place<V>) -> V
        requires table { place.old.table_id ≡ self.now.board.shared.table_id }
        requires carried { (y : V) × (place.old.me.1 ≡ (0, Some y) ∷ []) }
        ensures same { (place.new.table_id ≡ place.old.table_id) × (place.new.id ≡ place.old.id) }
        ensures value { place.old.me.1 ≡ (0, Some result) ∷ [] }
        ensures left { place.new.me ≡ (place.old.me.0, (0, None) ∷ []) }
    {
        self.board.shared.exchange(place, 0, None).unwrap()
    }

    // Looks for a while, as long as another has the turn and nobody sleeps.
    fn spin(&self)
        requires { 1 < self.now.board.shared.table_id.words }
    {
        for _ in 0..LOOKS {
            if self.board.shared.peek(1) == 0 || self.asleep.load(SeqCst) != 0 {
                return;
            }
            spin_loop();
        }
    }

    fn note_sleeper(&self) {
        if self.asleep.load(SeqCst) == 0 {
            self.asleep.store(1, SeqCst);
        }
    }

    // One that was woken looks for a free turn between naps. There is no note meanwhile, so whoever has the turn can take some
    // more and wakes nobody.
    fn follow<R: Wait>(&self, rt: &R)
        requires { 1 < self.now.board.shared.table_id.words }
    {
        for _ in 0..NAPS {
            self.spin();
            if self.board.shared.peek(1) == 0 {
                return;
            }
            self.asleep.park_timeout(rt, 0, Duration::from_micros(NAP));
        }
    }

    // Waits until the turn may be free. Whoever notes a sleeper looks at the turn afterwards, so who frees it later
    // wakes one. One that was woken makes the note again, since others may sleep on.
    fn rest<R: Wait>(&self, rt: &R)
        requires { 1 < self.now.board.shared.table_id.words }
    {
        self.spin();
        self.note_sleeper();
        if self.board.shared.peek(1) != 0 {
            self.asleep.park(rt, 1);
            self.follow(rt);
            self.note_sleeper();
        }
    }

    // Gets the turn, and the value.
    fn take<R: Wait>(&self, rt: &R, place: &mut Place<V>) -> V
        requires table { place.old.table_id ≡ self.now.board.shared.table_id }
        requires rest { IsAtRest place.old.me }
        ensures same { (place.new.table_id ≡ place.old.table_id) × (place.new.id ≡ place.old.id) }
        ensures got { (m : _) × HasTurn V.items V.root place.old.me.0 result m × (place.new.me ≡ (m.0, (0, None) ∷ [])) }
    {
        for _ in rt.forever() {
            if self.try_turn(place) {
                return self.take_value(place);
            }
            self.rest(rt);
        }
        unreachable!()
    }

    // Counts the item that was added.
    fn mark<N: Added<V::Item>>(&self, place: &mut Place<V>, value: &V)
        requires table { (place.old.table_id ≡ self.now.board.shared.table_id) × (place.old.me.0.turning ≡ true) }
        requires added { (x : V.Item) × (N.added ≡ x ∷ []) × (V.items value.now ≡ place.old.me.0.seen ++ x ∷ []) }
        requires room { length (V.items value.now) < 2 ^ 64 }
        ensures same { (place.new.table_id ≡ place.old.table_id) × (place.new.id ≡ place.old.id) }
        ensures view { place.new.me ≡ (with_added place.old.me.0 N.added, place.old.me.1) }
    {
        self.board.shared.fetch_add::<Mark<N>>(place, 0, 1);
    }

    // Counts the item where the value has one more than the pass has seen.
    fn count_added(&self, place: &mut Place<V>, value: &V, before: u64)
        requires table { (place.old.table_id ≡ self.now.board.shared.table_id) × (place.old.me.0.turning ≡ true) }
        requires before { (before ≡ length place.old.me.0.seen) × (place.old.me.0.least ≡ length place.old.me.0.seen) }
        requires items { MayAdd place.old.me.0.seen (V.items value.now) }
        ensures same { (place.new.table_id ≡ place.old.table_id) × (place.new.id ≡ place.old.id) }
        ensures hand { place.new.me.1 ≡ place.old.me.1 }
        ensures view { Counted place.old.me.0 (V.items value.now) place.new.me.0 }
    {
        if value.recorded() == before {
            return;
        }
        self.mark::<Brand>(place, value);
    }

    // Moves the value back to its place, where the count is right.
    fn put_value(&self, place: &mut Place<V>, value: V)
        requires table { place.old.table_id ≡ self.now.board.shared.table_id }
        requires hole { place.old.me.1 ≡ (0, None) ∷ [] }
        ensures same { (place.new.table_id ≡ place.old.table_id) × (place.new.id ≡ place.old.id) }
        ensures put { place.new.me ≡ (place.old.me.0, (0, Some value) ∷ []) }
    {
        let hole = self.board.shared.exchange(place, 0, Some(value));
        let None = hole else { unreachable!() };
    }

    // Gives the turn back, where the value is in its place and the count is right.
    fn free(&self, place: &mut Place<V>)
        requires table { place.old.table_id ≡ self.now.board.shared.table_id }
        requires turn { place.old.me.0.turning ≡ true }
        requires value { (y : V) × (place.old.me.1 ≡ (0, Some y) ∷ []) × (V.items y ≡ place.old.me.0.seen) ×
            (place.old.me.0.root ≡ Some (V.root y)) }
        ensures same { (place.new.table_id ≡ place.old.table_id) × (place.new.id ≡ place.old.id) }
        ensures view { place.new.me ≡ (record place.old.me.0 { turning = false }, []) }
    {
        self.board.shared.store::<Free>(place, 1, 0);
    }

    // Wakes one thread, where some may sleep.
    fn wake(&self) {
        if self.asleep.load(SeqCst) != 0 {
            self.asleep.store(0, SeqCst);
            self.asleep.wake_one();
        }
    }

    // A turn, at the pass's seat.
    fn turn_at<A: Act<V>, R: Wait>(
        &self,
        rt: &R,
        seat: &mut RestingPlace<V>,
        act: &mut A,
    ) -> A::Told
        requires { seat.old.place.table_id ≡ self.now.board.shared.table_id }
        ensures table { seat.new.place.table_id ≡ seat.old.place.table_id }
        ensures turn { Turns (λ home before after. A.relates act.old home before act.new after result)
            (known_of seat.old.place.me.0) (known_of seat.new.place.me.0) }
    {
        let mut value = self.take(rt, &mut seat.place);
        let before = value.recorded();
        let told = act.act(&mut value);
        self.count_added(&mut seat.place, &value, before);
        self.put_value(&mut seat.place, value);
        self.free(&mut seat.place);
        told
    }

    /// Takes a turn: waits until no other pass has it, calls the act once on the value, and gives what the act tells. The turn
    /// itself takes no memory.
    /// It may wait forever, as where an act never ends, and no order among those who wait is promised.
    pub fn turn<A: Act<V>, R: Wait>(&self, rt: &R, pass: &mut Pass<V>, act: &mut A) -> A::Told
        requires { pass_lock pass.old ≡ lock_id self.now }
        ensures lock { pass_lock pass.new ≡ pass_lock pass.old }
        //= An act is called once, on a list that begins with all that the pass had seen and is at least as long as it
        //= knew, and the pass then owns what was added.
        ensures turn { Turns (λ home before after. A.relates act.old home before act.new after result)
            (known pass.old) (known pass.new) }
        ensures seen { KnowsOfSeen (known pass.new) }
    {
        let told = self.turn_at(rt, &mut pass.seat, act);
        self.wake();
        told
    }
}
