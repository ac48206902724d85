//! A right to take turns, and the passes that are not out.
ghost use Rattle.std.specs.Prelude.{◌≡◌, ◌<◌, ◌↔◌, [], ◌∷◌, ◌++◌, length, All, IsNone, IfSome, IfNone};
ghost use Rattle.chain_lock.specs.Rule.{IsAtRest};

use crate::act::Recorded;
use crate::view::View;
use atomic_table::Seat;
use std::snapshot::Snapshot;

// A seat between two calls. It names no `Recorded`, so that a struct over a generic value may hold a pass.
#[derive(Drop)]
pub struct RestingSeat<V, I, R> {
    pub(crate) place: Seat<Option<V>, View<I, R>>,
    ghost at_rest: { IsAtRest place.me },
}

pub(crate) type RestingPlace<V> = RestingSeat<V, <V as Recorded>::Item, <V as Recorded>::Root>;

// Seats of one table.
#[derive(Drop)]
pub struct SeatList<V, I, R> {
    pub(crate) list: Vec<RestingSeat<V, I, R>>,
    pub(crate) of: Snapshot<Seat<Option<V>, View<I, R>>>,
    ghost own: { All (λ s. s.place.table_id ≡ of.value.table_id) list.items },
}

/// A right to take turns at one lock. It takes no bytes: what it has seen, the least number of items that it knows of,
/// its own items with their places, the root and its numbers are known to clauses alone.
#[derive(Drop)]
pub struct Pass<V: Recorded> {
    pub(crate) seat: RestingSeat<V, V::Item, V::Root>,
}

/// The passes of one lock that are not out, with room for all that were made.
#[derive(Drop)]
pub struct Passes<V: Recorded> {
    pub(crate) seats: SeatList<V, V::Item, V::Root>,
}

/// Memory ran out, and this is the value that the lock was to be made of.
#[derive(Drop)]
pub struct Refused<V> {
    pub value: V,
}

impl<V: Recorded> Passes<V> {
    ghost use Rattle.chain_lock.specs.Known.{KnowsOfSeen};
    ghost use Rattle.chain_lock.specs.Words.{all_known, known, pass_lock, passes_lock, room_of};

    /// Takes the last pass out. `None` exactly where there is none.
    pub fn pull(&mut self) -> Option<Pass<V>>
        ensures some { IfSome result (λ p. all_known self.old ≡ all_known self.new ++ known p ∷ []) }
        ensures own { IfSome result (λ p. pass_lock p ≡ passes_lock self.old) }
        ensures seen { IfSome result (λ p. KnowsOfSeen (known p)) }
        ensures none { IsNone result ↔ (all_known self.old ≡ []) }
        ensures same { IfNone result (all_known self.new ≡ all_known self.old) }
        ensures lock { passes_lock self.new ≡ passes_lock self.old }
        ensures room { room_of self.new ≡ room_of self.old }
    {
        match self.seats.list.pop() {
            Some(seat) => Some(Pass { seat }),
            None => None,
        }
    }

    /// Adds a pass of the same lock as the last one. It takes no memory, since the room is there.
    pub fn hand_back(&mut self, pass: Pass<V>)
        requires own { pass_lock pass ≡ passes_lock self.old }
        requires room { length (all_known self.old) < room_of self.old }
        ensures passes { all_known self.new ≡ all_known self.old ++ known pass ∷ [] }
        ensures lock { passes_lock self.new ≡ passes_lock self.old }
        ensures room { room_of self.new ≡ room_of self.old }
    {
        let Pass { seat } = pass;
        self.seats.list.push_reserved(seat);
    }
}
