//! The tills of a shop, and the seat of its sender.
ghost use Rattle.std.specs.Prelude.{◌≡◌, ◌≤◌, ◌<◌, ◌↔◌, ◌++◌, ◌∷◌, [], length, IsNone, IfSome, IfNone, vec_len, vec_capacity};
ghost use Rattle.std.specs.Int.{IsInRange};
ghost use Rattle.chain_lock.specs.Words.{all_known, known, room_of};
ghost use Rattle.once_world.specs.Outbox.{OwnWithin};
ghost use Rattle.record_codec.specs.declared.entry.TheConstants.{LAST_TILL};
ghost use Rattle.till_calls.specs.Mark.{sight_by};

use crate::kept::Kept;
use crate::shop::Shop;
use chain_disk::Disk;
use chain_lock::{Act, Pass, Passes};
use ports::Clock;
use std::marker::Model;
use std::sync::Wait;

// A till's number: 1 to `LAST_TILL`.
#[derive(Drop)]
pub(crate) struct TillNumber {
    pub(crate) number: u8,
}

impl Model for TillNumber {
    ghost use Rattle.std.specs.Prelude.{ℕ};
    ghost use Rattle.std.specs.Int.{IsInRange};
    ghost use Rattle.record_codec.specs.declared.entry.TheConstants.{LAST_TILL};

    ghost Value = { ℕ };

    ghost view = { λ n. n.number };

    ghost invariant = { λ n. IsInRange 1 LAST_TILL n.number };
}

/// A till of a shop. What it has seen of the shop's items, and which of them are its own, is known to clauses alone.
#[derive(Drop)]
pub struct Till<D: Disk, C: Clock> {
    pub(crate) pass: Pass<Kept<D, C>>,
    pub(crate) number: TillNumber,
}

/// The tills of a shop that are not out, with room for all that were made.
#[derive(Drop)]
pub struct Tills<D: Disk, C: Clock> {
    pub(crate) passes: Passes<Kept<D, C>>,
    pub(crate) numbers: Vec<TillNumber>,
    pub(crate) made: usize,
    ghost counted: { length (all_known passes) ≡ vec_len numbers },
    ghost within: { vec_len numbers ≤ made },
    ghost room: { (made < room_of passes) × (made ≤ vec_capacity numbers) },
}

/// The seat of the shop's one sender.
#[derive(Drop)]
pub struct SenderSeat<D: Disk, C: Clock> {
    pub(crate) pass: Pass<Kept<D, C>>,
    ghost within: { OwnWithin (sight_by (known pass)) },
}

impl<D: Disk, C: Clock> Till<D, C> {
    ghost use Rattle.till_calls.specs.Shop.{till_number};

    /// The till's number, 1 to `LAST_TILL`.
    pub fn number(&self) -> u8
        ensures number { result ≡ till_number self.now }
        ensures range { IsInRange 1 LAST_TILL result }
    {
        self.number.number
    }
}

impl<D: Disk, C: Clock> Tills<D, C> {
    ghost use Rattle.till_calls.specs.Shop.{made_tills, numbers, till_knows, till_number, till_shop, tills_know, tills_shop};

    /// Takes the last till out. `None` exactly where there is none.
    pub fn pull(&mut self) -> Option<Till<D, C>>
        ensures some { IfSome result (λ till. numbers self.old ≡ numbers self.new ++ till_number till ∷ []) }
        ensures knows { IfSome result (λ till. tills_know self.old ≡ tills_know self.new ++ till_knows till ∷ []) }
        ensures own { IfSome result (λ till. till_shop till ≡ tills_shop self.old) }
        ensures none { IsNone result ↔ (numbers self.old ≡ []) }
        ensures same { IfNone result ((numbers self.new ≡ numbers self.old) × (tills_know self.new ≡ tills_know self.old)) }
        ensures shop { (tills_shop self.new ≡ tills_shop self.old) × (made_tills self.new ≡ made_tills self.old) }
    {
        match self.numbers.pop() {
            Some(number) => match self.passes.pull() {
                Some(pass) => Some(Till { pass, number }),
                None => unreachable!(),
            },
            None => None,
        }
    }

    /// Adds a till of the same shop as the last one. It takes no memory, since the room is there.
    pub fn hand_back(&mut self, till: Till<D, C>)
        requires own { till_shop till ≡ tills_shop self.old }
        requires room { length (numbers self.old) < made_tills self.old }
        ensures numbers { numbers self.new ≡ numbers self.old ++ till_number till ∷ [] }
        ensures knows { tills_know self.new ≡ tills_know self.old ++ till_knows till ∷ [] }
        ensures shop { (tills_shop self.new ≡ tills_shop self.old) × (made_tills self.new ≡ made_tills self.old) }
    {
        let Till { pass, number } = till;
        self.passes.hand_back(pass);
        self.numbers.push_reserved(number);
    }
}

impl<D: Disk, C: Clock> SenderSeat<D, C> {
    ghost use Rattle.chain_lock.specs.Known.{Turns};
    ghost use Rattle.till_calls.specs.Root.{items_in};
    ghost use Rattle.till_calls.specs.Shop.{seat_knows, seat_shop, shop_id};

    // One turn of the seat.
    pub(crate) fn turn<A: Act<Kept<D, C>>, R: Wait>(
        &mut self,
        rt: &R,
        shop: &Shop<D, C>,
        act: &mut A,
    ) -> A::Told
        requires { seat_shop self.old ≡ shop_id shop.now }
        ensures shop { seat_shop self.new ≡ seat_shop self.old }
        ensures turn { Turns (λ home before after. A.relates act.old home before act.new after result) (seat_knows self.old)
            (seat_knows self.new) }
    {
        shop.lock.turn(rt, &mut self.pass, act)
    }
}
