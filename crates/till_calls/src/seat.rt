//! The sender's seat as an outbox.
ghost use Rattle.std.specs.Prelude.{◌≡◌};
ghost use Rattle.till_calls.specs.Shop.{seat_shop, shop_id};

use crate::shop::Shop;
use crate::tills::SenderSeat;
use crate::turns::{Looking, Noting};
use chain_disk::Disk;
use journal::StoreFault;
use once_world::Outbox;
use ports::{Clock, NoMemory};
use record_fields::Line;
use shop_core::Waiting;
use std::alloc::Global;
use std::marker::Model;
use std::snapshot::Snapshot;
use std::sync::Wait;

/// What no note changes of a seat, as contracts see it. No value of it is made.
pub struct SeatMark<D: Disk, C: Clock> {
    of: Snapshot<SenderSeat<D, C>>,
}

impl<D: Disk, C: Clock> Model for SeatMark<D, C> {
    ghost use Rattle.till_calls.specs.Mark.{Mark, mark_by};
    ghost use Rattle.till_calls.specs.Shop.{seat_knows, seat_shop};

    ghost Value = { Mark C };

    ghost view = { λ m. mark_by (seat_shop m.of.value) (seat_knows m.of.value) };
}

/// A shop as its sender sees it.
#[derive(Drop)]
pub struct SeatBox<'a, D: Disk, C: Clock> {
    shop: &'a Shop<D, C>,
    seat: SenderSeat<D, C>,
    ghost own: { seat_shop seat ≡ shop_id shop.now },
}

impl<'a, D: Disk, C: Clock> SeatBox<'a, D, C> {
    ghost use Rattle.till_calls.specs.Mark.{mark_by};
    ghost use Rattle.till_calls.specs.Seat.{box_knows, mark_of};
    ghost use Rattle.till_calls.specs.Shop.{seat_knows};

    /// Gives the seat back.
    pub fn into_seat(self) -> SenderSeat<D, C>
        ensures knows { seat_knows result ≡ box_knows self.entry }
        ensures mark { mark_by (seat_shop result) (seat_knows result) ≡ mark_of self.entry }
    {
        let SeatBox { shop: _, seat } = self;
        seat
    }
}

impl<D: Disk, C: Clock> Shop<D, C> {
    ghost use Rattle.till_calls.specs.Mark.{mark_by};
    ghost use Rattle.till_calls.specs.Seat.{box_knows, mark_of};
    ghost use Rattle.till_calls.specs.Shop.{seat_knows};

    /// The seat as an outbox, until `into_seat` gives it back.
    pub fn seat_box(&self, seat: SenderSeat<D, C>) -> SeatBox<'_, D, C>
        requires { seat_shop seat ≡ shop_id self.now }
        ensures knows { box_knows result ≡ seat_knows seat }
        ensures mark { mark_of result ≡ mark_by (seat_shop seat) (seat_knows seat) }
    {
        SeatBox { shop: self, seat }
    }
}

impl<'a, D: Disk, C: Clock> Outbox for SeatBox<'a, D, C> {
    type Fixed = SeatMark<D, C>;

    ghost use Rattle.till_calls.specs.Seat.{least_of, mark_of, sight_of};

    ghost fixed = { mark_of };

    ghost sight = { sight_of };

    ghost least = { least_of };

    fn waiting<R: Wait>(&mut self, rt: &R, alloc: Global, max: u16) -> Result<Waiting, NoMemory> {
        let mut looking = Looking { alloc, max };
        self.seat.turn(rt, self.shop, &mut looking)
    }

    fn note<R: Wait>(&mut self, rt: &R, alloc: Global, lines: &[Line]) -> Result<(), StoreFault> {
        let mut noting = Noting { alloc, lines };
        self.seat.turn(rt, self.shop, &mut noting)
    }
}
