//! A day's sender: its turns at the same time as the tills, and its drain after them.
ghost use Rattle.std.specs.Prelude.{◌≡◌, ◌≤◌, true, false, length, OnErr, OnOk};
ghost use Rattle.once_world.specs.Outbox.{Sight, history_of};
ghost use Rattle.shop_core.specs.History.{noted, recs};
ghost use Rattle.sender.specs.Sending.{Sending, fresh};
ghost use Rattle.sender.specs.Turning.{AgencyState};
ghost use Rattle.till_calls.specs.Mark.{mark_by, sight_by};
ghost use Rattle.till_calls.specs.Shop.{seat_knows, seat_shop, shop_id};
ghost use Rattle.sender_session.specs.Kinds.{agency_state_of, agency_kind};
ghost use Rattle.sender_session.specs.Session.{DrainsTo, IsUndelivered, SendsOn};
ghost use Rattle.sender.specs.Draining.{scene_of};
ghost use Rattle.sender_session.specs.Sessions.{StepsBeside};
ghost use Rattle.sender_beside.specs.Behind.{scene_in};

use agency_port::{Agency, Turns};
use chain_disk::Disk;
use once_world::what_came_beside_is_records;
use ports::{Clock, Gate, Sleeper};
use sender::{DrainFault, Sender};
use sender_session::{Means, send_until};
use std::sync::Wait;
use std::sync::atomic::AtomicBool;
use till_calls::{SenderSeat, Shop};

/// A day's sender once it has ended: its seat, all that it took along, and how it ended. Ok of its turns says that it was told to
/// stop, and Ok of its drain that no record waits.
#[derive(Drop)]
pub struct Sent<D: Disk, C: Clock, G: Agency + Drop, Z: Sleeper + Drop> {
    pub seat: SenderSeat<D, C>,
    pub sender: Sender,
    pub agency: G,
    pub sleeper: Z,
    pub answer: Result<(), DrainFault>,
}

/// Sends from this seat by a new sender until it is told to stop.
pub(crate) fn send_part<D: Disk, C: Clock, G: Agency + Drop, Z: Sleeper + Drop, T: Gate, R: Wait>(
    means: Means<'_, R, T>,
    shop: &Shop<D, C>,
    seat: SenderSeat<D, C>,
    mut agency: G,
    mut sleeper: Z,
    stop: &AtomicBool,
) -> Sent<D, C, G, Z>
    requires own { seat_shop seat ≡ shop_id shop.now }
    ensures mark { mark_by (seat_shop result.seat) (seat_knows result.seat) ≡ mark_by (seat_shop seat) (seat_knows seat) }
    ensures sends { SendsOn (agency_kind G.Agency) (sight_by (seat_knows seat)) (sight_by (seat_knows result.seat))
        (agency_state_of G.Agency agency) (agency_state_of G.Agency result.agency) fresh result.sender result.answer }
    ensures steps { StepsBeside (agency_kind G.Agency) Z.tells
        (scene_of (agency_state_of G.Agency agency) (sight_by (seat_knows seat)) fresh (Z.moment sleeper))
        (scene_in (agency_state_of G.Agency) Z.moment result) result.answer }
    ensures never { IsUndelivered result.answer → ⊥ }
{
    let mut outbox = shop.seat_box(seat);
    let mut sender = Sender::new();
    let answer = send_until(
        means,
        &mut outbox,
        &mut sender,
        &mut agency,
        &mut sleeper,
        stop,
    );
    Sent {
        seat: outbox.into_seat(),
        sender,
        agency,
        sleeper,
        answer,
    }
}

/// Drains with the same sender, unless a fault ended its turns. It answers `Undelivered` exactly at the eighth turn of this drain
/// that is answered with a fault of the link.
pub fn drain_rest<D: Disk, C: Clock, G: Agency + Drop, Z: Sleeper + Drop, T, R: Wait>(
    means: Means<'_, R, T>,
    shop: &Shop<D, C>,
    sent: Sent<D, C, G, Z>,
) -> Sent<D, C, G, Z>
    requires own { seat_shop sent.seat ≡ shop_id shop.now }
    ensures mark { mark_by (seat_shop result.seat) (seat_knows result.seat)
        ≡ mark_by (seat_shop sent.seat) (seat_knows sent.seat) }
    //= What the drain after the tills leaves joins what the same sender left before.
    ensures sends { (before : Sight) (old : AgencyState) (sending : Sending) →
        SendsOn (agency_kind G.Agency) before (sight_by (seat_knows sent.seat)) old (agency_state_of G.Agency sent.agency) sending
        sent.sender sent.answer →
        SendsOn (agency_kind G.Agency) before (sight_by (seat_knows result.seat)) old (agency_state_of G.Agency result.agency)
        sending result.sender result.answer }
    //= The drain after the tills gives up exactly at its eighth turn that is answered with a fault of the link;
    //= those met while the tills ran don't count.
    ensures turns { OnOk sent.answer (DrainsTo (agency_kind G.Agency) Z.tells
        (scene_in (agency_state_of G.Agency) Z.moment sent) (scene_in (agency_state_of G.Agency) Z.moment result) result.answer) }
    //= Where a fault had ended the sender while the tills ran, it does nothing after them.
    ensures failed { OnErr sent.answer (result ≡ sent) }
    //= A drain that is done has seen all that the sender's seat was told of.
    ensures covers { OnOk result.answer ((seat_knows sent.seat).least ≤ length (seat_knows result.seat).seen) }
    //= A drain that is done has noted a line for each record that it has seen.
    ensures delivered { OnOk result.answer (length (noted (history_of (sight_by (seat_knows result.seat))))
        ≡ length (recs (history_of (sight_by (seat_knows result.seat))))) }
    ensures no_rest { Z.without_rest sent.sleeper result.sleeper }
{
    what_came_beside_is_records();
    if sent.answer.is_err() {
        return sent;
    }
    let Sent {
        seat,
        mut sender,
        mut agency,
        mut sleeper,
        answer: _,
    } = sent;
    let mut turns = Turns::new(means.alloc);
    let mut outbox = shop.seat_box(seat);
    let answer = sender.drain(
        means.rt,
        means.alloc,
        &mut outbox,
        &mut agency,
        &mut sleeper,
        &mut turns,
    );
    Sent {
        seat: outbox.into_seat(),
        sender,
        agency,
        sleeper,
        answer,
    }
}

/// Drains with the same sender (`drain_rest`), or does nothing more.
pub fn drain_if<D: Disk, C: Clock, G: Agency + Drop, Z: Sleeper + Drop, T, R: Wait>(
    drains: bool,
    means: Means<'_, R, T>,
    shop: &Shop<D, C>,
    sent: Sent<D, C, G, Z>,
) -> Sent<D, C, G, Z>
    requires own { seat_shop sent.seat ≡ shop_id shop.now }
    ensures mark { mark_by (seat_shop result.seat) (seat_knows result.seat)
        ≡ mark_by (seat_shop sent.seat) (seat_knows sent.seat) }
    ensures sends { (before : Sight) (old : AgencyState) (sending : Sending) →
        SendsOn (agency_kind G.Agency) before (sight_by (seat_knows sent.seat)) old (agency_state_of G.Agency sent.agency) sending
        sent.sender sent.answer →
        SendsOn (agency_kind G.Agency) before (sight_by (seat_knows result.seat)) old (agency_state_of G.Agency result.agency)
        sending result.sender result.answer }
    ensures turns { drains ≡ true → OnOk sent.answer (DrainsTo (agency_kind G.Agency) Z.tells
        (scene_in (agency_state_of G.Agency) Z.moment sent) (scene_in (agency_state_of G.Agency) Z.moment result) result.answer) }
    ensures failed { OnErr sent.answer (result ≡ sent) }
    //= Where no drain is to follow the tills, nothing more is done.
    ensures ends { drains ≡ false → result ≡ sent }
    ensures covers { drains ≡ true → OnOk result.answer ((seat_knows sent.seat).least ≤ length (seat_knows result.seat).seen) }
    ensures delivered { drains ≡ true → OnOk result.answer (length (noted (history_of (sight_by (seat_knows result.seat))))
        ≡ length (recs (history_of (sight_by (seat_knows result.seat))))) }
{
    if drains {
        return drain_rest(means, shop, sent);
    }
    sent
}
