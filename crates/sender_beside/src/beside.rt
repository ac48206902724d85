//! The tills of a shop and their sender, at the same time. `with_sender` only lends: what a thread works on is moved to
//! it and comes back, so the borrowed work goes in as a `Lent`, which calls it and gives the borrow back. `take_back`
//! ties that borrow to the one that was lent; without it nothing is known of what the work left.
ghost use Rattle.std.specs.Prelude.{◌≡◌};
ghost use Rattle.sender.specs.Draining.{scene_of};
ghost use Rattle.sender.specs.Sending.{fresh};
ghost use Rattle.till_calls.specs.Mark.{mark_by, sight_by};
ghost use Rattle.till_calls.specs.Shop.{seat_knows, seat_shop, shop_id};
ghost use Rattle.sender_session.specs.Kinds.{agency_state_of, agency_kind};
ghost use Rattle.sender_session.specs.Session.{IsUndelivered, SendsOn};
ghost use Rattle.sender_session.specs.Sessions.{StepsBeside};
ghost use Rattle.sender_beside.specs.Behind.{scene_in};

use crate::sending::{Sent, send_part};
use agency_port::Agency;
use chain_disk::Disk;
use ports::{Clock, Gate, Sleeper};
use sender_session::Means;
use std::sync::Wait;
use std::sync::atomic::{AtomicBool, Ordering};
use std::thread::{Threads, join};
use till_calls::{SenderSeat, Shop};

// Work for `run_beside`. `join` says nothing of a `&mut` that a closure holds, so its closure holds a value of a type parameter.
trait Work {
    type Output;

    ghost can_run: { Self → Type 0 };

    ghost run_gives: { Self → Self.Output → Type 0 };

    fn run(self) -> Self::Output
        requires { can_run self }
        ensures { run_gives self result };
}

#[derive(Drop)]
struct Lent<'a, F> {
    work: &'a mut F,
}

impl<'a, F: FnMut()> Work for Lent<'a, F> {
    type Output = &'a mut F;

    ghost can_run = { λ l. F.pre l.work.now };

    ghost run_gives = { λ l r. (r.ghost_name ≡ l.work.ghost_name) × F.step l.work.now tt r.now };

    fn run(self) -> &'a mut F {
        let Lent { work } = self;
        work();
        work
    }
}

fn run_beside<D, C, G, Z, T, R, W>(
    means: Means<'_, R, T>,
    shop: &Shop<D, C>,
    seat: SenderSeat<D, C>,
    agency: G,
    sleeper: Z,
    stop: &AtomicBool,
    work: W,
) -> (Sent<D, C, G, Z>, W::Output)
where
    D: Disk + Send,
    C: Clock + Send,
    G: Agency + Send + Drop,
    Z: Sleeper + Send + Drop,
    T: Gate + Sync,
    R: Threads + Wait + Sync,
    W: Work + Drop,
    requires work { W.can_run work }
    requires seat { seat_shop seat ≡ shop_id shop.now }
    ensures work { W.run_gives work result.1 }
    ensures mark { mark_by (seat_shop result.0.seat) (seat_knows result.0.seat) ≡ mark_by (seat_shop seat) (seat_knows seat) }
    ensures sends { SendsOn (agency_kind G.Agency) (sight_by (seat_knows seat)) (sight_by (seat_knows result.0.seat))
        (agency_state_of G.Agency agency) (agency_state_of G.Agency result.0.agency) fresh result.0.sender result.0.answer }
    ensures steps { StepsBeside (agency_kind G.Agency) Z.tells
        (scene_of (agency_state_of G.Agency agency) (sight_by (seat_knows seat)) fresh (Z.moment sleeper))
        (scene_in (agency_state_of G.Agency) Z.moment result.0) result.0.answer }
    ensures never { IsUndelivered result.0.answer → ⊥ }
{
    join(
        means.rt,
        move || -> Sent<D, C, G, Z>
            requires { seat_shop seat ≡ shop_id shop.now }
            ensures { (mark_by (seat_shop result.seat) (seat_knows result.seat) ≡ mark_by (seat_shop seat) (seat_knows seat))
                × SendsOn (agency_kind G.Agency) (sight_by (seat_knows seat)) (sight_by (seat_knows result.seat))
                (agency_state_of G.Agency agency) (agency_state_of G.Agency result.agency) fresh result.sender result.answer
                × StepsBeside (agency_kind G.Agency) Z.tells
                (scene_of (agency_state_of G.Agency agency) (sight_by (seat_knows seat)) fresh (Z.moment sleeper))
                (scene_in (agency_state_of G.Agency) Z.moment result) result.answer
                × (IsUndelivered result.answer → ⊥) }
        { send_part(means, shop, seat, agency, sleeper, stop) },
        move || -> W::Output
            requires { W.can_run work }
            ensures { W.run_gives work result }
        {
            let done = work.run();
            stop.store(true, Ordering::SeqCst);
            done
        },
    )
}

// Does nothing, but this use of a returned reference ties it to the parameter that lent it.
fn take_back<X>(x: &mut X)
    ensures { x.new ≡ x.old }
{}

/// Does the tills' work in this thread, and sends in another until it is done. The sender ends at its next turn once `stop` is set:
/// by the work itself, or after it. Where no thread can be made it runs after the work, and ends at once.
pub fn with_sender<D, C, G, Z, T, R, F>(
    means: Means<'_, R, T>,
    shop: &Shop<D, C>,
    seat: SenderSeat<D, C>,
    agency: G,
    sleeper: Z,
    stop: &AtomicBool,
    work: &mut F,
) -> Sent<D, C, G, Z>
where
    D: Disk + Send,
    C: Clock + Send,
    G: Agency + Send + Drop,
    Z: Sleeper + Send + Drop,
    T: Gate + Sync,
    R: Threads + Wait + Sync,
    F: FnMut(),
    requires work { F.pre work.old }
    requires seat { seat_shop seat ≡ shop_id shop.now }
    //= The tills do their work in this thread, while the sender has another.
    ensures work { F.step work.old tt work.new }
    ensures mark { mark_by (seat_shop result.seat) (seat_knows result.seat) ≡ mark_by (seat_shop seat) (seat_knows seat) }
    //= While the tills work a new sender leaves of shop and agency what turns of one sender leave.
    //= No body: it is of `sender_session/send_until.sends`
    ensures sends { SendsOn (agency_kind G.Agency) (sight_by (seat_knows seat)) (sight_by (seat_knows result.seat))
        (agency_state_of G.Agency agency) (agency_state_of G.Agency result.agency) fresh result.sender result.answer }

    //= Each turn while the tills work is a step, over the records of its own look, at a second of the sleeper.
    ensures steps { StepsBeside (agency_kind G.Agency) Z.tells
        (scene_of (agency_state_of G.Agency agency) (sight_by (seat_knows seat)) fresh (Z.moment sleeper))
        (scene_in (agency_state_of G.Agency) Z.moment result) result.answer }
    //= However often the link fails, the sender doesn't give up while the tills work.
    //= No body: it is of `sender_session/send_until.never`
    ensures never { IsUndelivered result.answer → ⊥ }
{
    let (sent, work) = run_beside(means, shop, seat, agency, sleeper, stop, Lent { work });
    take_back(work);
    sent
}
