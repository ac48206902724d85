//! The day of a shop: its tills, and a sender at the same time.
ghost use Rattle.std.specs.Prelude.{◌≡◌, ◌≢◌, ◌≤◌, [], true, map, reverse, All, AllPairs, vec_capacity, vec_len};
ghost use Rattle.till_calls.specs.Root.{parts_of};
ghost use Rattle.till_calls.specs.Shop.{made_tills, numbers, seat_knows, seat_shop, shop_id, shop_root, till_shop};
ghost use Rattle.till_calls.specs.Mark.{mark_by, sight_by};
ghost use Rattle.sender.specs.Draining.{scene_of};
ghost use Rattle.sender.specs.Sending.{fresh};
ghost use Rattle.sender_session.specs.Session.{IsUndelivered, SendsOn};
ghost use Rattle.sender_session.specs.Sessions.{SessionSteps, StepsBeside};
ghost use Rattle.sender_beside.specs.Days.{shop_day};
ghost use Rattle.sender_session.specs.Kinds.{agency_state_of, agency_kind, store_kind};
ghost use Rattle.shop_drain.specs.Started.{IsStarted};
ghost use Rattle.sender_beside.specs.Tills.{DayRun};
ghost use Rattle.shop_day.specs.TillJobs.{HasRoom, day_of, job_knows, tills_in, told_in};
ghost use Rattle.sender_beside.specs.Behind.{SendsBehind, scene_in};
ghost use Rattle.sender_beside.specs.Works.{Ran};

use crate::tills::{TillDay, TillJob, TillRoom, hand_in, hand_out, work_all};
use agency_port::Agency;
use chain_disk::Disk;
use chain_lock::who_sees_all_that_is_owned_sees_all;
use once_world::{agreement_is_kept, what_came_beside_is_records};
use ports::{Clock, Gate, Sleeper};
use sender::{DrainFault, a_session_begins};
use sender_beside::{Sent, drain_rest, with_sender};
use sender_session::Means;
use shop_core::Ask;
use shop_drain::{Begun, Opened};
use std::snapshot::Snapshot;
use std::sync::Wait;
use std::sync::atomic::AtomicBool;
use std::thread::Threads;
use till_calls::{
    Kept, SenderSeat, Shop, Started, a_run_is_told_at_the_end, a_till_adds_for_no_other,
    a_till_adds_what_is_taken, a_till_owns_records_and_stops, a_till_owns_within_what_it_knows,
};

/// A day that is done: the file that it leaves, with all that it was given, and what its tills and its sender were told.
#[derive(Drop)]
pub struct DayDone<D: Disk, C: Clock, Z: Sleeper + Drop, G: Agency + Drop> {
    pub opened: Opened<D, C, Z, G>,
    pub tills: Vec<TillDay>,
    /// How the sending ended. Ok: no record waits.
    pub answer: Result<(), DrainFault>,
    /// The sender and all that it had at the tills' end, and at the end of the day, as contracts see them.
    pub met: Snapshot<Sent<D, C, G, Z>>,
    pub left: Snapshot<Sent<D, C, G, Z>>,
}

// Runs the tills and a sender at the same time.
fn tills_beside<D, C, Z, G, T, R>(
    means: Means<'_, R, T>,
    shop: &Shop<D, C>,
    asks: &[Ask],
    jobs: &mut Vec<TillJob<D, C>>,
    seat: SenderSeat<D, C>,
    agency: G,
    sleeper: Z,
) -> Sent<D, C, G, Z>
where
    D: Disk + Send,
    C: Clock + Send,
    Z: Sleeper + Send + Drop,
    G: Agency + Send + Drop,
    T: Gate + Sync,
    R: Threads + Wait + Sync,
    requires own { All (λ j. till_shop j.till ≡ shop_id shop.now) jobs.old.items }
    requires room { All (λ j. HasRoom asks.now (day_of j)) jobs.old.items }
    requires seat { seat_shop seat ≡ shop_id shop.now }
    ensures ran { Ran C.coming asks.now (tills_in (reverse (map day_of jobs.old.items)))
        (reverse (map job_knows jobs.old.items)) (map told_in (reverse (map day_of jobs.new.items)))
        (reverse (map job_knows jobs.new.items)) }
    ensures own { All (λ j. till_shop j.till ≡ shop_id shop.now) jobs.new.items }
    ensures len { vec_len jobs.new ≡ vec_len jobs.old }
    ensures mark { mark_by (seat_shop result.seat) (seat_knows result.seat) ≡ mark_by (seat_shop seat) (seat_knows seat) }
    ensures sends { SendsOn (agency_kind G.Agency) (sight_by (seat_knows seat)) (sight_by (seat_knows result.seat))
        (agency_state_of G.Agency agency) (agency_state_of G.Agency result.agency) fresh result.sender result.answer }
    ensures steps { StepsBeside (agency_kind G.Agency) Z.tells
        (scene_of (agency_state_of G.Agency agency) (sight_by (seat_knows seat)) fresh (Z.moment sleeper))
        (scene_in (agency_state_of G.Agency) Z.moment result) result.answer }
    ensures never { IsUndelivered result.answer → ⊥ }
{
    let stop = AtomicBool::new(false);
    with_sender(
        means,
        shop,
        seat,
        agency,
        sleeper,
        &stop,
        &mut move ||
            requires { All (λ j. till_shop j.till ≡ shop_id shop.now) jobs.now.items
                × All (λ j. HasRoom asks.now (day_of j)) jobs.now.items }
            ensures { Ran C.coming asks.entry.now (tills_in (reverse (map day_of jobs.entry.now.items)))
                (reverse (map job_knows jobs.entry.now.items)) (map told_in (reverse (map day_of jobs.exit.now.items)))
                (reverse (map job_knows jobs.exit.now.items))
                × All (λ j. till_shop j.till ≡ shop_id shop.entry.now) jobs.exit.now.items
                × (vec_len jobs.exit.now ≡ vec_len jobs.entry.now) }
        { work_all(means, shop, asks, jobs) },
    )
}

/// The day of a shop that has just begun: its tills ask at the same time, each for its own asks in order and in a thread of its
/// own, and then each looks at the count. Meanwhile a sender sends what waits to an agency whose session is open, and once they
/// have ended it drains.
pub fn run_day<
    D: Disk + Send + Drop,
    C: Clock + Send + Drop,
    Z: Sleeper + Send + Drop,
    G: Agency + Send + Drop,
    T: Gate + Sync,
    R: Threads + Wait + Sync,
>(
    means: Means<'_, R, T>,
    asks: &[Ask],
    room: TillRoom<D, C>,
    begun: Begun<D, C, Z, G>,
) -> DayDone<D, C, Z, G>
    requires numbers { numbers begun.started.tills ≡ map (λ d. d.till) room.days.items }
    requires made { vec_len room.days ≤ made_tills begun.started.tills }
    requires distinct { AllPairs (λ a b. a.till ≢ b.till) room.days.items }
    requires room { All (HasRoom asks.now) room.days.items }
    requires jobs { (room.jobs.items ≡ []) × (vec_len room.days ≤ vec_capacity room.jobs) }
    requires begun { IsStarted begun.started }
    //= A day leaves a history that goes on: each till ran its own asks in order, no other till gained a record, a
    //= stop is over one entry of a till or of the sender, and where the drain is done each record has its line.
    ensures day { DayRun (store_kind D.Disk C.Clock) (shop_root begun.started.shop) (parts_of result.opened.store)
        (shop_day C.coming asks.now (shop_root begun.started.shop) (parts_of result.opened.store) (map told_in result.tills.items)
        (agency_kind G.Agency) (agency_state_of G.Agency begun.agency) (agency_state_of G.Agency result.opened.agency) true
        result.answer) }
    //= A day tells of each till that was given, and of no other.
    //= No body: a till's answers are handed back in the room that it was given
    ensures same { map (λ t. t.till) result.tills.items ≡ map (λ t. t.till) room.days.items }

    //= The turns beside a day's tills led to the scene at their end, and one drain from there to the day's end,
    //= unless a fault had ended them.
    ensures behind { SendsBehind (agency_kind G.Agency) Z.tells true (agency_state_of G.Agency begun.agency)
        (agency_state_of G.Agency result.opened.agency) (scene_in (agency_state_of G.Agency) Z.moment result.met.value)
        (scene_in (agency_state_of G.Agency) Z.moment result.left.value) result.met.value.answer result.answer }

    //= A day's whole session is a list of steps from a new sender, each over the records of its own look, from the
    //= sleeper's moment at the start.
    ensures steps { SessionSteps G.tells Z.tells true (Z.moment begun.sleeper) (shop_root begun.started.shop).history
        (parts_of result.opened.store).state.entries (agency_state_of G.Agency begun.agency)
        (agency_state_of G.Agency result.opened.agency) result.answer }
{
    agreement_is_kept();
    what_came_beside_is_records();
    a_session_begins();
    a_run_is_told_at_the_end::<C>();
    a_till_adds_what_is_taken::<C>();
    a_till_adds_for_no_other::<C>();
    a_till_owns_records_and_stops::<C>();
    a_till_owns_within_what_it_knows::<C>();
    who_sees_all_that_is_owned_sees_all::<Kept<D, C>>();
    let TillRoom {
        mut days,
        numbers: _,
        mut jobs,
    } = room;
    let Begun {
        started,
        sleeper,
        agency,
    } = begun;
    let Started {
        shop,
        mut tills,
        seat,
    } = started;
    hand_out(&mut tills, &mut days, &mut jobs);
    let mut sent = tills_beside(means, &shop, asks, &mut jobs, seat, agency, sleeper);
    hand_in(&shop, &mut tills, jobs, &mut days, &mut sent.seat);
    let met = Snapshot::of(&sent);
    let rest = drain_rest(means, &shop, sent);
    let left = Snapshot::of(&rest);
    let Sent {
        seat,
        sender: _,
        agency,
        sleeper,
        answer,
    } = rest;
    DayDone {
        opened: Opened {
            store: shop.close(tills, seat),
            sleeper,
            agency,
        },
        tills: days,
        answer,
        met,
        left,
    }
}
