//! Sends an opened file's waiting records until none is left.
ghost use Rattle.std.specs.Prelude.{◌≡◌, IsSome, None};
ghost use Rattle.chain_store.specs.Store.{Ready, clock_of, journal_of, state_of};
ghost use Rattle.journal.specs.Journal.{disk_of, stopped_of};
ghost use Rattle.till_calls.specs.Root.{parts_of};
ghost use Rattle.till_calls.specs.Shop.{shop_root};
ghost use Rattle.till_calls.specs.Sound.{IsSound};
ghost use Rattle.chain_store.specs.Crashes.{StandsUpTo};
ghost use Rattle.sender_session.specs.Kinds.{agency_state_of, agency_kind};
ghost use Rattle.sender_session.specs.Session.{IsDiskAnswer};
ghost use Rattle.shop_drain.specs.Draining.{Sends, StoreDrains, disk_span, spanning};
ghost use Rattle.shop_drain.specs.Outcomes.{outcome_of};
ghost use Rattle.shop_drain.specs.Started.{IsStarted};

use crate::opening::{Begun, Opened, begin};
use agency_port::{Agency, Turns};
use agency_rules::Plan;
use chain_disk::Disk;
use once_world::{agreement_is_kept, what_came_beside_is_records};
use ports::{Clock, CountingClock, Sleeper};
use sender::{DrainFault, Sender, a_session_begins};
use shop_core::legal_is_chained;
use std::alloc::Global;
use std::sync::Wait;
use till_calls::Started;

/// How a drain ended, the lines of its turns, and the file that it leaves, with all that it was given.
#[derive(Drop)]
pub struct DrainEnd<D: Disk, C: Clock, Z, G> {
    pub answer: Result<(), DrainFault>,
    pub turns: Turns,
    pub opened: Opened<D, C, Z, G>,
}

// Drains a shop that has begun without tills, and ends it.
fn drain_begun<D: Disk, C: Clock, Z: Sleeper, G: Agency, R: Wait>(
    rt: &R,
    alloc: Global,
    begun: Begun<D, C, Z, G>,
) -> DrainEnd<D, C, Z, G>
    requires { IsStarted begun.started }
    ensures sound { IsSound D.tells D.on_disk D.faults C.coming (shop_root begun.started.shop) (parts_of result.opened.store) }
    ensures stopped { IsDiskAnswer result.answer → IsSome (parts_of result.opened.store).stopped }
    ensures sends { Sends (spanning (shop_root begun.started.shop).history (agency_kind G.Agency)
        (agency_state_of G.Agency begun.agency) (agency_state_of G.Agency result.opened.agency) Z.tells (Z.moment begun.sleeper)
        (outcome_of result)) }
    ensures no_rest { Z.without_rest begun.sleeper result.opened.sleeper }
{
    agreement_is_kept();
    what_came_beside_is_records();
    a_session_begins();
    let Begun {
        started,
        mut sleeper,
        mut agency,
    } = begun;
    let Started { shop, tills, seat } = started;
    let mut turns = Turns::new(alloc);
    let mut outbox = shop.seat_box(seat);
    let mut sender = Sender::new();
    let answer = sender.drain(
        rt,
        alloc,
        &mut outbox,
        &mut agency,
        &mut sleeper,
        &mut turns,
    );
    let seat = outbox.into_seat();
    DrainEnd {
        answer,
        turns,
        opened: Opened {
            store: shop.close(tills, seat),
            sleeper,
            agency,
        },
    }
}

// Opens the agency's session on an opened file, and drains a shop without tills over it.
fn begin_and_drain<D: Disk, C: Clock, Z: Sleeper, G: Agency, R: Wait>(
    rt: &R,
    alloc: Global,
    plan: &Plan,
    opened: Opened<D, C, Z, G>,
) -> DrainEnd<D, C, Z, G>
    requires going_on { stopped_of (journal_of opened.store) ≡ None }
    requires ready { Ready D.tells D.on_disk opened.store }
    ensures drains { StoreDrains (StandsUpTo (state_of opened.store).version (state_of opened.store).issuer) G.begun plan.now
        (state_of opened.store).version (state_of opened.store).issuer
        (disk_span D.Disk (disk_of (journal_of opened.store)) (disk_of (journal_of result.opened.store)))
        (spanning (state_of opened.store).entries (agency_kind G.Agency) (agency_state_of G.Agency opened.agency)
        (agency_state_of G.Agency result.opened.agency) Z.tells (Z.moment opened.sleeper) (outcome_of result)) }
    ensures no_rest { Z.without_rest opened.sleeper result.opened.sleeper }
{
    legal_is_chained();
    opened.store.state().is_legal();
    match begin(alloc, plan, &[], opened) {
        Ok(begun) => drain_begun(rt, alloc, begun),
        Err(opened) => DrainEnd {
            answer: Err(DrainFault::NoMemory),
            turns: Turns::new(alloc),
            opened,
        },
    }
}

/// Opens the agency's session on an opened file, and sends the records that wait by a new sender over a shop without tills, until
/// none is left. Where memory runs out nothing is sent.
pub fn drain_opened<D: Disk, C: Clock, Z: Sleeper, G: Agency, R: Wait>(
    rt: &R,
    alloc: Global,
    plan: &Plan,
    opened: Opened<D, C, Z, G>,
) -> DrainEnd<D, C, Z, G>
    requires going_on { stopped_of (journal_of opened.store) ≡ None }
    requires ready { Ready D.tells D.on_disk opened.store }
    //= A drain leaves of an opened file, of its disk and of the agency what its definition says: notes alone come,
    //= by the turns of one new sender.
    ensures drains { StoreDrains (StandsUpTo (state_of opened.store).version (state_of opened.store).issuer) G.begun plan.now
        (state_of opened.store).version (state_of opened.store).issuer
        (disk_span D.Disk (disk_of (journal_of opened.store)) (disk_of (journal_of result.opened.store)))
        (spanning (state_of opened.store).entries (agency_kind G.Agency) (agency_state_of G.Agency opened.agency)
        (agency_state_of G.Agency result.opened.agency) Z.tells (Z.moment opened.sleeper) (outcome_of result)) }

    //= A drain doesn't read the clock.
    ensures clock { clock_of result.opened.store ≡ clock_of opened.store }
    //= The sleeper rests in no drain.
    //= No body: it is of `sender/Sender::drain.no_rest`
    ensures no_rest { Z.without_rest opened.sleeper result.opened.sleeper }
{
    // A drain needs none: another stands in its place meanwhile.
    let (opened, clock) = opened.with_clock(CountingClock::new(0, 0));
    let DrainEnd {
        answer,
        turns,
        opened,
    } = begin_and_drain(rt, alloc, plan, opened);
    let (opened, _) = opened.with_clock(clock);
    DrainEnd {
        answer,
        turns,
        opened,
    }
}
