//! Sends an opened file's waiting records until none is left, and notes each line in a copy too.
ghost use Rattle.std.specs.Prelude.{◌≡◌, IsSome, IsTrue, None};
ghost use Rattle.chain_store.specs.Crashes.{StandsUpTo};
ghost use Rattle.chain_store.specs.Store.{Ready, clock_of, journal_of, state_of};
ghost use Rattle.journal.specs.Journal.{disk_of, stopped_of};
ghost use Rattle.standby.specs.Chains.{chain_of};
ghost use Rattle.standby.specs.Pairs.{IsPair, both_of, stop_of};
ghost use Rattle.sender_session.specs.Kinds.{agency_state_of, agency_kind};
ghost use Rattle.sender_session.specs.Session.{IsDiskAnswer};
ghost use Rattle.shop_drain.specs.Draining.{Sends, disk_span, spanning};
ghost use Rattle.shop_drain.specs.Guarding.{GuardDrains, MissesTorn, held_by};
ghost use Rattle.shop_drain.specs.Outcomes.{guard_outcome};

use crate::opening::{Opened, begin_session};
use agency_port::{Agency, Turns};
use agency_rules::Plan;
use chain_disk::Disk;
use once_world::what_came_beside_is_records;
use ports::{Clock, Sleeper};
use sender::{DrainFault, Sender, a_session_begins};
use shop_core::legal_is_chained;
use standby::{Pair, Standby};
use std::alloc::Global;
use std::sync::Wait;

/// How a drain over a file and its copy ended, the lines of its turns, and both, with all that it was given.
#[derive(Drop)]
pub struct GuardEnd<D: Disk, C: Clock, M: Disk, Z, G> {
    pub answer: Result<(), DrainFault>,
    pub turns: Turns,
    pub opened: Opened<D, C, Z, G>,
    pub standby: Standby<M>,
}

// Drains a store and a standby with the same history, by a new sender.
fn drain_pair<D: Disk, C: Clock, M: Disk, Z: Sleeper, G: Agency, R: Wait>(
    rt: &R,
    alloc: Global,
    opened: Opened<D, C, Z, G>,
    standby: Standby<M>,
) -> GuardEnd<D, C, M, Z, G>
    requires ready { Ready D.tells D.on_disk opened.store }
    requires going_on { (stopped_of (journal_of opened.store) ≡ None) × (standby.stopped ≡ None) }
    requires issuer { standby.history.issuer ≡ (state_of opened.store).issuer }
    requires version { standby.history.version ≡ (state_of opened.store).version }
    requires entries { standby.history.entries ≡ (state_of opened.store).entries }
    ensures pair { IsPair D.tells D.on_disk D.faults M.tells M.on_disk M.faults (both_of opened.store standby)
        (both_of result.opened.store result.standby) }
    ensures stopped { IsDiskAnswer result.answer → IsSome (stop_of (both_of result.opened.store result.standby)) }
    ensures sends { Sends (spanning standby.history.entries (agency_kind G.Agency) (agency_state_of G.Agency opened.agency)
        (agency_state_of G.Agency result.opened.agency) Z.tells (Z.moment opened.sleeper) (guard_outcome result)) }
    ensures missed { IsTrue G.tells → MissesTorn (spanning standby.history.entries (agency_kind G.Agency)
        (agency_state_of G.Agency opened.agency) (agency_state_of G.Agency result.opened.agency) Z.tells (Z.moment opened.sleeper)
        (guard_outcome result)) }
    ensures no_rest { Z.without_rest opened.sleeper result.opened.sleeper }
{
    what_came_beside_is_records();
    a_session_begins();
    standby.is_sound();
    let Opened {
        store,
        mut sleeper,
        mut agency,
    } = opened;
    let mut turns = Turns::new(alloc);
    let mut pair = Pair::of(store, standby);
    let mut sender = Sender::new();
    let answer = sender.drain(rt, alloc, &mut pair, &mut agency, &mut sleeper, &mut turns);
    let (store, standby) = pair.into_parts();
    GuardEnd {
        answer,
        turns,
        opened: Opened {
            store,
            sleeper,
            agency,
        },
        standby,
    }
}

/// Opens the agency's session on an opened file whose copy has the same history, and sends the records that wait by a new sender,
/// until none is left. Each line is noted in the file and then in the copy. Where memory runs out nothing is sent.
pub fn guard_opened<D: Disk, C: Clock, M: Disk, Z: Sleeper, G: Agency, R: Wait>(
    rt: &R,
    alloc: Global,
    plan: &Plan,
    opened: Opened<D, C, Z, G>,
    standby: Standby<M>,
) -> GuardEnd<D, C, M, Z, G>
    requires ready { Ready D.tells D.on_disk opened.store }
    requires going_on { (stopped_of (journal_of opened.store) ≡ None) × (standby.stopped ≡ None) }
    requires issuer { standby.history.issuer ≡ (state_of opened.store).issuer }
    requires version { standby.history.version ≡ (state_of opened.store).version }
    requires entries { standby.history.entries ≡ (state_of opened.store).entries }
    //= Of a file and a copy with the same history a drain leaves what the definition says of both.
    //= No body: it is of `standby/Pair::note.both`
    ensures drains { GuardDrains (StandsUpTo (state_of opened.store).version (state_of opened.store).issuer)
        (StandsUpTo (state_of opened.store).version (state_of opened.store).issuer) G.begun plan.now
        (state_of opened.store).version (state_of opened.store).issuer
        (disk_span D.Disk (disk_of (journal_of opened.store)) (disk_of (journal_of result.opened.store)))
        (disk_span M.Disk standby.disk result.standby.disk)
        (spanning (state_of opened.store).entries (agency_kind G.Agency) (agency_state_of G.Agency opened.agency)
        (agency_state_of G.Agency result.opened.agency) Z.tells (Z.moment opened.sleeper) (guard_outcome result))
        (held_by (chain_of result.opened.store)) (held_by result.standby) }

    //= A drain over a file and its copy doesn't read the clock.
    //= No body: it is of `Pair`, which reads none
    ensures clock { clock_of result.opened.store ≡ clock_of opened.store }
    ensures no_rest { Z.without_rest opened.sleeper result.opened.sleeper }
{
    legal_is_chained();
    opened.store.state().is_legal();
    standby.is_sound();
    let Opened {
        store,
        sleeper,
        mut agency,
    } = opened;
    match begin_session(alloc, plan, store.state(), &mut agency) {
        Ok(()) => {
            let opened = Opened {
                store,
                sleeper,
                agency,
            };
            drain_pair(rt, alloc, opened, standby)
        }
        Err(_) => GuardEnd {
            answer: Err(DrainFault::NoMemory),
            turns: Turns::new(alloc),
            opened: Opened {
                store,
                sleeper,
                agency,
            },
            standby,
        },
    }
}
