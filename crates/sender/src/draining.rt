//! Turns until no record waits.
ghost use Rattle.std.specs.Prelude.{◌≡◌, ◌<◌, ◌≤◌, ◌++◌, length, OnOk, OnErr};
ghost use Rattle.sender.specs.Agreeing.{Adds, AreNotesOrTorn};
ghost use Rattle.sender.specs.DrainCalls.{this_drain, DrainsByTurns, AgreesThroughout, NeverRepeatsBlindly, TellsItsMessages};
ghost use Rattle.sender.specs.DrainCalls.{DeliversOrGivesUp};
ghost use Rattle.sender.specs.declared.draining.TheConstants.{MAX_LINK_FAULTS};
ghost use Rattle.sender.specs.Turning.{agency_kind_of, agency_state_from};
ghost use Rattle.sender.specs.Draining.{told_in, told_list, moment_after, scene_of, LinksAfter, Made};

use crate::laws::what_is_known;
use crate::{DrainFault, SendFault, Sender, Turn};
use agency_port::{Agency, Told, Turns, the_last_named_reply_is_kept};
use journal::StoreFault;
use once_world::Outbox;
use ports::{NoMemory, Sleeper};
use shop_core::legal_is_chained;
use std::alloc::Global;
use std::sync::Wait;

/// This many turns with a link fault end a drain.
pub const MAX_LINK_FAULTS: u32 = 8;

// What a turn answered, and the counts at its look.
#[derive(Drop)]
pub(crate) struct Counted {
    pub(crate) noted: u32,
    pub(crate) records: u32,
    pub(crate) answer: Result<Turn, SendFault>,
}

// What is told of a turn.
fn told_of(answer: &Result<Turn, SendFault>) -> Option<Told>
    ensures { result ≡ told_in answer.now }
{
    match answer {
        Ok(Turn::Idle { .. }) => None,
        Ok(Turn::WaitUntil(at)) => Some(Told::Wait(*at)),
        Ok(Turn::Noted { n }) => Some(Told::Noted(*n)),
        Ok(Turn::Cleared) => Some(Told::Cleared),
        Ok(Turn::Doubt { place }) => Some(Told::Doubt(*place)),
        Err(SendFault::LinkFault) => Some(Told::Link),
        Err(SendFault::Contradiction(_)) => Some(Told::Contradiction),
        Err(SendFault::Store(StoreFault::DiskFault)) => Some(Told::Disk),
        Err(SendFault::Store(StoreFault::Stopped { faults })) => Some(Told::Stopped(*faults)),
        Err(SendFault::Store(StoreFault::NoMemory)) => Some(Told::Memory),
        Err(SendFault::NoMemory) => Some(Told::Memory),
    }
}

// Whether there is nothing more to do after this turn, with this many link faults before it.
fn ends_with(made: &Counted, links: &mut u32) -> Result<bool, DrainFault>
    requires { links.old < MAX_LINK_FAULTS }
    ensures { LinksAfter made.now links.old links.new result }
{
    match made.answer {
        Ok(Turn::Idle { .. }) => Ok(true),
        Ok(_) => Ok(false),
        Err(SendFault::LinkFault) => {
            *links += 1;
            if *links == MAX_LINK_FAULTS {
                return Err(DrainFault::Undelivered {
                    noted: made.noted,
                    records: made.records,
                });
            }
            Ok(false)
        }
        Err(SendFault::Contradiction(evidence)) => Err(DrainFault::Contradiction(evidence)),
        Err(SendFault::Store(fault)) => Err(DrainFault::Store(fault)),
        Err(SendFault::NoMemory) => Err(DrainFault::NoMemory),
    }
}

// Tells a turn. Without memory it isn't told.
fn tell(turns: &mut Turns, answer: &Result<Turn, SendFault>) -> Result<(), NoMemory>
    ensures ok { OnOk result (turns.new ≡ turns.old ++ told_list answer.now) }
    ensures err { OnErr result (turns.new ≡ turns.old) }
{
    if let Some(told) = told_of(answer) {
        turns.push(told)?;
    }
    Ok(())
}

// At `WaitUntil` it sleeps.
fn pause<R: Wait, Z: Sleeper>(rt: &R, sleeper: &mut Z, answer: &Result<Turn, SendFault>)
    ensures moment { Z.moment sleeper.new ≡ moment_after (Z.moment sleeper.old) answer.now }
    ensures no_rest { Z.without_rest sleeper.old sleeper.new }
{
    if let Ok(Turn::WaitUntil(at)) = answer {
        sleeper.wait_until(rt, *at);
    }
}

impl Sender {
    // One turn of a drain: whether it was the last.
    fn drain_turn<R: Wait, O: Outbox, G: Agency, Z: Sleeper>(
        &mut self,
        rt: &R,
        alloc: Global,
        outbox: &mut O,
        agency: &mut G,
        sleeper: &mut Z,
        turns: &mut Turns,
        links: &mut u32,
    ) -> Result<bool, DrainFault>
        requires { links.old < MAX_LINK_FAULTS }
        ensures made { Made (agency_kind_of G.tells G.keeps_rules) Z.tells
            (scene_of (agency_state_from G.ledger G.faults agency.old) (O.sight outbox.old) self.old (Z.moment sleeper.old))
            (scene_of (agency_state_from G.ledger G.faults agency.new) (O.sight outbox.new) self.new (Z.moment sleeper.new))
            turns.old turns.new links.old links.new result }
        ensures fixed { O.fixed outbox.new ≡ O.fixed outbox.old }
        ensures covers { O.least outbox.old ≤ length (O.sight outbox.new).items }
        ensures no_rest { Z.without_rest sleeper.old sleeper.new }
    {
        let now = sleeper.now();
        let made = self.counted_turn(rt, alloc, outbox, agency, now);
        pause(rt, sleeper, &made.answer);
        if tell(turns, &made.answer).is_err() {
            return Err(DrainFault::NoMemory);
        }
        ends_with(&made, links)
    }

    /// Makes turns until one finds that no record waits: then all records are noted. At `WaitUntil` it sleeps, and a link
    /// fault is passed over, up to the eighth (`Undelivered`). Each turn is told, but for the last; without memory for it a
    /// turn isn't told, and the drain ends.
    pub fn drain<R: Wait, O: Outbox, G: Agency, Z: Sleeper>(
        &mut self,
        rt: &R,
        alloc: Global,
        outbox: &mut O,
        agency: &mut G,
        sleeper: &mut Z,
        turns: &mut Turns,
    ) -> Result<(), DrainFault>
        // Its turns, the lines that are told of them, and how the last one ends it.
        //= A drain is a list of turns, each at a second of the sleeper.
        ensures drained { DrainsByTurns (this_drain G.Agency Z.Sleeper agency.old agency.new (O.sight outbox.old)
            (O.sight outbox.new) self.old self.new sleeper.old sleeper.new turns.old turns.new result) }
        // With an agency that keeps its rules, in whose session the earlier turns were, agreement stays.
        ensures agreement { AgreesThroughout (this_drain G.Agency Z.Sleeper agency.old agency.new (O.sight outbox.old)
            (O.sight outbox.new) self.old self.new sleeper.old sleeper.new turns.old turns.new result) }
        // No record is handed over again unless a consultation since has answered that it didn't come.
        ensures no_blind_repeat { NeverRepeatsBlindly (this_drain G.Agency Z.Sleeper agency.old agency.new (O.sight outbox.old)
            (O.sight outbox.new) self.old self.new sleeper.old sleeper.new turns.old turns.new result) }
        // What is told are the lines of its messages to the agency, in order.
        ensures messages { TellsItsMessages (this_drain G.Agency Z.Sleeper agency.old agency.new (O.sight outbox.old)
            (O.sight outbox.new) self.old self.new sleeper.old sleeper.new turns.old turns.new result) }
        // At Ok all is noted; it gives up after eight faults of the agency; its turns are bounded.
        ensures ends { DeliversOrGivesUp (this_drain G.Agency Z.Sleeper agency.old agency.new (O.sight outbox.old)
            (O.sight outbox.new) self.old self.new sleeper.old sleeper.new turns.old turns.new result) }
        // Its own notes added notes, or the stop over them.
        ensures adds { Adds AreNotesOrTorn (O.sight outbox.old) (O.sight outbox.new) }
        ensures fixed { O.fixed outbox.new ≡ O.fixed outbox.old }
        // The last look shows as many items as the outbox knew of at first.
        //= A drain that is done has seen at least as many items as its outbox knew of.
        //= No body: it is each look's clause
        ensures covers { OnOk result (O.least outbox.old ≤ length (O.sight outbox.new).items) }
        // The sleeper rests at no turn.
        //= A drain sleeps until a second, and never rests.
        ensures no_rest { Z.without_rest sleeper.old sleeper.new }
    {
        legal_is_chained();
        what_is_known();
        the_last_named_reply_is_kept();
        self.drain_on(rt, alloc, outbox, agency, sleeper, turns)
    }

    // The turns of a drain.
    fn drain_on<R: Wait, O: Outbox, G: Agency, Z: Sleeper>(
        &mut self,
        rt: &R,
        alloc: Global,
        outbox: &mut O,
        agency: &mut G,
        sleeper: &mut Z,
        turns: &mut Turns,
    ) -> Result<(), DrainFault>
        ensures drained { DrainsByTurns (this_drain G.Agency Z.Sleeper agency.old agency.new (O.sight outbox.old)
            (O.sight outbox.new) self.old self.new sleeper.old sleeper.new turns.old turns.new result) }
        ensures fixed { O.fixed outbox.new ≡ O.fixed outbox.old }
        ensures covers { OnOk result (O.least outbox.old ≤ length (O.sight outbox.new).items) }
        ensures no_rest { Z.without_rest sleeper.old sleeper.new }
    {
        let mut links = 0;
        for _ in rt.forever() {
            if self.drain_turn(rt, alloc, outbox, agency, sleeper, turns, &mut links)? {
                return Ok(());
            }
        }
        unreachable!()
    }
}
