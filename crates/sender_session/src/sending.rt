//! The turns of a sender, one after another, until it is told to stop.
ghost use Rattle.std.specs.Prelude.{◌≡◌, ◌⊎◌, max};
ghost use Rattle.sender.specs.Draining.{scene_of};
ghost use Rattle.sender_session.specs.Kinds.{agency_state_of, agency_kind};
ghost use Rattle.sender_session.specs.Sessions.{RestsTo, StepsBeside};
ghost use Rattle.sender_session.specs.Session.{IsUndelivered, SendsOn, sending_end};

use crate::means::Means;
use agency_port::Agency;
use once_world::{Outbox, what_came_beside_is_records};
use ports::{Gate, Sleeper};
use sender::{DrainFault, SendFault, Sender, Turn};
use std::sync::Wait;
use std::sync::atomic::{AtomicBool, Ordering};

// This many rests of the system's sleeper are two seconds.
const RESTS: u32 = 40;

// Sleeps towards this second in short rests, and looks at `stop` between them: tills that have ended wait for no second that
// their sender alone waits for. Rests that leave the second as it was are those of a sleeper that leaps, which is asked to.
fn sleep<R: Wait, Z: Sleeper>(rt: &R, sleeper: &mut Z, at: u64, stop: &AtomicBool)
    ensures { (Z.moment sleeper.new ≡ max (Z.moment sleeper.old) at) ⊎ (Z.moment sleeper.new ≡ Z.moment sleeper.old) }
{
    let begun = sleeper.now();
    for _ in 0..RESTS {
        if stop.load(Ordering::SeqCst) || sleeper.now() >= at {
            return;
        }
        sleeper.rest(rt);
    }
    if sleeper.now() <= begun {
        sleeper.wait_until(rt, at);
    }
}

// What comes after a turn: the gate is told of noted lines, and the sender rests where there is nothing to do yet, and after a
// fault of the link.
fn pause<R: Wait, T: Gate, Z: Sleeper>(
    means: Means<'_, R, T>,
    sleeper: &mut Z,
    stop: &AtomicBool,
    answer: &Result<Turn, SendFault>,
)
    ensures { RestsTo (Z.moment sleeper.old) (Z.moment sleeper.new) answer.now }
{
    match answer {
        Ok(Turn::Noted { n }) => means.gate.noted(means.rt, *n),
        Ok(Turn::WaitUntil(at)) => sleep(means.rt, sleeper, *at, stop),
        Ok(Turn::Idle { .. }) | Err(SendFault::LinkFault) => sleeper.rest(means.rt),
        _ => {}
    }
}

// Whether the turns go on after this one. A fault of the link is passed over.
fn going_on(answer: Result<Turn, SendFault>) -> Result<(), DrainFault>
    ensures { result ≡ sending_end answer }
{
    match answer {
        Ok(_) | Err(SendFault::LinkFault) => Ok(()),
        Err(SendFault::Contradiction(evidence)) => Err(DrainFault::Contradiction(evidence)),
        Err(SendFault::Store(fault)) => Err(DrainFault::Store(fault)),
        Err(SendFault::NoMemory) => Err(DrainFault::NoMemory),
    }
}

// One turn, and what comes after it.
fn one_turn<R: Wait, T: Gate, O: Outbox, G: Agency, Z: Sleeper>(
    means: Means<'_, R, T>,
    outbox: &mut O,
    sender: &mut Sender,
    agency: &mut G,
    sleeper: &mut Z,
    stop: &AtomicBool,
) -> Result<(), DrainFault>
    ensures fixed { O.fixed outbox.new ≡ O.fixed outbox.old }
    ensures sends { SendsOn (agency_kind G.Agency) (O.sight outbox.old) (O.sight outbox.new)
        (agency_state_of G.Agency agency.old) (agency_state_of G.Agency agency.new) sender.old sender.new result }
    ensures steps { StepsBeside (agency_kind G.Agency) Z.tells
        (scene_of (agency_state_of G.Agency agency.old) (O.sight outbox.old) sender.old (Z.moment sleeper.old))
        (scene_of (agency_state_of G.Agency agency.new) (O.sight outbox.new) sender.new (Z.moment sleeper.new)) result }
    ensures never { IsUndelivered result → ⊥ }
{
    what_came_beside_is_records();
    let now = sleeper.now();
    let answer = sender.turn(means.rt, means.alloc, outbox, agency, now);
    pause(means, sleeper, stop, &answer);
    going_on(answer)
}

/// Makes turns until it is told to stop, or until one ends with a fault that isn't the link's.
pub fn send_until<R: Wait, T: Gate, O: Outbox, G: Agency, Z: Sleeper>(
    means: Means<'_, R, T>,
    outbox: &mut O,
    sender: &mut Sender,
    agency: &mut G,
    sleeper: &mut Z,
    stop: &AtomicBool,
) -> Result<(), DrainFault>
    ensures fixed { O.fixed outbox.new ≡ O.fixed outbox.old }
    //= Whatever others add to the shop meanwhile, it gains from its sender no notes but the lines that the messages
    //= say, nothing is handed over again blindly, and where an agency that keeps its rules agreed it still does.
    ensures sends { SendsOn (agency_kind G.Agency) (O.sight outbox.old) (O.sight outbox.new)
        (agency_state_of G.Agency agency.old) (agency_state_of G.Agency agency.new) sender.old sender.new result }

    //= Each turn of a sender beside tills is a step, over the records of its own look, at a second of the sleeper.
    ensures steps { StepsBeside (agency_kind G.Agency) Z.tells
        (scene_of (agency_state_of G.Agency agency.old) (O.sight outbox.old) sender.old (Z.moment sleeper.old))
        (scene_of (agency_state_of G.Agency agency.new) (O.sight outbox.new) sender.new (Z.moment sleeper.new)) result }

    //= However often the link fails, a sender beside tills doesn't give up.
    ensures never { IsUndelivered result → ⊥ }
{
    for _ in means.rt.forever() {
        if stop.load(Ordering::SeqCst) {
            return Ok(());
        }
        if let Err(fault) = one_turn(means, outbox, sender, agency, sleeper, stop) {
            return Err(fault);
        }
    }
    unreachable!()
}
