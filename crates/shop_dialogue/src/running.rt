//! A dialogue with the tills of a shop, and a sender at the same time. `answer_to_end` is the body of the tills'
//! closure: a closure is proved where it stands, and a function by itself.
ghost use Rattle.std.specs.Prelude.{◌≡◌, ◌≤◌, [], ℕ, List, Option, false, map, reverse, All, IsTrue, vec_capacity};
ghost use Rattle.std.specs.List.{range_with_len};
ghost use Rattle.dialogue_loop.specs.Speech.{ComesFirst, ComesOnce, EndsOnce, IsCause, clock_first, moment_of, moment_since};
ghost use Rattle.record_codec.specs.declared.entry.TheConstants.{LAST_TILL};
ghost use Rattle.sender.specs.Draining.{scene_of};
ghost use Rattle.sender.specs.Sending.{fresh};
ghost use Rattle.till_calls.specs.Mark.{mark_by, sight_by};
ghost use Rattle.till_calls.specs.Root.{parts_of};
ghost use Rattle.till_calls.specs.Sound.{IsLater};
ghost use Rattle.till_calls.specs.Shop.{made_tills, numbers, seat_knows, seat_shop, shop_id, shop_root, till_knows, till_number};
ghost use Rattle.till_calls.specs.Shop.{till_shop};
ghost use Rattle.sender_session.specs.Session.{IsUndelivered, SendsOn};
ghost use Rattle.sender_session.specs.Sessions.{SessionSteps, StepsBeside};
ghost use Rattle.sender_session.specs.Kinds.{agency_state_of, agency_kind, store_kind};
ghost use Rattle.sender_beside.specs.Behind.{SendsBehind, scene_in};
ghost use Rattle.shop_dialogue.specs.Dialogues as spec;
ghost use Rattle.shop_dialogue.specs.Dialogues.{DialogueRun, HasCome, SpeaksOn};
ghost use Rattle.shop_drain.specs.Started.{IsStarted};

use agency_port::Agency;
use chain_disk::Disk;
use chain_lock::who_sees_all_that_is_owned_sees_all;
use dialogue::Action;
use dialogue_loop::{
    Listener, SpeechEnd, SpeechMeans, SpeechState, answer_lines, give_back, hold_all,
};
use once_world::{agreement_is_kept, what_came_beside_is_records};
use ports::{Clock, Gate, Sink, Sleeper, Source};
use sender::{DrainFault, a_session_begins};
use sender_beside::{Sent, drain_if, with_sender};
use sender_session::Means;
use shop_drain::{Begun, Opened};
use std::snapshot::Snapshot;
use std::sync::Wait;
use std::sync::atomic::AtomicBool;
use std::thread::Threads;
use till_calls::{
    Clockless, Kept, SenderSeat, Shop, Started, Till, a_run_is_told_at_the_end,
    a_till_adds_for_no_other, a_till_adds_what_is_taken, a_till_owns_records_and_stops,
    a_till_owns_within_what_it_knows,
};

/// A dialogue that is done: the file that it leaves, with all that it was given, and how it and the sending ended.
#[derive(Drop)]
pub struct DialogueDone<D: Disk, C: Clock, Z: Sleeper + Drop, G: Agency + Drop> {
    pub opened: Opened<D, Clockless, Z, G>,
    /// The clock, after its readings.
    pub clock: C,
    pub how: SpeechEnd,
    /// Whether some command found no memory.
    pub lacked: bool,
    /// How the sending ended. Ok: no record waits, or the dialogue ended at a fault of the disk, and nothing was drained.
    pub answer: Result<(), DrainFault>,
    /// The sender and all that it had once the dialogue had ended, and at the end, as contracts see them.
    pub met: Snapshot<Sent<D, Clockless, G, Z>>,
    pub left: Snapshot<Sent<D, Clockless, G, Z>>,
}

// Whether a drain follows a dialogue that ended so.
fn drains_after(how: SpeechEnd) -> bool
    ensures { result ≡ spec.drains_after how }
{
    match how {
        SpeechEnd::Stopped => false,
        _ => true,
    }
}

// A dialogue under way: how far it has come, and how it ended once it has.
#[derive(Drop)]
struct Talk<D: Disk, C: Clock> {
    speech: SpeechState<D, C>,
    how: SpeechEnd,
}

// What a sender sends by.
struct SenderParts<D: Disk, Z, G> {
    seat: SenderSeat<D, Clockless>,
    sleeper: Z,
    agency: G,
}

// Answers line by line to the end, and notes how it ended. A fault of the disk stops the sender before it is answered.
fn answer_to_end<S: Source, K: Sink, D: Disk, C: Clock, T: Gate, R: Wait>(
    means: Means<'_, R, T>,
    shop: &Shop<D, Clockless>,
    talk: &mut Talk<D, C>,
    first: &Result<Action, SpeechEnd>,
    source: &mut S,
    sink: &mut K,
    stop: &AtomicBool,
)
    requires own { All (λ t. till_shop t ≡ shop_id shop.now) talk.old.speech.held.items }
    requires numbers { reverse (map till_number talk.old.speech.held.items) ≡ range_with_len 1 LAST_TILL }
    requires lacked { talk.old.speech.lacked ≡ false }
    ensures own { All (λ t. till_shop t ≡ shop_id shop.now) talk.new.speech.held.items }
    ensures numbers { map till_number talk.new.speech.held.items ≡ map till_number talk.old.speech.held.items }
    ensures spoken { SpeaksOn (C.coming talk.old.speech.clock) S.counts talk.old.speech.listener first.now
        (moment_of S.left S.faults K.taken K.faults source.old sink.old)
        (moment_of S.left S.faults K.taken K.faults source.new sink.new) talk.new.speech.lacked
        (map till_knows talk.old.speech.held.items) (map till_knows talk.new.speech.held.items) talk.new.how }
    ensures time { IsLater C.coming talk.old.speech.clock talk.new.speech.clock }
{
    let by = SpeechMeans {
        rt: means.rt,
        alloc: means.alloc,
        gate: means.gate,
        stop,
    };
    talk.how = answer_lines(by, shop, &mut talk.speech, first, source, sink);
}

// Answers line by line, and sends at the same time, until the dialogue has ended or the disk failed.
fn answer_lines_with_sender<S, K, D, C, Z, G, T, R>(
    means: Means<'_, R, T>,
    shop: &Shop<D, Clockless>,
    talk: &mut Talk<D, C>,
    first: &Result<Action, SpeechEnd>,
    source: &mut S,
    sink: &mut K,
    sender: SenderParts<D, Z, G>,
) -> Sent<D, Clockless, G, Z>
where
    S: Source,
    K: Sink,
    D: Disk + Send,
    C: Clock + Send,
    Z: Sleeper + Send + Drop,
    G: Agency + Send + Drop,
    T: Gate + Sync,
    R: Threads + Wait + Sync,
    requires own { All (λ t. till_shop t ≡ shop_id shop.now) talk.old.speech.held.items }
    requires numbers { reverse (map till_number talk.old.speech.held.items) ≡ range_with_len 1 LAST_TILL }
    requires lacked { talk.old.speech.lacked ≡ false }
    requires seat { seat_shop sender.seat ≡ shop_id shop.now }
    ensures own { All (λ t. till_shop t ≡ shop_id shop.now) talk.new.speech.held.items }
    ensures numbers { map till_number talk.new.speech.held.items ≡ map till_number talk.old.speech.held.items }
    ensures spoken { SpeaksOn (C.coming talk.old.speech.clock) S.counts talk.old.speech.listener first.now
        (moment_of S.left S.faults K.taken K.faults source.old sink.old)
        (moment_of S.left S.faults K.taken K.faults source.new sink.new) talk.new.speech.lacked
        (map till_knows talk.old.speech.held.items) (map till_knows talk.new.speech.held.items) talk.new.how }
    ensures time { IsLater C.coming talk.old.speech.clock talk.new.speech.clock }
    ensures mark { mark_by (seat_shop result.seat) (seat_knows result.seat)
        ≡ mark_by (seat_shop sender.seat) (seat_knows sender.seat) }
    ensures sends { SendsOn (agency_kind G.Agency) (sight_by (seat_knows sender.seat)) (sight_by (seat_knows result.seat))
        (agency_state_of G.Agency sender.agency) (agency_state_of G.Agency result.agency) fresh result.sender result.answer }
    ensures steps { StepsBeside (agency_kind G.Agency) Z.tells
        (scene_of (agency_state_of G.Agency sender.agency) (sight_by (seat_knows sender.seat)) fresh (Z.moment sender.sleeper))
        (scene_in (agency_state_of G.Agency) Z.moment result) result.answer }
    ensures never { IsUndelivered result.answer → ⊥ }
{
    let SenderParts {
        seat,
        sleeper,
        agency,
    } = sender;
    let stop = AtomicBool::new(false);
    let told = &stop;
    with_sender(
        means,
        shop,
        seat,
        agency,
        sleeper,
        told,
        &mut move ||
            requires { All (λ t. till_shop t ≡ shop_id shop.now) talk.now.speech.held.items
                × (reverse (map till_number talk.now.speech.held.items) ≡ range_with_len 1 LAST_TILL)
                × (talk.now.speech.lacked ≡ false) }
            ensures { All (λ t. till_shop t ≡ shop_id shop.entry.now) talk.exit.now.speech.held.items
                × (map till_number talk.exit.now.speech.held.items ≡ map till_number talk.entry.now.speech.held.items)
                × IsLater C.coming talk.entry.now.speech.clock talk.exit.now.speech.clock
                × SpeaksOn (C.coming talk.entry.now.speech.clock) S.counts talk.entry.now.speech.listener first.entry.now
                (moment_of S.left S.faults K.taken K.faults source.entry.now sink.entry.now)
                (moment_of S.left S.faults K.taken K.faults source.exit.now sink.exit.now)
                talk.exit.now.speech.lacked (map till_knows talk.entry.now.speech.held.items)
                (map till_knows talk.exit.now.speech.held.items) talk.exit.now.how }
        { answer_to_end(means, shop, talk, first, source, sink, told) },
    )
}

/// The dialogue of a shop that has just begun and has no clock of its own, from its first answered line on, if there is one, by the
/// clock that is given. Meanwhile a sender sends what
/// waits to an agency whose session is open, and once it has ended the sender drains. After a command that is answered with a fault
/// of the disk the sender makes no further turn, and nothing is drained.
pub fn run_dialogue<
    S: Source,
    K: Sink,
    D: Disk + Send + Drop,
    C: Clock + Send + Drop,
    Z: Sleeper + Send + Drop,
    G: Agency + Send + Drop,
    T: Gate + Sync,
    R: Threads + Wait + Sync,
>(
    means: Means<'_, R, T>,
    listener: Listener,
    mut held: Vec<Till<D, Clockless>>,
    first: &Result<Action, SpeechEnd>,
    source: &mut S,
    sink: &mut K,
    clock: C,
    begun: Begun<D, Clockless, Z, G>,
) -> DialogueDone<D, C, Z, G>
    requires numbers { numbers begun.started.tills ≡ range_with_len 1 LAST_TILL }
    requires made { made_tills begun.started.tills ≡ LAST_TILL }
    requires room { (held.items ≡ []) × (LAST_TILL ≤ vec_capacity held) }
    requires begun { IsStarted begun.started }
    requires first { HasCome (S.left source.old) (S.faults source.old) listener first.now }
    //= What was said to the tills is a dialogue, and what it made of the shop is as of a day: its history goes on,
    //= each till ran its own of the commands, and where the drain is done each record has its line.
    ensures run { (left : Option (List ℕ)) (faults : ℕ) → ComesFirst left (S.left source.old) listener first.now →
        faults ≤ S.faults source.old → IsCause faults (S.faults source.old) first.now →
        DialogueRun (store_kind D.Disk ⟦<Clockless as Clock>⟧) (C.coming clock) (shop_root begun.started.shop) (parts_of result.opened.store)
        (clock_first first.now) (moment_since left faults (K.taken sink.old) (K.faults sink.old))
        (moment_of S.left S.faults K.taken K.faults source.new sink.new) (agency_kind G.Agency)
        (agency_state_of G.Agency begun.agency) (agency_state_of G.Agency result.opened.agency) result.answer result.lacked result.how }

    //= A dialogue leaves of its clock that clock after some readings.
    //= No body: it is of `answer_lines`
    ensures time { IsLater C.coming clock result.clock }

    //= Of a dialogue's source that counts its failed reads one failed where a read fault is told, and else none.
    ensures once { IsTrue S.counts → (faults : ℕ) → ComesOnce faults (S.faults source.old) first.now →
        EndsOnce faults (S.faults source.new) result.how }

    //= After a dialogue the sender makes one drain, unless a fault had ended it; after a fault of the disk it does
    //= nothing more.
    ensures behind { SendsBehind (agency_kind G.Agency) Z.tells (spec.drains_after result.how) (agency_state_of G.Agency begun.agency)
        (agency_state_of G.Agency result.opened.agency) (scene_in (agency_state_of G.Agency) Z.moment result.met.value)
        (scene_in (agency_state_of G.Agency) Z.moment result.left.value) result.met.value.answer result.answer }

    //= A dialogue's whole session is a list of steps from a new sender, from the sleeper's moment at the start.
    ensures steps { SessionSteps G.tells Z.tells (spec.drains_after result.how) (Z.moment begun.sleeper)
        (shop_root begun.started.shop).history (parts_of result.opened.store).state.entries (agency_state_of G.Agency begun.agency)
        (agency_state_of G.Agency result.opened.agency) result.answer }
{
    agreement_is_kept();
    what_came_beside_is_records();
    a_session_begins();
    a_run_is_told_at_the_end::<Clockless>();
    a_till_adds_what_is_taken::<Clockless>();
    a_till_adds_for_no_other::<Clockless>();
    a_till_owns_records_and_stops::<Clockless>();
    a_till_owns_within_what_it_knows::<Clockless>();
    who_sees_all_that_is_owned_sees_all::<Kept<D, Clockless>>();
    let Begun {
        started,
        sleeper,
        agency,
    } = begun;
    let Started {
        shop,
        mut tills,
        seat,
    } = started;
    hold_all(&mut tills, &mut held);
    let mut talk = Talk {
        speech: SpeechState {
            listener,
            held,
            lacked: false,
            clock,
        },
        how: SpeechEnd::Ended,
    };
    let sender = SenderParts {
        seat,
        sleeper,
        agency,
    };
    let mut sent = answer_lines_with_sender(means, &shop, &mut talk, first, source, sink, sender);
    let Talk { speech, how } = talk;
    give_back(&shop, &mut tills, speech.held, &mut sent.seat);
    let met = Snapshot::of(&sent);
    let rest = drain_if(drains_after(how), means, &shop, sent);
    let left = Snapshot::of(&rest);
    let Sent {
        seat,
        sender: _,
        agency,
        sleeper,
        answer,
    } = rest;
    DialogueDone {
        opened: Opened {
            store: shop.close(tills, seat),
            sleeper,
            agency,
        },
        clock: speech.clock,
        how,
        lacked: speech.lacked,
        answer,
        met,
        left,
    }
}
