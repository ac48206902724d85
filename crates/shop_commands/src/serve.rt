//! The command `serve`: opens the file, begins the agency's session, and answers the lines of the source one by one, with a sender
//! at the same time, until the source ends. Then it drains, and prints the chain line. After a fault of the disk it ends at once.
ghost use Rattle.std.specs.Prelude.{◌≡◌, ◌≤◌, ◌∷◌, ◌++◌, [], ℕ, true, List, length, IsTrue, Option, OnOk, None};
ghost use Rattle.std.specs.List.{list_any};
ghost use Rattle.chain_store.specs.Replies.{Replies, is_no_memory};
ghost use Rattle.chain_store.specs.Store.{Ready, journal_of};
ghost use Rattle.dialogue_loop.specs.Speech.{AreRepliesOf, ComesOnce, IsWritten, clock_first};
ghost use Rattle.dialogue_loop.specs.declared.speaking.SpeechEnd.TheVariants as speech;
ghost use Rattle.dialogue.specs.Protocol.{written_for};
ghost use Rattle.journal.specs.Journal.{stopped_of};
ghost use Rattle.ports.specs.Sinks.{Sinks, Wrote, this_sink};
ghost use Rattle.ports.specs.Sources.{SourceRose, Sources, this_source};
ghost use Rattle.report.specs.Pieces.{chain_line};
ghost use Rattle.report.specs.Status.{status_of};
ghost use Rattle.shop_core.specs.Answer.Requests.{Asked};
ghost use Rattle.shop_core.specs.History.{noted, recs};
ghost use Rattle.shop_drain.specs.Devices.{this_call};
ghost use Rattle.shop_commands.specs.Serve as spec;
ghost use Rattle.shop_commands.specs.Serve.{Closes, EndsAtFault, IsReadEnd, ServeEnds, ServesOn, SpeechEnds, sink_to};
ghost use Rattle.shop_dialogue.specs.Dialogues.{HasCome, drains_after};

use crate::day::sender_end;
use agency_port::{Agency, Turns};
use agency_rules::Plan;
use chain_disk::Disk;
use command_ends::sender_lacks_memory;
use dialogue::Action;
use dialogue_loop::{Listener, SpeechEnd, all_numbers, answer};
use parties::Nif;
use ports::{Clock, Gate, Sink, Sleeper, Source};
use record_codec::LAST_TILL;
use report::{Detail, Ended, turns_text};
use sender::DrainFault;
use sender_session::Means;
use shop_core::{State, legal_is_chained};
use shop_dialogue::{DialogueDone, run_dialogue};
use shop_drain::{
    Opened, Post, begin, close, open, opening_end, what_a_disk_reads_is_an_image,
    who_keeps_the_rules_tells,
};
use std::alloc::Global;
use std::sync::Wait;
use std::thread::Threads;
use till_calls::Clockless;

/// Opens the disk for this issuer, and answers the lines of the source one by one: each answer is written before the next line is
/// read. The agency's session is opened once, with the pairs noted in the file, and a sender sends at the same time. Once the source has ended
/// the sender drains, and the chain line is printed. After a command that is answered with a fault of the disk nothing more is read,
/// the sender makes no further turn, and nothing is drained. A clock line ahead of every other line that is answered replaces clock and
/// sleeper. All parts come back.
pub fn serve_cmd<S, K, D, C, Z, G, T, R>(
    rt: &R,
    alloc: Global,
    issuer: &Nif,
    source: &mut S,
    sink: &mut K,
    post: Post<D, C, Z, G>,
    gate: &T,
) -> (Ended, Post<D, C, Z, G>)
where
    S: Source,
    K: Sink,
    D: Disk + Send + Drop,
    C: Clock + Send + Drop,
    Z: Sleeper + Send + Drop,
    G: Agency + Send + Drop,
    T: Gate + Sync,
    R: Threads + Wait + Sync,
    ensures status { result.0.status ≡ status_of result.0.detail }
    //= `serve` opens the file and the session, answers line by line with a sender at the same time, and drains:
    //= each end comes exactly with its cause.
    ensures ends { ServeEnds issuer.now (this_call (this_source S.left S.faults source.old source.new)
        (this_sink K.taken K.faults sink.old sink.new) D.Disk C.Clock Z.Sleeper G.Agency post result.1) result.0.detail }
    //= Of a source of `serve` that counts its failed reads none failed, or one did, and it ends with 4 then, unless
    //= 10, 6, 11 or 8 holds.
    ensures once { IsTrue S.counts → EndsAtFault (S.faults source.old) (S.faults source.new) result.0.detail }
{
    let means = Means { rt, alloc, gate };
    let (detail, post) = serve_file(means, issuer, source, sink, post);
    (Ended::of(detail), post)
}

// Opens the file, and reads up to the first line that is answered.
fn serve_file<S, K, D, C, Z, G, T, R>(
    means: Means<'_, R, T>,
    issuer: &Nif,
    source: &mut S,
    sink: &mut K,
    post: Post<D, C, Z, G>,
) -> (Detail, Post<D, C, Z, G>)
where
    S: Source,
    K: Sink,
    D: Disk + Send + Drop,
    C: Clock + Send + Drop,
    Z: Sleeper + Send + Drop,
    G: Agency + Send + Drop,
    T: Gate + Sync,
    R: Threads + Wait + Sync,
    ensures ends { ServeEnds issuer.now (this_call (this_source S.left S.faults source.old source.new)
        (this_sink K.taken K.faults sink.old sink.new) D.Disk C.Clock Z.Sleeper G.Agency post result.1) result.0 }
    ensures once { IsTrue S.counts → EndsAtFault (S.faults source.old) (S.faults source.new) result.0 }
{
    let Ok(mut listener) = Listener::new(means.alloc) else {
        return (Detail::NoMemory, post);
    };
    match open(means.alloc, issuer, post) {
        Err(unopened) => (opening_end(&unopened.why), unopened.post),
        Ok(opened) => {
            let first = listener.first_action(means.rt, means.alloc, source);
            let (detail, opened) = serve_first(means, listener, &first, source, sink, opened);
            (detail, close(opened))
        }
    }
}

// START and STEP, where the first line that is answered is a clock line.
fn clock_line(first: &Result<Action, SpeechEnd>) -> Option<(u64, u64)>
    ensures { result ≡ clock_first first.now }
{
    match first {
        Ok(
            Action::Clock {
                start,
                step,
                text: _,
            },
        ) => Some((*start, *step)),
        _ => None,
    }
}

// A clock line replaces clock and sleeper.
fn serve_first<S, K, D, C, Z, G, T, R>(
    means: Means<'_, R, T>,
    listener: Listener,
    first: &Result<Action, SpeechEnd>,
    source: &mut S,
    sink: &mut K,
    opened: Opened<D, C, Z, G>,
) -> (Detail, Opened<D, C, Z, G>)
where
    S: Source,
    K: Sink,
    D: Disk + Send + Drop,
    C: Clock + Send + Drop,
    Z: Sleeper + Send + Drop,
    G: Agency + Send + Drop,
    T: Gate + Sync,
    R: Threads + Wait + Sync,
    requires going_on { stopped_of (journal_of opened.store) ≡ None }
    requires ready { Ready D.tells D.on_disk opened.store }
    requires first { HasCome (S.left source.old) (S.faults source.old) listener first.now }
    ensures ends { ServesOn D.Disk C.Clock Z.Sleeper G.Agency (clock_first first.now) listener first.now
        (this_source S.left S.faults source.old source.new) (this_sink K.taken K.faults sink.old sink.new) opened
        result.1 result.0 }
    ensures once { IsTrue S.counts → (faults : ℕ) → ComesOnce faults (S.faults source.old) first.now →
        EndsAtFault faults (S.faults source.new) result.0 }
{
    let Some((start, step)) = clock_line(first) else {
        return serve_opened(means, listener, first, source, sink, opened);
    };
    let (own, clock, sleeper) = opened.with_own_time(start, step);
    let (detail, own) = serve_opened(means, listener, first, source, sink, own);
    (detail, own.with_time(clock, sleeper))
}

// Begins the shop of an opened file, with all its tills, and answers line by line. The room for the tills is made first. The shop
// has no clock of its own meanwhile: the thread that answers reads the store's.
fn serve_opened<S, K, D, C, Z, G, T, R>(
    means: Means<'_, R, T>,
    listener: Listener,
    first: &Result<Action, SpeechEnd>,
    source: &mut S,
    sink: &mut K,
    opened: Opened<D, C, Z, G>,
) -> (Detail, Opened<D, C, Z, G>)
where
    S: Source,
    K: Sink,
    D: Disk + Send + Drop,
    C: Clock + Send + Drop,
    Z: Sleeper + Send + Drop,
    G: Agency + Send + Drop,
    T: Gate + Sync,
    R: Threads + Wait + Sync,
    requires going_on { stopped_of (journal_of opened.store) ≡ None }
    requires ready { Ready D.tells D.on_disk opened.store }
    requires first { HasCome (S.left source.old) (S.faults source.old) listener first.now }
    ensures ends { ServesOn D.Disk C.Clock Z.Sleeper G.Agency None listener first.now
        (this_source S.left S.faults source.old source.new) (this_sink K.taken K.faults sink.old sink.new) opened
        result.1 result.0 }
    ensures once { IsTrue S.counts → (faults : ℕ) → ComesOnce faults (S.faults source.old) first.now →
        EndsAtFault faults (S.faults source.new) result.0 }
{
    what_a_disk_reads_is_an_image::<D>();
    who_keeps_the_rules_tells::<G>();
    legal_is_chained();
    let Ok(numbers) = all_numbers(means.alloc) else {
        return (Detail::NoMemory, opened);
    };
    let Ok(held) = Vec::with_capacity(means.alloc, usize::from(LAST_TILL)) else {
        return (Detail::NoMemory, opened);
    };
    let (own, clock) = opened.with_clock(Clockless);
    match begin(means.alloc, &Plan::plain(means.alloc), &numbers, own) {
        Err(own) => (Detail::NoMemory, own.with_clock(clock).0),
        Ok(begun) => {
            let DialogueDone {
                opened,
                clock,
                how,
                lacked,
                answer,
                ..
            } = run_dialogue(means, listener, held, first, source, sink, clock, begun);
            let closed = close_speech(means.alloc, how, opened.store.state(), sink);
            let detail = speech_end(closed, lacked, &answer, opened.store.state());
            (detail, opened.with_clock(clock).0)
        }
    }
}

// Writes the chain line after a source that was read to its end.
fn close_speech<K: Sink>(alloc: Global, how: SpeechEnd, state: &State, sink: &mut K) -> SpeechEnd
    ensures closes { Closes how result }
    ensures printed { (taken : Option (List ℕ)) (faults : ℕ) (answers : List (List ℕ)) →
        IsWritten how (sink_to taken faults (K.taken sink.old) (K.faults sink.old)) answers → faults ≤ K.faults sink.old →
        IsWritten result (sink_to taken faults (K.taken sink.new) (K.faults sink.new))
        (spec.printed how answers (chain_line (length (recs state.now.entries)) (length (noted state.now.entries)))) }
{
    match how {
        SpeechEnd::Ended => write_chain(alloc, state, sink),
        SpeechEnd::ReadFault => SpeechEnd::ReadFault,
        SpeechEnd::WriteFault => SpeechEnd::WriteFault,
        SpeechEnd::NoMemory => SpeechEnd::NoMemory,
        SpeechEnd::Stopped => SpeechEnd::Stopped,
    }
}

fn write_chain<K: Sink>(alloc: Global, state: &State, sink: &mut K) -> SpeechEnd
    ensures closes { Closes speech.Ended result }
    ensures written { (taken : Option (List ℕ)) (faults : ℕ) (answers : List (List ℕ)) →
        Wrote (sink_to taken faults (K.taken sink.old) (K.faults sink.old)) (written_for answers) → faults ≤ K.faults sink.old →
        IsWritten result (sink_to taken faults (K.taken sink.new) (K.faults sink.new))
        (answers ++ chain_line (length (recs state.now.entries)) (length (noted state.now.entries)) ∷ []) }
{
    match turns_text(alloc, &Turns::new(alloc), state.records(), state.noted()) {
        Err(_) => SpeechEnd::NoMemory,
        Ok(text) => match answer(sink, text.as_slice()) {
            None => SpeechEnd::Ended,
            Some(end) => end,
        },
    }
}

// The end of a dialogue that ended so, its chain line written or not: lack of memory before a fault of the disk, that before a
// contradiction and an undelivered drain, and these before a fault of the source or of the sink.
fn speech_end(how: SpeechEnd, lacked: bool, sent: &Result<(), DrainFault>, state: &State) -> Detail
    requires counts { drains_after how ≡ true → OnOk sent.now (length (noted state.now.entries) ≡ length (recs state.now.entries)) }
    ensures read { how ≡ speech.ReadFault → IsReadEnd result }
    ensures ends { (began : SpeechEnd) (asks : List Asked) (replies : Replies) (answers texts : List (List ℕ)) (s : Sources) (k : Sinks) →
        Closes began how → AreRepliesOf began asks replies answers → lacked ≡ list_any is_no_memory replies →
        (began ≡ speech.ReadFault → SourceRose s) → IsWritten how k texts →
        SpeechEnds began replies sent.now (length (noted state.now.entries)) (length (recs state.now.entries)) texts s k result }
{
    if lacked {
        return Detail::NoMemory;
    }
    if sender_lacks_memory(sent) {
        return Detail::NoMemory;
    }
    end_of(how, sent, state)
}

fn end_of(how: SpeechEnd, sent: &Result<(), DrainFault>, state: &State) -> Detail
    ensures { result ≡ spec.end_of how (length (noted state.now.entries)) (length (recs state.now.entries)) sent.now }
{
    match how {
        SpeechEnd::Ended => sent_end(sent, state, Detail::Done),
        SpeechEnd::ReadFault => sent_end(sent, state, Detail::ReadFault),
        SpeechEnd::WriteFault => sent_end(sent, state, Detail::WriteFault),
        SpeechEnd::NoMemory => Detail::NoMemory,
        SpeechEnd::Stopped => Detail::DiskFault,
    }
}

// The end by the sender's answer: this one where no record waits.
fn sent_end(sent: &Result<(), DrainFault>, state: &State, done: Detail) -> Detail
    ensures { result ≡ spec.sent_end (length (noted state.now.entries)) (length (recs state.now.entries)) done sent.now }
{
    match sent {
        Ok(()) => done,
        Err(fault) => sender_end(*fault, state.noted(), state.records()),
    }
}
