//! A dialogue with the tills of a shop, on one thread.
ghost use Rattle.std.specs.Prelude.{◌≡◌, ◌≤◌, ℕ, false, List, length, map, reverse, All, IsTrue, Option, ◌||◌};
ghost use Rattle.std.specs.List.{range_with_len};
ghost use Rattle.chain_lock.specs.Known.{Known};
ghost use Rattle.chain_store.specs.Replies as spec;
ghost use Rattle.ports.specs.Sinks.{OutputIs, this_sink};
ghost use Rattle.record_codec.specs.declared.entry.TheConstants.{LAST_TILL};
ghost use Rattle.shop_core.specs.declared.items.Item.{Item};
ghost use Rattle.till_calls.specs.Root.{Root};
ghost use Rattle.till_calls.specs.Sound.{IsLater};
ghost use Rattle.till_calls.specs.declared.clockless.Clockless.{Clockless as NoClock};
ghost use Rattle.till_calls.specs.Shop.{shop_id, till_knows, till_number, till_shop};
ghost use Rattle.dialogue_loop.specs.Speech.{CarriesOut, ComesFirst, ComesOnce, DialogueSoFar, EndsOnce, Goes, GoesOnce};
ghost use Rattle.dialogue_loop.specs.Speech.{HasAnswered, IsAnswered, IsCause};
ghost use Rattle.dialogue_loop.specs.Speech.{IsReplied, Spoken, clock_first, moment_of, moment_since};
ghost use Rattle.dialogue.specs.Protocol.{reply_text};

use crate::held::{ask_held, look_held};
use crate::listener::Listener;
use chain_disk::Disk;
use dialogue::{Action, command_text};
use journal::StoreFault;
use ports::{Clock, Failed, Gate, Sink, Source};
use shop_core::{Ask, Reply};
use std::alloc::Global;
use std::sync::Wait;
use std::sync::atomic::{AtomicBool, Ordering};
use till_calls::{Clockless, Shop, Till};

/// How a dialogue ends.
#[derive(Clone, Copy, Debug, PartialEq, Eq)]
pub enum SpeechEnd {
    /// The source was read to its end.
    Ended,
    ReadFault,
    /// An answer couldn't be written.
    WriteFault,
    NoMemory,
    /// The disk failed.
    Stopped,
}

/// What answering works by: the handle of the runtime, the allocator, the gate, which is told of each command, and the flag that
/// tells the shop's sender to stop.
#[derive_where(Clone, Copy)]
pub struct SpeechMeans<'a, R, T> {
    pub rt: &'a R,
    pub alloc: Global,
    pub gate: &'a T,
    pub stop: &'a AtomicBool,
}

/// How far a dialogue has come: the tills of a shop without a clock of its own, what was heard so far, and the clock.
#[derive(Drop)]
pub struct SpeechState<D: Disk, C: Clock> {
    pub listener: Listener,
    /// All tills, the last one first.
    pub held: Vec<Till<D, Clockless>>,
    /// Whether some command found no memory.
    pub lacked: bool,
    /// The clock, which is read once for each command.
    pub clock: C,
}

// Writes an answer, all of it or until the sink fails.
fn write<K: Sink>(sink: &mut K, text: &[u8]) -> Result<(), Failed>
    ensures output { OutputIs (this_sink K.taken K.faults sink.old sink.new) text.now result }
    ensures later { K.faults sink.old ≤ K.faults sink.new }
{
    let mut done = 0;
    while done < text.len() {
        done += sink.write(&text[done..])?;
    }
    Ok(())
}

/// Writes an answer, all of it or until the sink fails. None: the dialogue goes on.
pub fn answer<K: Sink>(sink: &mut K, text: &[u8]) -> Option<SpeechEnd>
    ensures answered { IsAnswered (this_sink K.taken K.faults sink.old sink.new) text.now result }
    ensures later { K.faults sink.old ≤ K.faults sink.new }
{
    match write(sink, text) {
        Ok(()) => None,
        Err(_) => Some(SpeechEnd::WriteFault),
    }
}

fn is_no_memory(reply: &Result<Reply, StoreFault>) -> bool
    ensures { result ≡ spec.is_no_memory reply.now }
{
    match reply {
        Err(StoreFault::NoMemory) => true,
        _ => false,
    }
}

fn is_disk_fault(reply: &Result<Reply, StoreFault>) -> bool
    ensures { result ≡ spec.is_disk_fault reply.now }
{
    match reply {
        Err(StoreFault::DiskFault | StoreFault::Stopped { .. }) => true,
        _ => false,
    }
}

// Tells the sender to stop where this reply is a fault of the disk. No clause can speak of the flag.
fn stop_at_fault(stop: &AtomicBool, reply: &Result<Reply, StoreFault>) {
    if is_disk_fault(reply) {
        stop.store(true, Ordering::SeqCst);
    }
}

// Writes the answer to a command.
fn answer_reply<K: Sink>(
    alloc: Global,
    ask: &Ask,
    told: &Result<Reply, StoreFault>,
    sink: &mut K,
) -> Option<SpeechEnd>
    ensures replied { IsReplied told.now (this_sink K.taken K.faults sink.old sink.new) (reply_text ask.now told.now) result }
    ensures later { K.faults sink.old ≤ K.faults sink.new }
{
    match command_text(alloc, ask, told) {
        Err(_) => Some(SpeechEnd::NoMemory),
        Ok(text) => {
            let end = answer(sink, text.as_slice());
            match told {
                Err(StoreFault::DiskFault | StoreFault::Stopped { .. }) => Some(SpeechEnd::Stopped),
                _ => end,
            }
        }
    }
}

// Does what a line asks for. None: the dialogue goes on. A fault of the disk stops the sender before it is answered: once the
// answer can be read no turn of it begins.
fn carry_out<K: Sink, D: Disk, C: Clock, T: Gate, R: Wait>(
    means: SpeechMeans<'_, R, T>,
    shop: &Shop<D, Clockless>,
    speech: &mut SpeechState<D, C>,
    sink: &mut K,
    action: &Action,
) -> Option<SpeechEnd>
    requires own { All (λ t. till_shop t ≡ shop_id shop.now) speech.old.held.items }
    requires numbers { reverse (map till_number speech.old.held.items) ≡ range_with_len 1 LAST_TILL }
    ensures own { All (λ t. till_shop t ≡ shop_id shop.now) speech.new.held.items }
    ensures numbers { map till_number speech.new.held.items ≡ map till_number speech.old.held.items }
    ensures listener { speech.new.listener ≡ speech.old.listener }
    ensures carries_out { (coming : ℕ → Option ℕ) → CarriesOut coming (C.coming speech.old.clock) (C.coming speech.new.clock) action.now
        (this_sink K.taken K.faults sink.old sink.new) speech.old.lacked
        speech.new.lacked (map till_knows speech.old.held.items) (map till_knows speech.new.held.items) result }
    ensures time { IsLater C.coming speech.old.clock speech.new.clock }
    ensures later { K.faults sink.old ≤ K.faults sink.new }
{
    match action {
        Action::Write(text) => answer(sink, text.as_slice()),
        Action::Clock {
            start: _,
            step: _,
            text,
        } => answer(sink, text.as_slice()),
        Action::Ask(ask) => {
            let told = ask_held(means, shop, &mut speech.held, &mut speech.clock, ask);
            speech.lacked = speech.lacked || is_no_memory(&told);
            stop_at_fault(means.stop, &told);
            answer_reply(means.alloc, ask, &told, sink)
        }
        Action::Look(question) => {
            match look_held(means.rt, means.alloc, shop, &mut speech.held, question) {
                Err(_) => Some(SpeechEnd::NoMemory),
                Ok(text) => answer(sink, text.as_slice()),
            }
        }
    }
}

// Reads a line and answers it. None: the dialogue goes on.
fn one_line<S: Source, K: Sink, D: Disk, C: Clock, T: Gate, R: Wait>(
    means: SpeechMeans<'_, R, T>,
    shop: &Shop<D, Clockless>,
    speech: &mut SpeechState<D, C>,
    source: &mut S,
    sink: &mut K,
) -> Option<SpeechEnd>
    requires own { All (λ t. till_shop t ≡ shop_id shop.now) speech.old.held.items }
    requires numbers { reverse (map till_number speech.old.held.items) ≡ range_with_len 1 LAST_TILL }
    ensures own { All (λ t. till_shop t ≡ shop_id shop.now) speech.new.held.items }
    ensures numbers { map till_number speech.new.held.items ≡ map till_number speech.old.held.items }
    ensures goes { (coming : ℕ → Option ℕ) (clock : Option (ℕ × ℕ)) (from : _) (olds : List (Known Item (Root NoClock))) →
        length olds ≡ LAST_TILL → HasAnswered speech.old.listener →
        DialogueSoFar coming (C.coming speech.old.clock) clock from (moment_of S.left S.faults K.taken K.faults source.old sink.old)
        speech.old.listener speech.old.lacked olds (map till_knows speech.old.held.items) →
        Goes coming (C.coming speech.new.clock) clock from (moment_of S.left S.faults K.taken K.faults source.new sink.new)
        speech.new.listener speech.new.lacked olds (map till_knows speech.new.held.items) result }
    ensures time { IsLater C.coming speech.old.clock speech.new.clock }
    ensures once { IsTrue S.counts → GoesOnce (S.faults source.old) (S.faults source.new) result }
{
    match speech.listener.next_action(means.rt, means.alloc, source) {
        Err(end) => Some(end),
        Ok(action) => carry_out(means, shop, speech, sink, &action),
    }
}

/// Reads lines and answers each, until the source ends or something fails. A line was answered before, and the clock line with
/// it where there is one.
pub fn speak<S: Source, K: Sink, D: Disk, C: Clock, T: Gate, R: Wait>(
    means: SpeechMeans<'_, R, T>,
    shop: &Shop<D, Clockless>,
    speech: &mut SpeechState<D, C>,
    source: &mut S,
    sink: &mut K,
) -> SpeechEnd
    requires own { All (λ t. till_shop t ≡ shop_id shop.now) speech.old.held.items }
    requires numbers { reverse (map till_number speech.old.held.items) ≡ range_with_len 1 LAST_TILL }
    ensures own { All (λ t. till_shop t ≡ shop_id shop.now) speech.new.held.items }
    ensures numbers { map till_number speech.new.held.items ≡ map till_number speech.old.held.items }
    ensures spoken { (coming : ℕ → Option ℕ) (clock : Option (ℕ × ℕ)) (from : _) (olds : List (Known Item (Root NoClock))) →
        length olds ≡ LAST_TILL → HasAnswered speech.old.listener →
        DialogueSoFar coming (C.coming speech.old.clock) clock from (moment_of S.left S.faults K.taken K.faults source.old sink.old)
        speech.old.listener speech.old.lacked olds (map till_knows speech.old.held.items) →
        Spoken coming clock from (moment_of S.left S.faults K.taken K.faults source.new sink.new)
        speech.new.lacked olds (map till_knows speech.new.held.items) result }
    ensures time { IsLater C.coming speech.old.clock speech.new.clock }
    ensures once { IsTrue S.counts → EndsOnce (S.faults source.old) (S.faults source.new) result }
{
    for _ in means.rt.forever() {
        match one_line(means, shop, speech, source, sink) {
            Some(end) => return end,
            None => {}
        }
    }
    unreachable!()
}

/// Does what the first answered line asks for, and goes on with the next ones; or ends as its reading did.
pub fn answer_lines<S: Source, K: Sink, D: Disk, C: Clock, T: Gate, R: Wait>(
    means: SpeechMeans<'_, R, T>,
    shop: &Shop<D, Clockless>,
    speech: &mut SpeechState<D, C>,
    first: &Result<Action, SpeechEnd>,
    source: &mut S,
    sink: &mut K,
) -> SpeechEnd
    requires own { All (λ t. till_shop t ≡ shop_id shop.now) speech.old.held.items }
    requires numbers { reverse (map till_number speech.old.held.items) ≡ range_with_len 1 LAST_TILL }
    requires lacked { speech.old.lacked ≡ false }
    ensures own { All (λ t. till_shop t ≡ shop_id shop.now) speech.new.held.items }
    ensures numbers { map till_number speech.new.held.items ≡ map till_number speech.old.held.items }
    //= Whatever lines came, what became of them is one `Spoken`: its fields say how far was read, what was done, and
    //= what was written.
    //= No body: its fields have bodies of their own
    ensures spoken { (left : Option (List ℕ)) (faults : ℕ) → ComesFirst left (S.left source.old) speech.old.listener first.now →
        faults ≤ S.faults source.old → IsCause faults (S.faults source.old) first.now →
        Spoken (C.coming speech.old.clock) (clock_first first.now) (moment_since left faults (K.taken sink.old) (K.faults sink.old))
        (moment_of S.left S.faults K.taken K.faults source.new sink.new) speech.new.lacked
        (map till_knows speech.old.held.items) (map till_knows speech.new.held.items) result }
    ensures time { IsLater C.coming speech.old.clock speech.new.clock }
    //= ! it is `next_line`'s, which has one
    //= No body: it is `next_line`, whose body it is
    ensures once { IsTrue S.counts → (faults : ℕ) → ComesOnce faults (S.faults source.old) first.now →
        EndsOnce faults (S.faults source.new) result }
{
    match first {
        Err(end) => *end,
        Ok(action) => match carry_out(means, shop, speech, sink, action) {
            Some(end) => end,
            None => speak(means, shop, speech, source, sink),
        },
    }
}
