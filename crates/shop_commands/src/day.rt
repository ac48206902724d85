//! The command `day`: reads a script, opens the file, begins the agency's session, runs the script's tills at the same time on
//! the history that the file holds with a sender for them, drains, and prints what each till was told and the chain.
ghost use Rattle.std.specs.Prelude.{◌≡◌, ◌++◌, ◌∷◌, ℕ, List, map, flat_map, length, IfOk, OnOk, None};
ghost use Rattle.std.specs.List.{list_any};
ghost use Rattle.ports.specs.Sinks.{OutputIs, Sinks, this_sink};
ghost use Rattle.ports.specs.Sources.{this_source};
ghost use Rattle.report.specs.Status.{status_of};
ghost use Rattle.shop_core.specs.History.{recs, noted};
ghost use Rattle.shop_core.specs.Answer.Requests.{Asked};
ghost use Rattle.shop_commands.specs.SenderEnds as sending;
ghost use Rattle.shop_commands.specs.SenderEnds.{DayRunEnds};
ghost use Rattle.shop_commands.specs.Day as spec;
ghost use Rattle.shop_commands.specs.Day.{DayEnds, FileDay, day_text};
ghost use Rattle.shop_drain.specs.Devices.{around_in, this_call};
ghost use Rattle.command_ends.specs.Printed.{answers};
ghost use Rattle.chain_store.specs.Replies as reply;
ghost use Rattle.sender_beside.specs.Days.{all_replies};
ghost use Rattle.sender_beside.specs.Tills.{asks_of};
ghost use Rattle.shop_day.specs.TillJobs.{told_in};

use agency_port::Agency;
use chain_disk::Disk;
use command_ends::{
    RunText, fault_end, lacks_disk, lacks_memory, read_source, sender_lacks_memory,
};
use file_commands::write_texts;
use journal::StoreFault;
use parties::Nif;
use ports::{Clock, Failed, Gate, NoMemory, Sink, Sleeper, Source};
use report::{AnswerLine, Answers, Detail, Ended, answers_text, listing_text};
use script::{Form, Script};
use sender::DrainFault;
use sender_session::Means;
use shop_core::{Ask, Reply, State, legal_is_chained};
use shop_day::{DayDone, TillDay, room_for, run_day};
use shop_drain::{
    Post, begin, close, open, opening_end, what_a_disk_reads_is_an_image, who_keeps_the_rules_tells,
};
use std::alloc::Global;
use std::sync::Wait;
use std::thread::Threads;

/// Reads a script from the source, opens the disk for this issuer, and opens the agency's session once with the script's plan
/// and the pairs noted in the file. Then it runs the script's tills at the same time on the history that the file holds, each
/// for its own commands in line order and in a thread of its own, with the gate asked ahead of each command and after it. Meanwhile a
/// sender sends the records that wait, and the gate is told of each turn that noted lines. Once the tills have ended the
/// same sender drains, unless a fault had ended its turns. At last it prints what each till was told, in order of number, and
/// the chain to the sink. A clock line of the script replaces clock and sleeper. All parts come back.
pub fn day_cmd<S, K, D, C, Z, G, T, R>(
    rt: &R,
    alloc: Global,
    issuer: &Nif,
    source: &mut S,
    sink: &mut K,
    post: Post<D, C, Z, G>,
    gate: &T,
) -> (Ended, Post<D, C, Z, G>)
where
    S: Source,
    K: Sink,
    D: Disk + Send + Drop,
    C: Clock + Send + Drop,
    Z: Sleeper + Send + Drop,
    G: Agency + Send + Drop,
    T: Gate + Sync,
    R: Threads + Wait + Sync,
    ensures status { result.0.status ≡ status_of result.0.detail }
    //= `day` reads a script, opens the file and the session, serves the tills with one sender at the same time,
    //= drains, and prints: each end comes exactly with its cause.
    ensures ends { DayEnds issuer.now (this_call (this_source S.left S.faults source.old source.new)
        (this_sink K.taken K.faults sink.old sink.new) D.Disk C.Clock Z.Sleeper G.Agency post result.1) result.0.detail }
{
    match read_source(alloc, source, Form::Full) {
        Err(fault) => (Ended::of(fault.detail()), post),
        Ok(script) => {
            let means = Means { rt, alloc, gate };
            let (detail, post) = day_script(means, issuer, &script, sink, post);
            (Ended::of(detail), post)
        }
    }
}

// A clock line replaces clock and sleeper.
fn day_script<K, D, C, Z, G, T, R>(
    means: Means<'_, R, T>,
    issuer: &Nif,
    script: &Script,
    sink: &mut K,
    post: Post<D, C, Z, G>,
) -> (Detail, Post<D, C, Z, G>)
where
    K: Sink,
    D: Disk + Send + Drop,
    C: Clock + Send + Drop,
    Z: Sleeper + Send + Drop,
    G: Agency + Send + Drop,
    T: Gate + Sync,
    R: Threads + Wait + Sync,
    ensures { FileDay issuer.now script.now script.now.clock (around_in (this_sink K.taken K.faults sink.old sink.new) D.Disk
        C.Clock Z.Sleeper G.Agency post result.1) result.0 }
{
    let Some((start, step)) = script.clock else {
        return day_file(means, issuer, script, sink, post);
    };
    let (own, clock, sleeper) = post.with_own_time(start, step);
    let (detail, own) = day_file(means, issuer, script, sink, own);
    (detail, own.with_time(clock, sleeper))
}

// Opens the file and runs the day on it. The room for the tills is made first.
fn day_file<K, D, C, Z, G, T, R>(
    means: Means<'_, R, T>,
    issuer: &Nif,
    script: &Script,
    sink: &mut K,
    post: Post<D, C, Z, G>,
) -> (Detail, Post<D, C, Z, G>)
where
    K: Sink,
    D: Disk + Send + Drop,
    C: Clock + Send + Drop,
    Z: Sleeper + Send + Drop,
    G: Agency + Send + Drop,
    T: Gate + Sync,
    R: Threads + Wait + Sync,
    ensures { FileDay issuer.now script.now None (around_in (this_sink K.taken K.faults sink.old sink.new) D.Disk C.Clock Z.Sleeper
        G.Agency post result.1) result.0 }
{
    let asks = script.asks.as_slice();
    let Ok(room) = room_for(means.alloc, asks) else {
        return (Detail::NoMemory, post);
    };
    what_a_disk_reads_is_an_image::<D>();
    who_keeps_the_rules_tells::<G>();
    legal_is_chained();
    match open(means.alloc, issuer, post) {
        Err(unopened) => (opening_end(&unopened.why), unopened.post),
        Ok(opened) => match begin(means.alloc, &script.plan, &room.numbers, opened) {
            Err(opened) => (Detail::NoMemory, close(opened)),
            Ok(begun) => {
                let DayDone {
                    opened,
                    tills,
                    answer,
                    ..
                } = run_day(means, asks, room, begun);
                let detail = print_day(
                    means.alloc,
                    asks,
                    &tills,
                    &answer,
                    opened.store.state(),
                    sink,
                );
                (detail, close(opened))
            }
        },
    }
}

// Prints what the tills were told, and the history that they left.
fn print_day<K: Sink>(
    alloc: Global,
    asks: &[Ask],
    tills: &[TillDay],
    answer: &Result<(), DrainFault>,
    state: &State,
    sink: &mut K,
) -> Detail
    requires counts { OnOk answer.now (length (noted state.now.entries) ≡ length (recs state.now.entries)) }
    ensures { DayRunEnds (all_replies (map told_in tills.now)) answer.now (length (noted state.now.entries))
        (length (recs state.now.entries)) (day_text asks.now (map told_in tills.now) state.now.entries)
        (this_sink K.taken K.faults sink.old sink.new) result }
{
    let Ok(told) = told_of_day(alloc, asks, tills, state) else {
        return Detail::NoMemory;
    };
    let written = write_texts(sink, told.answers.as_slice(), told.listing.as_slice());
    day_end(tills, answer, state.noted(), state.records(), written)
}

// Adds the answer to this ask, where it is one of the till, and gives the replies after it.
fn put_own<'a>(
    till: u8,
    ask: &Ask,
    told: &'a [Result<Reply, StoreFault>],
    lines: &mut Vec<AnswerLine>,
) -> Result<&'a [Result<Reply, StoreFault>], NoMemory>
    ensures { IfOk result (λ rest. (more : List Asked) →
        lines.new.items ++ answers (asks_of till more) rest.now
        ≡ lines.old.items ++ answers (asks_of till (ask.now ∷ more)) told.now) }
{
    if ask.till != till {
        return Ok(told);
    }
    let [reply, rest @ ..] = told else {
        return Ok(told);
    };
    lines.push(AnswerLine::Answered {
        till,
        serial: ask.serial,
        reply: *reply,
    })?;
    Ok(rest)
}

// Adds the lines of a till.
fn put_till(asks: &[Ask], day: &TillDay, lines: &mut Vec<AnswerLine>) -> Result<(), NoMemory>
    ensures { OnOk result (lines.new.items ≡ lines.old.items ++ spec.till_lines asks.now (told_in day.now)) }
{
    let mut asked = asks;
    let mut told = day.answers.as_slice();
    while let [ask, more @ ..] = asked {
        told = put_own(day.till, ask, told, lines)?;
        asked = more;
    }
    lines.push(AnswerLine::Saw {
        till: day.till,
        count: day.saw,
    })?;
    Ok(())
}

// The lines of all tills, in order.
fn day_lines(alloc: Global, asks: &[Ask], days: &[TillDay]) -> Result<Answers, NoMemory>
    ensures { IfOk result (λ lines. lines ≡ flat_map (spec.till_lines asks.now) (map told_in days.now)) }
{
    let mut lines = Vec::new(alloc);
    for day in days {
        put_till(asks, day, &mut lines)?;
    }
    Ok(Answers::of(lines))
}

// The text of a day that left this history.
fn told_of_day(
    alloc: Global,
    asks: &[Ask],
    days: &[TillDay],
    state: &State,
) -> Result<RunText, NoMemory>
    ensures { IfOk result (λ told.
        told.answers ++ told.listing ≡ spec.day_text asks.now (map told_in days.now) state.now.entries) }
{
    let lines = day_lines(alloc, asks, days)?;
    let answers = answers_text(alloc, &lines)?;
    let listing = listing_text(alloc, state)?;
    Ok(RunText { answers, listing })
}

fn one_lacks_memory(days: &[TillDay]) -> bool
    ensures { result ≡ list_any (λ d. list_any reply.is_no_memory d.answers.items) days.now }
{
    days.iter().any(|day| lacks_memory(&day.answers))
}

fn one_lacks_disk(days: &[TillDay]) -> bool
    ensures { result ≡ list_any (λ d. list_any reply.is_disk_fault d.answers.items) days.now }
{
    days.iter().any(|day| lacks_disk(&day.answers))
}

/// The end of a day whose sender failed so. One that gave up tells these two counts.
pub(crate) fn sender_end(fault: DrainFault, noted: u32, records: u32) -> Detail
    ensures { result ≡ sending.sender_end noted records fault }
{
    match fault {
        DrainFault::Undelivered { .. } => Detail::Undelivered { noted, records },
        _ => fault_end(fault),
    }
}

// The end of a day with these answers of its tills and of its sender, whose text was written or not: lack of memory before a
// fault of the disk, that before a contradiction and an undelivered drain, and these before a fault of the sink. An undelivered
// drain is told with the two counts of the history that the day left.
fn day_end(
    days: &[TillDay],
    answer: &Result<(), DrainFault>,
    noted: u32,
    records: u32,
    written: Result<(), Failed>,
) -> Detail
    requires counts { OnOk answer.now (noted ≡ records) }
    ensures { (text : List ℕ) (s : Sinks) → OutputIs s text written →
        DayRunEnds (all_replies (map told_in days.now)) answer.now noted records text s result }
{
    if one_lacks_memory(days) {
        return Detail::NoMemory;
    }
    if sender_lacks_memory(answer) {
        return Detail::NoMemory;
    }
    if one_lacks_disk(days) {
        return Detail::DiskFault;
    }
    if let Err(fault) = answer {
        return sender_end(*fault, noted, records);
    }
    match written {
        Ok(()) => Detail::Done,
        Err(_) => Detail::WriteFault,
    }
}
