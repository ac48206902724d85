//! The invoicing chain of a shop: hands the real devices and an agency, a practice one or one over two files, to
//! `verifactu::run`, and prints why it failed, where it did.
//!
//! - `link`: the agency at the other end of two files, and whether they are such as one can be spoken with by
//! - `option`: the option ahead of a command's words
//! - `showing`: long work shows itself on a terminal: a file and a sleeper that say on standard error how far they are,
//!   and are else those of `chain_disk` and `ports`
//!
//! Left to others: all that is promised of a run (`verifactu`).
#![tactic(auto)]

ghost use Rattle.std.specs.Prelude.{◌≡◌, IfOk, map, string_bytes, vec_len};
ghost use Rattle.verifactu.specs.CommandLine.{posts_needed};

mod link;
mod option;
mod showing;

use crate::link::{agencies_behind, agency_behind, status_of_unfit};
use crate::option::{PipeFiles, split_option};
use crate::showing::{ShownDisk, ShownSleeper};
use advice::{WordsFault, fault_in, form_of, next_step};
use agency_port::{Agency, PracticeAgency};
use parties::Nif;
use ports::{NoMemory, OpenGate, StdSink, StdSource, SystemClock};
use report::{Detail, Ended, fault_text};
use std::env;
use std::io::{ErrorKind, Write};
use std::process::ExitCode;
use std::sync::Wait;
use std::thread::Threads;
use verifactu::{Outside, Post, Posts, asks_to_send, posts_needed, run};

// Why nothing was run.
enum NotRun<'a> {
    Usage(WordsFault<'a>),
    NoMemory,
}

// The words after the program's name. One that isn't UTF-8 is no word of a command.
fn words_of(rt: &HostRuntime) -> Result<Vec<String>, NotRun<'static>> {
    match env::args(rt) {
        Ok(args) => match args.skip(1).collect(rt.alloc()) {
            Ok(words) => Ok(words),
            Err(_) => Err(NotRun::NoMemory),
        },
        Err(fault) if fault.kind() == ErrorKind::InvalidData => {
            Err(NotRun::Usage(WordsFault::NoText))
        }
        Err(_) => Err(NotRun::NoMemory),
    }
}

// FILE, the word after the command's, or the one after it. Where there is none, no call touches the disk.
fn file_of(words: &[String], place: usize) -> &str {
    match words.get(place) {
        Some(file) => file.as_str(),
        None => "",
    }
}

// The further file of this number, from 0: NEW is the word after FILE, and in `guard` the one after NIF, where the second file of
// `many` stands too.
fn further_of(words: &[String], number: usize) -> &str {
    match words.first() {
        Some(name) if name.as_str() == "guard" => file_of(words, 3),
        Some(name) if name.as_str() == "many" => {
            file_of(words, number.saturating_mul(2).saturating_add(3))
        }
        _ => file_of(words, 2),
    }
}

// A line that can't be printed changes nothing: the status tells it.
fn print_fault(rt: &HostRuntime, detail: &Detail) {
    let mut stderr = rt.stderr();
    let _ = match fault_text(rt.alloc(), detail) {
        Ok(text) => stderr.write_all(text.as_slice()),
        Err(_) => stderr.write_all(b"verifactu: no memory\n"),
    };
}

// Why a device failed, in the words that its adapter kept.
fn print_reason(rt: &HostRuntime, thing: &str, reason: Option<&str>) {
    if let Some(reason) = reason {
        let _ = eprintln!(rt; "verifactu: {thing}: {reason}");
    }
}

// That these words are no command, why, and what the command wants.
fn print_usage(rt: &HostRuntime, words: &[String], fault: WordsFault<'_>) {
    print_fault(rt, &Detail::Usage);
    let _ = eprintln!(rt; "verifactu: {fault}");
    print_form(rt, words);
}

// How a run ended, where it didn't end well, and what to do about it.
fn print_end(rt: &HostRuntime, words: &[String], ended: &Ended) {
    if matches!(ended.detail, Detail::Usage) {
        print_usage(rt, words, fault_in(words));
    } else if ended.status != 0 {
        print_fault(rt, &ended.detail);
        if let Some(step) = next_step(&ended.detail) {
            let _ = eprintln!(rt; "verifactu: {step}");
        }
    }
}

// Said as a command begins that sends to the practice agency.
fn print_practice(rt: &HostRuntime) {
    let _ = rt.stderr().write_all(
        b"verifactu: practice agency: what it answers for is never sent to the tax agency\n",
    );
}

// Why the parts failed, where they did. Commands that only look at a file don't make it: a mistyped name must not look like a
// sound shop.
fn print_reasons(
    rt: &HostRuntime,
    file: &str,
    source: Option<&str>,
    disk: Option<&str>,
    sink: Option<&str>,
    missing: bool,
) {
    print_reason(rt, "standard input", source);
    print_reason(rt, file, disk);
    print_reason(rt, "standard output", sink);
    if missing {
        print_reason(rt, file, Some("no such file, read as not begun"));
    }
}

// What the command wants, where the first word is one; else where the commands stand.
fn print_form(rt: &HostRuntime, words: &[String]) {
    let form = match words.first() {
        Some(name) => form_of(name.as_str()),
        None => None,
    };
    let mut stderr = rt.stderr();
    let _ = match form {
        Some(form) => writeln!(stderr, "verifactu: the form is: verifactu {form}"),
        None => writeln!(stderr, "verifactu: verifactu --help lists the commands"),
    };
}

// NIF, the word after FILE. Where there is none, no call asks an agency.
fn issuer_of(words: &[String]) -> Option<Nif> {
    match Nif::read(words.get(2)?.as_str()) {
        Ok(issuer) => Some(issuer),
        Err(_) => None,
    }
}

// `many`, whose issuers have no agency at the other end of one's two files.
fn is_for_many(words: &[String]) -> bool {
    match words.first() {
        Some(name) => name.as_str() == "many",
        None => false,
    }
}

// A post over the machine's file, clock and sleeper.
type HostPost<'a, G> = Post<ShownDisk<'a>, SystemClock<&'a HostRuntime>, ShownSleeper<'a>, G>;

// The file of this name.
fn shown_disk<'a>(rt: &'a HostRuntime, file: &str) -> Result<ShownDisk<'a>, NoMemory> {
    let path = String::from_str(rt.alloc(), file)?;
    let name = String::from_str(rt.alloc(), file)?;
    Ok(ShownDisk::at(rt, path, name))
}

// A post for each further file that the words name, each with one of these agencies.
fn posts_of<'a, G: Agency + Drop>(
    rt: &'a HostRuntime,
    words: &[String],
    agencies: Vec<G>,
) -> Result<Vec<HostPost<'a, G>>, NoMemory>
    ensures { IfOk result (λ posts. vec_len posts ≡ vec_len agencies) }
{
    let mut agencies = agencies;
    let mut posts = Vec::new(rt.alloc());
    while let Some(agency) = agencies.pop() {
        posts.push(Post {
            disk: shown_disk(rt, further_of(words, posts.len()))?,
            clock: SystemClock::new(rt),
            sleeper: ShownSleeper::new(rt),
            agency,
        })?;
    }
    Ok(posts)
}

// Runs the command with this agency, which comes back, and prints why it failed, where it did. `spares` are those of the further
// files. NoMemory: nothing was run.
fn run_with<R: Threads + Wait + Sync, G: Agency + Send + Drop>(
    handle: &R,
    rt: &HostRuntime,
    words: &[String],
    agency: G,
    spares: Vec<G>,
) -> Result<(u8, G), NoMemory>
    requires { vec_len spares ≡ posts_needed (map string_bytes words.now) }
{
    let file = file_of(words, 1);
    let more = posts_of(rt, words, spares)?;
    let mut source = StdSource::new(rt);
    let mut sink = StdSink::new(rt);
    let outside = Outside {
        disk: shown_disk(rt, file)?,
        clock: SystemClock::new(rt),
        sleeper: ShownSleeper::new(rt),
        agency,
        more: Posts::of(more),
    };
    let (ended, outside) = run(
        handle,
        rt.alloc(),
        words,
        &mut source,
        &mut sink,
        outside,
        &OpenGate,
    );
    print_end(rt, words, &ended);
    for (number, post) in outside.more.as_slice().iter().enumerate() {
        print_reason(rt, further_of(words, number), post.disk.reason());
    }
    let disk = outside.disk;
    print_reasons(
        rt,
        file,
        source.reason(),
        disk.reason(),
        sink.reason(),
        disk.missing(),
    );
    Ok((ended.status, outside.agency))
}

// This many practice agencies.
fn practice_agencies(rt: &HostRuntime, count: u16) -> Result<Vec<PracticeAgency>, NoMemory>
    ensures { IfOk result (λ spares. vec_len spares ≡ count) }
{
    let mut spares = Vec::new(rt.alloc());
    for made in 0..count {
        spares.push(PracticeAgency::new(rt.alloc()))?;
    }
    Ok(spares)
}

// Runs the command with the agency that these files lead to.
fn run_by_pipe<R: Threads + Wait + Sync>(
    handle: &R,
    rt: &HostRuntime,
    words: &[String],
    files: PipeFiles<'_>,
    issuer: Nif,
) -> Result<u8, NoMemory> {
    let agency = agency_behind(rt, files, issuer)?;
    let spares = agencies_behind(rt, posts_needed(words), files, issuer)?;
    let (status, agency) = run_with(handle, rt, words, agency, spares)?;
    print_reason(rt, "the agency", agency.inner().reason());
    Ok(status)
}

// Runs the command with a practice agency, and says so where one is asked.
fn run_by_practice<R: Threads + Wait + Sync>(
    handle: &R,
    rt: &HostRuntime,
    words: &[String],
) -> Result<u8, NoMemory> {
    if asks_to_send(words) {
        print_practice(rt);
    }
    let agency = PracticeAgency::new(rt.alloc());
    let spares = practice_agencies(rt, posts_needed(words))?;
    let (status, _) = run_with(handle, rt, words, agency, spares)?;
    Ok(status)
}

fn run_words<'a, R: Threads + Wait + Sync>(
    handle: &R,
    rt: &HostRuntime,
    words: &'a [String],
) -> Result<u8, NotRun<'a>> {
    let (files, words) = match split_option(words) {
        Ok(split) => split,
        Err(fault) => return Err(NotRun::Usage(fault)),
    };
    if files.is_some() && is_for_many(words) {
        return Err(NotRun::Usage(WordsFault::AgencyOfMany));
    }
    if let Some(status) = status_of_unfit(rt, files) {
        return Ok(status);
    }
    let status = match (files, issuer_of(words)) {
        (Some(files), Some(issuer)) => run_by_pipe(handle, rt, words, files, issuer),
        _ => run_by_practice(handle, rt, words),
    };
    match status {
        Ok(status) => Ok(status),
        Err(NoMemory) => Err(NotRun::NoMemory),
    }
}

// Says why nothing was run, and gives the status of it.
fn end_of(rt: &HostRuntime, words: &[String], reason: NotRun<'_>) -> u8 {
    match reason {
        NotRun::Usage(fault) => {
            print_usage(rt, words, fault);
            Ended::of(Detail::Usage).status
        }
        NotRun::NoMemory => {
            print_fault(rt, &Detail::NoMemory);
            Ended::of(Detail::NoMemory).status
        }
    }
}

fn main(rt: HostRuntime) -> ExitCode {
    let words = match words_of(&rt) {
        Ok(words) => words,
        Err(reason) => return ExitCode::from(end_of(&rt, &[], reason)),
    };
    let status = match run_words(&rt, &rt, &words) {
        Ok(status) => status,
        Err(reason) => end_of(&rt, &words, reason),
    };
    ExitCode::from(status)
}
