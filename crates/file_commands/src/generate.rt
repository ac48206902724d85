//! The command `generate`: runs the generator's commands on a memory disk and prints the summary of the chain.
ghost use Rattle.std.specs.Prelude.{◌≡◌, ◌≤◌, ℕ, [], None, Some, IfOk, IsTrue, true};
ghost use Rattle.ports.specs.Counting.{counting};
ghost use Rattle.ports.specs.Sinks.{this_sink};
ghost use Rattle.chain_disk.specs.MemDisk.{on_disk_of};
ghost use Rattle.journal.specs.Journal.{stopped_of};
ghost use Rattle.record_fields.specs.declared.versions.Version.TheVariants.{Two};
ghost use Rattle.chain_store.specs.Store.{Ready, clock_of, journal_of, state_of};
ghost use Rattle.report.specs.Status.{status_of};
ghost use Rattle.file_commands.specs.Generate.{GenerateEnds, Generated, IsSummary};
ghost use Rattle.file_commands.specs.Generate as spec;
ghost use Rattle.chain_store.specs.Replies.{AllReplied};
ghost use Rattle.file_commands.specs.declared.generate.TheConstants.{START, STEP};
ghost use Rattle.file_commands.specs.declared.generated.TheConstants.{MAX_GENERATED};

use crate::generated::{MAX_GENERATED, commands};
use crate::output::print;
use chain_disk::MemDisk;
use chain_store::{Store, run_commands};
use journal::{Journal, StoreFault};
use parties::Nif;
use ports::{Clock, CountingClock, NoMemory, Sink};
use record_codec::Version;
use record_fields::Text;
use report::{Detail, Ended, summary_text};
use shop_core::{Reply, State};
use std::alloc::Global;

/// The first reading of the clock, in seconds since 1970: 01-01-2025, 10:00 on the peninsula.
pub const START: u64 = 1_735_722_000;
/// How many seconds each reading is after the one before.
pub const STEP: u64 = 1;

// The generated chain's issuer.
fn issuer() -> Nif
    ensures { result ≡ spec.issuer }
{
    match Nif::read("89890001K") {
        Ok(nif) => nif,
        Err(_) => unreachable!(),
    }
}

// The store of an empty memory disk, which nothing but lack of memory keeps from being begun.
fn begun(alloc: Global) -> Result<Store<MemDisk, CountingClock>, NoMemory>
    ensures ready { IfOk result (λ store. Ready true on_disk_of store) }
    ensures going_on { IfOk result (λ store. stopped_of (journal_of store) ≡ None) }
    ensures issuer { IfOk result (λ store. (state_of store).issuer ≡ spec.issuer) }
    ensures version { IfOk result (λ store. (state_of store).version ≡ Two) }
    ensures empty { IfOk result (λ store. (state_of store).entries ≡ []) }
    ensures clock { IfOk result (λ store. (k : ℕ) →
        ⟦<CountingClock as Clock>⟧.coming (clock_of store) k ≡ Some (counting START STEP k)) }
{
    let issuer = issuer();
    let disk = MemDisk::new(alloc, Vec::new(alloc), Vec::new(alloc));
    let clock = CountingClock::new(START, STEP);
    let state = State::empty(alloc, &issuer, Version::NEWEST);
    match Journal::create(disk, &issuer, Version::NEWEST) {
        Ok(journal) => Ok(Store::of(state, journal, clock)),
        Err(_) => Err(NoMemory),
    }
}

fn all_replied(replies: &[Result<Reply, StoreFault>]) -> bool
    ensures { IsTrue result → AllReplied replies.now }
{
    replies.iter().all(|reply| reply.is_ok())
}

// The history after the first n commands. A memory disk fails for lack of memory alone.
fn generated(alloc: Global, n: u32) -> Result<State, NoMemory>
    requires { n ≤ MAX_GENERATED }
    ensures { IfOk result (λ state. Generated n state.entries) }
{
    let asks = commands(alloc, n)?;
    let mut replies = Vec::new(alloc);
    replies.reserve(asks.len())?;
    let mut store = begun(alloc)?;
    run_commands(alloc, &mut store, &asks, &mut replies);
    if !all_replied(&replies) {
        return Err(NoMemory);
    }
    let (state, _, _) = store.into_parts();
    Ok(state)
}

fn summary(alloc: Global, n: u32) -> Result<Text, NoMemory>
    requires { n ≤ MAX_GENERATED }
    ensures { IfOk result (λ text. IsSummary n text) }
{
    let state = generated(alloc, n)?;
    summary_text(alloc, &state)
}

fn generate<K: Sink>(alloc: Global, n: u32, sink: &mut K) -> Detail
    requires { n ≤ MAX_GENERATED }
    ensures { GenerateEnds n (this_sink K.taken K.faults sink.old sink.new) result }
{
    match summary(alloc, n) {
        Ok(text) => print(text.as_slice(), Detail::Done, sink),
        Err(_) => Detail::NoMemory,
    }
}

/// Runs the first n commands of the generator from the empty history on a memory disk, and prints the summary of the chain.
pub fn generate_cmd<K: Sink>(alloc: Global, n: u32, sink: &mut K) -> Ended
    requires { n ≤ MAX_GENERATED }
    ensures status { result.status ≡ status_of result.detail }
    //= `generate` prints the summary of the chain that its first N commands make from the empty history, at its own
    //= readings of the clock.
    ensures ends { GenerateEnds n (this_sink K.taken K.faults sink.old sink.new) result.detail }
{
    Ended::of(generate(alloc, n, sink))
}
