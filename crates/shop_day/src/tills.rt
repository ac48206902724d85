//! The tills of a day: their room, and the work that each does in a thread of its own.
ghost use Rattle.std.specs.Prelude.{◌≡◌, ◌≤◌, ◌<◌, ◌+◌, ◌++◌, ◌∷◌, [], List, length, map, filter, reverse, All};
ghost use Rattle.std.specs.Prelude.{IfOk, OnOk, vec_len, vec_capacity};
ghost use Rattle.shop_core.specs.Answer.Requests.{Asked};
ghost use Rattle.till_calls.specs.Client.{TillRun};
ghost use Rattle.till_calls.specs.Shop.{seat_knows, seat_shop};
ghost use Rattle.till_calls.specs.Shop.{made_tills, numbers, shop_id, till_knows, till_number, till_shop, tills_know, tills_shop};
ghost use Rattle.sender_beside.specs.Tills as spec;
ghost use Rattle.sender_beside.specs.Tills.{asks_of, tills_of};
ghost use Rattle.shop_day.specs.TillJobs.{HasRoom, day_of, job_knows, told_in, tills_in};
ghost use Rattle.sender_beside.specs.Works.{Ran, Works};

use chain_disk::Disk;
use journal::StoreFault;
use ports::{Clock, Gate, NoMemory};
use record_codec::LAST_TILL;
use sender_session::Means;
use shop_core::{Ask, Reply};
use std::alloc::Global;
use std::sync::Wait;
use std::thread::{Threads, for_each_mut};
use till_calls::{SenderSeat, Shop, Till, Tills};

/// What a till is told in a day.
#[derive(Drop)]
pub struct TillDay {
    pub till: u8,
    /// One for each of its asks, once the day is done.
    pub answers: Vec<Result<Reply, StoreFault>>,
    /// How many items of the shop's list it saw at its end.
    pub saw: u64,
}

impl TillDay {
    /// A day with room for this many answers.
    pub fn new(alloc: Global, till: u8, asks: usize) -> Result<TillDay, NoMemory>
        ensures till { IfOk result (λ day. day.till ≡ till) }
        ensures room { IfOk result (λ day. (asks ≤ vec_capacity day.answers) × (day.answers.items ≡ [])) }
    {
        match Vec::with_capacity(alloc, asks) {
            Ok(answers) => Ok(TillDay {
                till,
                answers,
                saw: 0,
            }),
            Err(_) => Err(NoMemory),
        }
    }
}

/// A till at work.
#[derive(Drop)]
pub struct TillJob<D: Disk, C: Clock> {
    pub till: Till<D, C>,
    pub answers: Vec<Result<Reply, StoreFault>>,
    pub saw: u64,
}

/// The room of a day's tills: a day for each, their numbers, and a place for each that is at work.
#[derive(Drop)]
pub struct TillRoom<D: Disk, C: Clock> {
    pub days: Vec<TillDay>,
    pub numbers: Vec<u8>,
    pub jobs: Vec<TillJob<D, C>>,
}

fn has_asks(asks: &[Ask], till: u8) -> bool
    ensures { result ≡ spec.has_asks asks.now till }
{
    asks.iter().any(|ask| ask.till == till)
}

fn count_asks(asks: &[Ask], till: u8) -> usize
    ensures { result ≡ length (asks_of till asks.now) }
{
    asks.iter().filter(|ask| ask.till == till).count()
}

// Adds this till, where it asks for anything.
fn add_till(alloc: Global, asks: &[Ask], till: u8, days: &mut Vec<TillDay>) -> Result<(), NoMemory>
    requires { All (HasRoom asks.now) days.old.items }
    ensures till { OnOk result (map (λ d. d.till) days.new.items
        ≡ map (λ d. d.till) days.old.items ++ filter (spec.has_asks asks.now) (till ∷ [])) }
    ensures room { OnOk result (All (HasRoom asks.now) days.new.items) }
{
    if !has_asks(asks, till) {
        return Ok(());
    }
    let day = TillDay::new(alloc, till, count_asks(asks, till))?;
    days.push(day)?;
    Ok(())
}

// A day for each till of these asks, in order of number.
fn till_days(alloc: Global, asks: &[Ask]) -> Result<Vec<TillDay>, NoMemory>
    ensures tills { IfOk result (λ days. map (λ d. d.till) days.items ≡ tills_of asks.now) }
    ensures room { IfOk result (λ days. All (HasRoom asks.now) days.items) }
{
    let mut days = Vec::new(alloc);
    for before in 0..LAST_TILL {
        add_till(alloc, asks, before + 1, &mut days)?;
    }
    Ok(days)
}

// The tills' numbers, in order.
fn numbers_of(alloc: Global, days: &[TillDay]) -> Result<Vec<u8>, NoMemory>
    ensures { IfOk result (λ list. list.items ≡ map (λ d. d.till) days.now) }
{
    let mut list = Vec::with_capacity(alloc, days.len())?;
    for day in days {
        list.push_reserved(day.till);
    }
    Ok(list)
}

/// The room for the tills that ask for anything: all that is taken for them before their shop begins.
pub fn room_for<D: Disk, C: Clock>(alloc: Global, asks: &[Ask]) -> Result<TillRoom<D, C>, NoMemory>
    ensures tills { IfOk result (λ r. map (λ d. d.till) r.days.items ≡ tills_of asks.now) }
    ensures numbers { IfOk result (λ r. r.numbers.items ≡ tills_of asks.now) }
    ensures room { IfOk result (λ r. All (HasRoom asks.now) r.days.items) }
    ensures jobs { IfOk result (λ r. (r.jobs.items ≡ []) × (vec_len r.days ≤ vec_capacity r.jobs)) }
{
    let days = till_days(alloc, asks)?;
    let numbers = numbers_of(alloc, &days)?;
    let jobs = Vec::with_capacity(alloc, days.len())?;
    Ok(TillRoom {
        days,
        numbers,
        jobs,
    })
}

// Asks for one more, where it is the till's own, and keeps the answer.
fn ask_own<D: Disk, C: Clock, T: Gate, R: Wait>(
    means: Means<'_, R, T>,
    shop: &Shop<D, C>,
    till: &mut Till<D, C>,
    ask: &Ask,
    answers: &mut Vec<Result<Reply, StoreFault>>,
)
    requires own { till_shop till.old ≡ shop_id shop.now }
    requires room { length answers.old.items + length (asks_of (till_number till.old) (ask.now ∷ [])) ≤ vec_capacity answers.old }
    ensures same { (till_shop till.new ≡ till_shop till.old) × (till_number till.new ≡ till_number till.old) }
    ensures run { (before : List Asked) (start : _) →
        TillRun C.coming start (asks_of (till_number till.old) before) answers.old.items (till_knows till.old) →
        TillRun C.coming start (asks_of (till_number till.old) (before ++ ask.now ∷ [])) answers.new.items (till_knows till.new) }
    ensures count { length answers.new.items ≡ length answers.old.items + length (asks_of (till_number till.old) (ask.now ∷ [])) }
    ensures room { vec_capacity answers.new ≡ vec_capacity answers.old }
{
    let number = till.number();
    if ask.till == number {
        means.gate.before(means.rt, number, ask.serial);
        let answer = shop.ask(means.rt, means.alloc, till, ask.serial, &ask.request);
        answers.push_reserved(answer);
        means.gate.after(means.rt, number, ask.serial);
    }
}

// Does one till's work: asks for all that is its own, in order, and looks at the count.
fn work<D: Disk, C: Clock, T: Gate, R: Wait>(
    means: Means<'_, R, T>,
    shop: &Shop<D, C>,
    asks: &[Ask],
    job: &mut TillJob<D, C>,
)
    requires own { till_shop job.old.till ≡ shop_id shop.now }
    requires room { HasRoom asks.now (day_of job.old) }
    ensures same { (till_shop job.new.till ≡ till_shop job.old.till) × (till_number job.new.till ≡ till_number job.old.till) }
    ensures works { Works C.coming (till_knows job.old.till) (asks_of (till_number job.old.till) asks.now) job.new.answers.items
        job.new.saw (till_knows job.new.till) }
{
    for ask in asks {
        ask_own(means, shop, &mut job.till, ask, &mut job.answers);
    }
    job.saw = shop.count_now(&mut job.till);
}

/// Runs the tills at the same time, each in a thread of its own.
pub(crate) fn work_all<D: Disk + Send, C: Clock + Send, T: Gate + Sync, R: Threads + Wait + Sync>(
    means: Means<'_, R, T>,
    shop: &Shop<D, C>,
    asks: &[Ask],
    jobs: &mut Vec<TillJob<D, C>>,
)
    requires own { All (λ j. till_shop j.till ≡ shop_id shop.now) jobs.old.items }
    requires room { All (λ j. HasRoom asks.now (day_of j)) jobs.old.items }
    ensures ran { Ran C.coming asks.now (tills_in (reverse (map day_of jobs.old.items)))
        (reverse (map job_knows jobs.old.items)) (map told_in (reverse (map day_of jobs.new.items)))
        (reverse (map job_knows jobs.new.items)) }
    ensures own { All (λ j. till_shop j.till ≡ shop_id shop.now) jobs.new.items }
    ensures len { vec_len jobs.new ≡ vec_len jobs.old }
{
    let threads = jobs.len().max(1);
    for_each_mut(
        means.rt,
        jobs,
        threads,
        &move |_, job| work(means, shop, asks, job),
    );
}

/// Gives each till its work, the last till first.
pub(crate) fn hand_out<D: Disk, C: Clock>(
    tills: &mut Tills<D, C>,
    days: &mut Vec<TillDay>,
    jobs: &mut Vec<TillJob<D, C>>,
)
    requires numbers { numbers tills.old ≡ map (λ d. d.till) days.old.items }
    requires jobs { (jobs.old.items ≡ []) × (vec_len days.old ≤ vec_capacity jobs.old) }
    ensures days { reverse (map day_of jobs.new.items) ≡ days.old.items }
    ensures knows { reverse (map job_knows jobs.new.items) ≡ tills_know tills.old }
    ensures out { (days.new.items ≡ []) × (numbers tills.new ≡ []) × (tills_know tills.new ≡ []) }
    ensures room { vec_capacity days.new ≡ vec_capacity days.old }
    ensures same { (tills_shop tills.new ≡ tills_shop tills.old) × (made_tills tills.new ≡ made_tills tills.old) }
    ensures own { All (λ j. till_shop j.till ≡ tills_shop tills.old) jobs.new.items }
{
    while let Some(day) = days.pop() {
        let Some(till) = tills.pull() else {
            unreachable!()
        };
        let TillDay {
            till: _,
            answers,
            saw,
        } = day;
        jobs.push_reserved(TillJob { till, answers, saw });
    }
}

/// Takes the tills back, the last job first. Each tells the seat of how many items it knows.
pub(crate) fn hand_in<D: Disk, C: Clock>(
    shop: &Shop<D, C>,
    tills: &mut Tills<D, C>,
    mut jobs: Vec<TillJob<D, C>>,
    days: &mut Vec<TillDay>,
    seat: &mut SenderSeat<D, C>,
)
    requires own { All (λ j. till_shop j.till ≡ tills_shop tills.old) jobs.items }
    requires shop { (tills_shop tills.old ≡ shop_id shop.now) × (seat_shop seat.old ≡ shop_id shop.now) }
    requires out { (days.old.items ≡ []) × (numbers tills.old ≡ []) × (tills_know tills.old ≡ []) }
    requires room { (vec_len jobs ≤ vec_capacity days.old) × (vec_len jobs ≤ made_tills tills.old) }
    ensures days { days.new.items ≡ reverse (map day_of jobs.items) }
    ensures knows { tills_know tills.new ≡ reverse (map job_knows jobs.items) }
    ensures same { (tills_shop tills.new ≡ tills_shop tills.old) × (made_tills tills.new ≡ made_tills tills.old) }
    ensures seat { (seat_shop seat.new ≡ seat_shop seat.old)
        × (seat_knows seat.new ≡ record (seat_knows seat.old) { least = (seat_knows seat.new).least }) }
    ensures told { All (λ k. k.least ≤ (seat_knows seat.new).least) (tills_know tills.new) }
{
    while let Some(job) = jobs.pop() {
        let TillJob {
            mut till,
            answers,
            saw,
        } = job;
        let number = till.number();
        shop.tell_seat(&mut till, seat);
        tills.hand_back(till);
        days.push_reserved(TillDay {
            till: number,
            answers,
            saw,
        });
    }
}
