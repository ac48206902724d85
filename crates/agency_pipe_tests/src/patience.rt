//! Pauses before calls that follow failed ones, by a clock of the test's own.
use crate::sales::batch;
use agency_pipe::Patient;
use agency_port::{Agency, Seen, SeenList, ToldAgency, ToldAnswer, ToldAnswers};
use batches::{Batch, Huellas};
use std::alloc::Global;
use std::cell::Cell;
use std::io;
use std::test::Fail;
use std::time::{Clock, Duration};
use test_rows::holds;

// The seconds of each pause, a decimal digit each, the last one last.
#[derive(Drop)]
struct Pauses {
    digits: Cell<u64>,
}

impl Clock for Pauses {
    fn monotonic(&self) -> io::Result<Duration> {
        Ok(Duration::from_secs(0))
    }

    fn since_1970(&self) -> io::Result<Duration> {
        Ok(Duration::from_secs(0))
    }

    fn sleep(&self, duration: Duration) {
        let digits = self.digits.get();
        self.digits
            .set(digits.wrapping_mul(10).wrapping_add(duration.as_secs()));
    }
}

type PatientAgency<'a> = Patient<'a, Pauses, ToldAgency>;

// This many times a submission, and then a consultation.
fn ask(
    alloc: Global,
    agency: &mut PatientAgency<'_>,
    batch: &Batch,
    times: u32,
) -> Result<(), Fail> {
    let huellas = Huellas::of(alloc, batch.as_slice())?;
    for _ in 0..times {
        let _ = agency.submit(alloc, batch);
        let _ = agency.consult(alloc, &huellas);
    }
    Ok(())
}

// The pauses before this many pairs of calls to an agency that gives these answers, and then none.
fn pauses_before(alloc: Global, answers: Vec<ToldAnswer>, times: u32) -> Result<u64, Fail> {
    let clock = Pauses {
        digits: Cell::new(0),
    };
    let told = ToldAgency::new(alloc, ToldAnswers::of(answers));
    let mut agency = Patient::new(&clock, told);
    ask(alloc, &mut agency, &batch(alloc)?, times)?;
    Ok(clock.digits.get())
}

#[test]
fn failed_calls_are_followed_by_pauses(rt: HostRuntime) -> Result<(), Fail> {
    let pauses = pauses_before(rt.alloc(), Vec::new(rt.alloc()), 4)?;
    holds(pauses == 1_248_888, "eight failed calls")
}

// What the agency says of this many records.
fn seen(alloc: Global, records: usize) -> Result<ToldAnswer, Fail> {
    let mut list = Vec::new(alloc);
    for _ in 0..records {
        list.push(Seen::NotSeen)?;
    }
    Ok(ToldAnswer::Consulted(SeenList::of(list)))
}

#[test]
fn no_pause_follows_a_call_that_succeeds(rt: HostRuntime) -> Result<(), Fail> {
    // None that fits the first submission, and one that fits the consultation after it.
    let mut answers = Vec::new(rt.alloc());
    answers.push(seen(rt.alloc(), 0)?)?;
    answers.push(seen(rt.alloc(), 1)?)?;
    let pauses = pauses_before(rt.alloc(), answers, 2)?;
    holds(pauses == 11, "the second of four succeeds")
}
