//! What is to be done for an ask, at a history and a reading of the clock.
ghost use Rattle.std.specs.Prelude.{◌≡◌, IfOk, max, None};
ghost use Rattle.record_codec.specs.declared.entry.Entry.{Entry as AnyEntry};
ghost use Rattle.shop_core.specs.Answer.Plans as spec;
ghost use Rattle.shop_core.specs.Legal.{Continues};
ghost use Rattle.shop_core.specs.Answer.Refusals.{out_of_range};
ghost use Rattle.shop_core.specs.History.{last_seconds};
ghost use Rattle.shop_core.specs.declared.answer.Planned.TheVariants as planned_as;
ghost use Rattle.stamps.specs.Stamp.{moment_at};

use crate::answer::making::made_sealed;
use crate::answer::refusals::early_refusal;
use crate::{Ask, Asking, Planned, Refusal, State};
use ports::NoMemory;
use record_codec::Entry;
use series::series_is_read_back;
use stamps::{Stamp, stamp_at};
use std::alloc::Global;

// The moment of the next record, with the last one's seconds: moments never fall.
pub(crate) fn next_moment(state: &State, last: u64, seconds: u64) -> Stamp
    requires last { last ≡ last_seconds state.now.entries }
    requires in_range { out_of_range seconds ≡ None }
    ensures { result ≡ moment_at (max seconds (last_seconds state.now.entries)) }
{
    state.is_legal();
    let Ok(moment) = stamp_at(seconds.max(last)) else {
        unreachable!()
    };
    moment
}

/// What is to be done for an ask, with the clock at these seconds since 1970: the kept receipt where its till and serial
/// stand in the history; else the first refusal that holds; else the entry that the history gains.
pub fn plan(alloc: Global, state: &State, ask: &Ask, seconds: u64) -> Result<Planned, NoMemory>
    //= An answer is the definition's, out of memory aside: the kept receipt where the till and serial stand in the
    //= history, else the first refusal that holds, else the record with its number, flags, link and Huella.
    ensures answer { IfOk result
        (λ planned. planned ≡ spec.answer state.now.version state.now.issuer state.now.entries ask.now seconds) }
    //= What is made continues the history.
    //= No body: what breaks it breaks `answer` too, by the law `what_is_made_continues`
    ensures continues { IfOk result
        (λ planned. (entry : AnyEntry) → planned ≡ planned_as.Made entry →
        Continues state.now.version state.now.issuer state.now.entries entry) }
{
    plan_asking(alloc, state, &ask.borrowed(), seconds)
}

/// The same for an ask whose request stays with who asks.
pub fn plan_asking(
    alloc: Global,
    state: &State,
    ask: &Asking,
    seconds: u64,
) -> Result<Planned, NoMemory>
    //= An ask whose request stays with who asks is answered as any other.
    //= No body: `plan` calls it, and has bodies
    ensures answer { IfOk result
        (λ planned. planned ≡ spec.answer state.now.version state.now.issuer state.now.entries ask.now seconds) }
    ensures continues { IfOk result
        (λ planned. (entry : AnyEntry) → planned ≡ planned_as.Made entry →
        Continues state.now.version state.now.issuer state.now.entries entry) }
{
    state.is_legal();
    if let Some(receipt) = state.kept(ask.till, ask.serial) {
        return Ok(Planned::Again(receipt));
    }
    if let Some(why) = early_refusal(state, ask, seconds) {
        return Ok(Planned::Refused(why));
    }
    let tail = state.tail();
    let moment = next_moment(state, tail.seconds, seconds);
    let sealed = made_sealed(alloc, state, ask.request, tail.link, moment)?;
    if let Some(place) = state.place_of(&sealed.huella) {
        return Ok(Planned::Refused(Refusal::HuellaTwice { place }));
    }
    ask.is_valid();
    series_is_read_back();
    Ok(Planned::Made(Entry::Rec {
        till: ask.till,
        serial: ask.serial,
        sealed,
    }))
}
