//! Why an ask is refused, at a history and a reading of the clock: the order of the refusals.
ghost use Rattle.std.specs.Prelude.{◌≡◌, ◌≤◌, length, option_map, position, not, None};
ghost use Rattle.std.specs.List.{position_from};
ghost use Rattle.record_fields.specs.Checks.{draft_fault};
ghost use Rattle.record_fields.specs.declared.checks.TheConstants.{MAX_REFS};
ghost use Rattle.tax_lines.specs.Breakdown.{is_other};
ghost use Rattle.series.specs.declared.numbers.InvoiceId.{InvoiceId as AnyId};
ghost use Rattle.shop_core.specs.Answer.Refusals as spec;
ghost use Rattle.shop_core.specs.Standing as standing;
ghost use Rattle.shop_core.specs.declared.answer.refusals.Refusal.TheVariants as refusal;

use crate::{Asking, MAX_RECORDS, Request, State};
use record_codec::Version;
use record_fields::{Draft, DraftFault, check_draft};
use series::{InvoiceId, NumSerie};
use stamps::{CLOCK_FROM, CLOCK_TO};

/// Why nothing is done for an ask: the first that holds, in this order.
#[derive(Clone, Copy, Debug, PartialEq, Eq)]
pub enum Refusal {
    /// The till has an entry with a greater serial; `last` is its greatest.
    Passed { last: u32 },
    /// The draft of a sale or a fix lacks what its kind needs.
    BadDraft(DraftFault),
    /// The line at this index of a sale or a fix, from 0, is its first one with another tax than IVA, and the version is One,
    /// whose files have lines of IVA alone.
    OldFile { index: u8 },
    /// The number of a fix or a cancel is that of no alta of the chain.
    Unknown,
    /// The invoice is cancelled, by the record at this place.
    Cancelled { place: u32 },
    /// This reference of an F3, from 0, is no held simplified invoice of the chain.
    RefNotSimplified { index: u32 },
    /// The chain has 1,000,000 records.
    ChainFull,
    /// The clock's seconds are outside 2024 to 2099.
    ClockRange { now: u64 },
    /// The record's Huella stands at this place already.
    HuellaTwice { place: u32 },
}

fn passed(state: &State, ask: &Asking) -> Option<Refusal>
    ensures { result ≡ spec.passed state.now.entries ask.now.till ask.now.serial }
{
    let last = state.last_serial(ask.till);
    if ask.serial < last {
        return Some(Refusal::Passed { last });
    }
    None
}

fn draft_refusal(draft: &Draft) -> Option<Refusal>
    ensures { result ≡ option_map refusal.BadDraft (draft_fault draft.now) }
{
    match check_draft(draft) {
        Ok(()) => None,
        Err(fault) => Some(Refusal::BadDraft(fault)),
    }
}

fn bad_draft(request: &Request) -> Option<Refusal>
    ensures { result ≡ spec.bad_draft request.now }
{
    match request {
        Request::Sale { draft, .. } => draft_refusal(draft),
        Request::Fix { draft, .. } => draft_refusal(draft),
        Request::Cancel { .. } => None,
    }
}

fn other_tax(draft: &Draft) -> Option<Refusal>
    ensures { result ≡ option_map refusal.OldFile (position is_other draft.now.lines) }
{
    let _few = draft.lines.lines();
    match draft.lines.first_other() {
        None => None,
        Some(i) => Some(Refusal::OldFile { index: i as u8 }),
    }
}

fn old_file(state: &State, request: &Request) -> Option<Refusal>
    ensures { result ≡ spec.old_file state.now.version request.now }
{
    match state.version() {
        Version::Two => None,
        Version::One => match request {
            Request::Sale { draft, .. } => other_tax(draft),
            Request::Fix { draft, .. } => other_tax(draft),
            Request::Cancel { .. } => None,
        },
    }
}

fn unknown_num(state: &State, num: &NumSerie) -> Option<Refusal>
    ensures { result ≡ spec.unless (standing.is_known state.now.entries num.now) refusal.Unknown }
{
    if state.is_known(num) {
        None
    } else {
        Some(Refusal::Unknown)
    }
}

fn unknown(state: &State, request: &Request) -> Option<Refusal>
    ensures { result ≡ spec.unknown state.now.entries request.now }
{
    match request {
        Request::Sale { .. } => None,
        Request::Fix { num, .. } => unknown_num(state, num),
        Request::Cancel { num } => unknown_num(state, num),
    }
}

fn cancelled_num(state: &State, num: &NumSerie) -> Option<Refusal>
    ensures { result ≡ option_map refusal.Cancelled (standing.cancelled_at state.now.entries num.now) }
{
    match state.cancelled_at(num) {
        None => None,
        Some(place) => Some(Refusal::Cancelled { place }),
    }
}

fn cancelled(state: &State, request: &Request) -> Option<Refusal>
    ensures { result ≡ spec.cancelled state.now.entries request.now }
{
    match request {
        Request::Sale { .. } => None,
        Request::Fix { num, .. } => cancelled_num(state, num),
        Request::Cancel { num } => cancelled_num(state, num),
    }
}

fn first_bad_ref(state: &State, refs: &[InvoiceId]) -> Option<u32>
    requires { length refs.now ≤ MAX_REFS }
    ensures { result ≡ position_from (λ (id : AnyId). not (standing.is_simplified_held state.now.entries id)) 0 refs.now }
{
    let mut rest = refs;
    let mut index: u32 = 0;
    while let [id, after @ ..] = rest {
        if !state.is_simplified_held(id) {
            return Some(index);
        }
        index += 1;
        rest = after;
    }
    None
}

fn bad_ref_in(state: &State, draft: &Draft) -> Option<Refusal>
    requires { length draft.now.refs ≤ MAX_REFS }
    ensures { result ≡ spec.bad_ref_in state.now.entries draft.now }
{
    if !draft.kind.is_f3() {
        return None;
    }
    match first_bad_ref(state, draft.refs.as_slice()) {
        None => None,
        Some(index) => Some(Refusal::RefNotSimplified { index }),
    }
}

fn bad_ref(state: &State, request: &Request) -> Option<Refusal>
    requires { spec.bad_draft request.now ≡ None }
    ensures { result ≡ spec.bad_ref state.now.entries request.now }
{
    match request {
        Request::Sale { draft, .. } => bad_ref_in(state, draft),
        Request::Fix { draft, .. } => bad_ref_in(state, draft),
        Request::Cancel { .. } => None,
    }
}

fn full(state: &State) -> Option<Refusal>
    ensures { result ≡ spec.full state.now.entries }
{
    if state.records() < MAX_RECORDS {
        None
    } else {
        Some(Refusal::ChainFull)
    }
}

fn out_of_range(seconds: u64) -> Option<Refusal>
    ensures { result ≡ spec.out_of_range seconds }
{
    if CLOCK_FROM <= seconds && seconds <= CLOCK_TO {
        None
    } else {
        Some(Refusal::ClockRange { now: seconds })
    }
}

/// The first refusal that needs no record.
pub(crate) fn early_refusal(state: &State, ask: &Asking, seconds: u64) -> Option<Refusal>
    ensures { result ≡ spec.early_refusal state.now.version state.now.entries ask.now seconds }
{
    if let Some(why) = passed(state, ask) {
        return Some(why);
    }
    if let Some(why) = bad_draft(ask.request) {
        return Some(why);
    }
    if let Some(why) = old_file(state, ask.request) {
        return Some(why);
    }
    if let Some(why) = unknown(state, ask.request) {
        return Some(why);
    }
    if let Some(why) = cancelled(state, ask.request) {
        return Some(why);
    }
    if let Some(why) = bad_ref(state, ask.request) {
        return Some(why);
    }
    if let Some(why) = full(state) {
        return Some(why);
    }
    out_of_range(seconds)
}
