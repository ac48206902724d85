//! What an entry changes in the months' rows.
ghost use Rattle.std.specs.Prelude.{◌≡◌, ◌+◌, ◌<◌, ◌≤◌, ◌++◌, ◌∷◌, [], IfOk, OnOk, option_to_list, length, Some, not, ◌&&◌, MatchOption};
ghost use Rattle.record_codec.specs.declared.entry.Entry.TheVariants as entry_of;
ghost use Rattle.record_codec.specs.declared.entry.TheConstants.{MAX_NOTES};
ghost use Rattle.record_fields.specs.declared.records.Sealed.{Sealed as AnySealed};
ghost use Rattle.shop_core.specs.History.{noted, recs, sealed_at};
ghost use Rattle.shop_core.specs.Legal.{Continues};
ghost use Rattle.shop_core.specs.Places.{is_place, last_place, settled_place};
ghost use Rattle.shop_core.specs.Standing.{has_num, is_incorrecto, last_accepted};
ghost use Rattle.statements.specs.Postings.{AreNoted, ArePostings, IsPlan, IsPostingAt, IsPostingFor, IsPostingOf};

use crate::postings::{Posting, of_one, posting_of};
use ports::NoMemory;
use record_codec::Entry;
use record_fields::{Line, Sealed};
use series::NumSerie;
use shop_core::{State, a_history_notes_its_records, a_line_settles};
use std::alloc::Global;

/// What is added to the months' rows, and what is taken out of them then.
#[derive(Drop)]
pub(crate) struct Plan {
    pub put: Vec<Posting>,
    pub drop: Vec<Posting>,
}

// The posting of the record by which an invoice is held, where it is an alta.
fn posting_before(alloc: Global, state: &State, num: &NumSerie) -> Result<Option<Posting>, NoMemory>
    ensures { IfOk result (λ found. IsPostingFor (last_accepted state.now.entries num.now) found) }
{
    match state.last_accepted(alloc, num)? {
        None => Ok(None),
        Some((_, held)) => posting_of(alloc, &held.body),
    }
}

// What a record changes: its invoice is held by it, and no longer by the last accepted record before it.
fn plan_record(
    alloc: Global,
    state: &State,
    till: u8,
    serial: u32,
    sealed: &Sealed,
) -> Result<Plan, NoMemory>
    ensures { IfOk result (λ plan. IsPlan state.now.entries
        (state.now.entries ++ entry_of.Rec till serial sealed.now ∷ []) plan.put.items plan.drop.items) }
{
    state.is_legal();
    a_history_notes_its_records();
    let before = posting_before(alloc, state, &sealed.body.id().num)?;
    let now = posting_of(alloc, &sealed.body)?;
    Ok(Plan {
        put: of_one(alloc, now)?,
        drop: of_one(alloc, before)?,
    })
}

// Whether a line refuses its record.
fn is_refusal(line: Line) -> bool
    ensures { result ≡ is_incorrecto line }
{
    match line {
        Line::Correcto | Line::ConErrores(_) => false,
        Line::Incorrecto(_) => true,
    }
}

// Whether the record at a place is one of the invoice's, and this line accepts it.
fn is_settling(state: &State, place: u32, line: Line, num: &NumSerie) -> bool
    ensures { (s : AnySealed) → sealed_at state.now.entries place ≡ Some s →
        result ≡ (has_num num.now s && not (is_incorrecto line)) }
{
    match state.head(place) {
        None => false,
        Some(head) => head.id.num == *num && !is_refusal(line),
    }
}

// Whether the invoice's last record stands at this place.
fn is_last(state: &State, place: u32, num: &NumSerie) -> bool
    ensures { result ≡ is_place (last_place (recs state.now.entries) num.now) place }
{
    match state.last_place(num) {
        None => false,
        Some(last) => last == place,
    }
}

// The place of an invoice's last record that its line accepts, where these lines are noted too.
fn settled_with(state: &State, lines: &[Line], num: &NumSerie) -> Option<u32>
    requires { length (noted state.now.entries) + length lines.now ≤ length (recs state.now.entries) }
    ensures { result ≡ settled_place (recs state.now.entries) (noted state.now.entries ++ lines.now) num.now }
{
    a_line_settles();
    let _records = state.records();
    let first = state.noted() + 1;
    let mut k = lines.len();
    while k > 0 {
        k -= 1;
        let place = first + k as u32;
        if is_settling(state, place, lines[k], num) {
            return Some(place);
        }
    }
    state.settled_place(num)
}

// The posting of the record at a place.
fn posting_at(alloc: Global, state: &State, place: Option<u32>) -> Result<Option<Posting>, NoMemory>
    requires { MatchOption place (Unit {0}) (λ n. (s : AnySealed) × (sealed_at state.now.entries n ≡ Some s)) }
    ensures { IfOk result (IsPostingAt state.now.entries place) }
{
    match place {
        None => Ok(None),
        Some(place) => match state.sealed(alloc, place)? {
            None => unreachable!(),
            Some(sealed) => posting_of(alloc, &sealed.body),
        },
    }
}

fn push(postings: &mut Vec<Posting>, posting: Option<Posting>) -> Result<(), NoMemory>
    ensures { OnOk result (postings.new.items ≡ postings.old.items ++ option_to_list posting) }
{
    if let Some(posting) = posting {
        postings.push(posting)?;
    }
    Ok(())
}

// What one line more changes, of the record after those that have lines: one that refuses its invoice's last record takes it
// out and brings back the last one that its line accepts. No other line has a record decoded.
fn note(
    alloc: Global,
    state: &State,
    before: &[Line],
    line: Line,
    plan: &mut Plan,
) -> Result<(), NoMemory>
    requires within { length (noted state.now.entries) + length before.now < length (recs state.now.entries) }
    requires plan { AreNoted state.now.entries before.now plan.old.put.items plan.old.drop.items }
    ensures { OnOk result (AreNoted state.now.entries (before.now ++ line ∷ []) plan.new.put.items plan.new.drop.items) }
{
    a_line_settles();
    if !is_refusal(line) {
        return Ok(());
    }
    let _records = state.records();
    let place = state.noted() + before.len() as u32 + 1;
    let num = match state.head(place) {
        None => unreachable!(),
        Some(head) => head.id.num,
    };
    if !is_last(state, place, &num) {
        return Ok(());
    }
    let out = posting_at(alloc, state, Some(place))?;
    let back = posting_at(alloc, state, settled_with(state, before, &num))?;
    push(&mut plan.drop, out)?;
    push(&mut plan.put, back)
}

// What these lines change, noted after those of the history.
fn plan_notes(alloc: Global, state: &State, lines: &[Line]) -> Result<Plan, NoMemory>
    requires { length (noted state.now.entries) + length lines.now ≤ length (recs state.now.entries) }
    ensures { IfOk result (λ plan. AreNoted state.now.entries lines.now plan.put.items plan.drop.items) }
{
    let mut plan = Plan {
        put: Vec::new(alloc),
        drop: Vec::new(alloc),
    };
    for i in 0..lines.len() {
        note(alloc, state, &lines[..i], lines[i], &mut plan)?;
    }
    Ok(plan)
}

// The same as the entry of the next lines.
fn plan_entry(alloc: Global, state: &State, first: u32, lines: &[Line]) -> Result<Plan, NoMemory>
    requires few { length lines.now ≤ MAX_NOTES }
    requires within { length (noted state.now.entries) + length lines.now ≤ length (recs state.now.entries) }
    ensures { IfOk result (λ plan. IsPlan state.now.entries
        (state.now.entries ++ entry_of.Notes first lines.now ∷ []) plan.put.items plan.drop.items) }
{
    let _first = first;
    plan_notes(alloc, state, lines)
}

/// What an entry changes that continues the history.
pub(crate) fn plan_of(alloc: Global, state: &State, entry: &Entry) -> Result<Plan, NoMemory>
    requires { Continues state.now.version state.now.issuer state.now.entries entry.now }
    ensures { IfOk result (λ plan. IsPlan state.now.entries (state.now.entries ++ entry.now ∷ []) plan.put.items plan.drop.items) }
{
    match entry {
        Entry::Rec {
            till,
            serial,
            sealed,
        } => plan_record(alloc, state, *till, *serial, sealed),
        Entry::Notes { first, lines } => plan_entry(alloc, state, *first, lines.as_slice()),
    }
}
