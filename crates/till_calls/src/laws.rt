//! What holds of runs alone, by whatever clock.
ghost use Rattle.std.specs.Prelude.{ℕ, Option};
ghost use Rattle.till_calls.specs.Laws.{AddsForNoOther, AddsWhatIsTaken, OwnsRecordsAndStops, OwnsWithinKnown, ToldAtTheEnd};
ghost use Rattle.till_calls.specs.Laws.{AsksFromBefore, FitsBefore, SeesOnTwice};

use ports::Clock;

/// A till's run, read off the shop's list at the end: each reply is the answer at a beginning of that list, none shorter than the
/// one before, and what was taken stands there as the next entry.
pub fn a_run_is_told_at_the_end<C: Clock>()
    //= Each reply is the answer at a beginning of the list at the end, none shorter than the one before.
    //= No body: a law over definitions, which has no body
    ensures { (coming : C → ℕ → Option ℕ) → ToldAtTheEnd coming }
{}

/// The records of a till since the start are those that its run was told as taken, in that order, where no other pass owns one.
pub fn a_till_adds_what_is_taken<C: Clock>()
    //= Where no other pass owns a record of the till, its records since the start are exactly those that it was told
    //= as taken, in order.
    //= No body: a law over definitions, which has no body
    ensures { (coming : C → ℕ → Option ℕ) → AddsWhatIsTaken coming }
{}

/// A till's run leaves it no record of another till.
pub fn a_till_adds_for_no_other<C: Clock>()
    //= A till's run adds no record of another till.
    //= No body: a law over definitions, which has no body
    ensures { (coming : C → ℕ → Option ℕ) → AddsForNoOther coming }
{}

/// All that a till's run leaves it is a record of its own, or a stop over one.
pub fn a_till_owns_records_and_stops<C: Clock>()
    //= A new till's run leaves it nothing but records of its own, and the stop over one.
    //= No body: a law over definitions, which has no body
    ensures { (coming : C → ℕ → Option ℕ) → OwnsRecordsAndStops coming }
{}

/// All that a till's run leaves it stands within as many items as it knows of.
pub fn a_till_owns_within_what_it_knows<C: Clock>()
    //= What a till owns lies within as many items as it knows of.
    //= No body: a law over definitions, which has no body
    ensures { (coming : C → ℕ → Option ℕ) → OwnsWithinKnown coming }
{}

/// Who sees on twice sees on.
pub fn who_sees_on_twice_sees_on<C: Clock>()
    //= Who sees on twice sees on.
    //= No body: a law over definitions, which has no body
    ensures { SeesOnTwice C }
{}

/// An ask of a till that saw on is one of what it knew before: what it saw between its asks changes nothing of its run.
pub fn an_ask_goes_on_from_what_was_known_before<C: Clock>()
    //= What a till sees on to between its asks changes nothing of its run.
    //= No body: a law over definitions, which has no body
    ensures { (coming : C → ℕ → Option ℕ) → AsksFromBefore coming }
{}

/// A list that fits what a till has seen on to fits what it knew before.
pub fn a_list_fits_what_was_known_before<C: Clock>()
    //= A list at the end that fits what a till knows fits what it knew.
    //= No body: a law over definitions, which has no body
    ensures { FitsBefore C }
{}
