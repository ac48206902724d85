//! The listing of chosen records of a history, and its chain line.
ghost use Rattle.std.specs.Prelude.{◌≡◌, ◌++◌, ◌∷◌, [], OnOk, IfOk, Some, false};
ghost use Rattle.std.specs.Option.{option_map_or};
ghost use Rattle.shop_core.specs.History.{recs, sealed_at};
ghost use Rattle.shop_core.specs.Places.{is_place, last_place};
ghost use Rattle.shop_core.specs.Standing.{is_incorrecto};
ghost use Rattle.report.specs.Chosen as spec;

use crate::pieces::put_chain_line;
use crate::records::put_record;
use ports::NoMemory;
use record_fields::{Line, Sealed, Text};
use series::NumSerie;
use shop_core::State;
use std::alloc::{AllocError, Global};

/// Which records of a history are listed.
#[derive(Clone, Copy, Debug, PartialEq, Eq)]
pub enum Choice {
    /// Each record.
    All,
    /// Those that have no line yet.
    Waiting,
    /// Those that were refused, where no later record is of the same invoice.
    Refused,
}

// Whether the invoice's last record stands at this place.
fn is_last(state: &State, place: u32, num: &NumSerie) -> bool
    ensures { result ≡ is_place (last_place (recs state.now.entries) num.now) place }
{
    match state.last_place(num) {
        None => false,
        Some(last) => last == place,
    }
}

// Whether a line is there and refuses its record.
fn is_refusal(line: Option<Line>) -> bool
    ensures { result ≡ option_map_or is_incorrecto line false }
{
    matches!(line, Some(Line::Incorrecto(_)))
}

// Whether the record of this place is listed.
fn is_chosen(choice: Choice, state: &State, place: u32, sealed: &Sealed) -> bool
    requires { sealed_at state.now.entries place ≡ Some sealed.now }
    ensures { result ≡ spec.is_chosen choice state.now.entries (place, sealed.now) }
{
    match choice {
        Choice::All => true,
        Choice::Waiting => state.line(place).is_none(),
        Choice::Refused => {
            is_refusal(state.line(place)) && is_last(state, place, &sealed.body.id().num)
        }
    }
}

// The line of the record of this place, where it is listed.
fn put_if_chosen(
    text: &mut Vec<u8>,
    choice: Choice,
    state: &State,
    place: u32,
    sealed: &Sealed,
) -> Result<(), AllocError>
    requires { sealed_at state.now.entries place ≡ Some sealed.now }
    ensures { OnOk result (text.new.items
        ≡ text.old.items ++ spec.lines_among choice state.now.entries ((place, sealed.now) ∷ [])) }
{
    if is_chosen(choice, state, place, sealed) {
        put_record(text, place, sealed, state.line(place))
    } else {
        Ok(())
    }
}

fn put_chosen(
    alloc: Global,
    text: &mut Vec<u8>,
    choice: Choice,
    state: &State,
) -> Result<(), NoMemory>
    ensures { OnOk result (text.new.items ≡ text.old.items ++ spec.chosen_lines choice state.now.entries) }
{
    for n in 0..state.records() {
        let place = n + 1;
        let Some(sealed) = state.sealed(alloc, place)? else {
            return Ok(());
        };
        put_if_chosen(text, choice, state, place, &sealed)?;
    }
    Ok(())
}

/// A line for each of the chosen records, in order of their places, and the chain line of the whole history.
pub fn chosen_text(alloc: Global, choice: Choice, state: &State) -> Result<Text, NoMemory>
    //= What was chosen of a listing is its lines of these records, in their order, and the chain line of the whole
    //= chain.
    ensures { IfOk result (λ text. text ≡ spec.chosen_text choice state.now.entries) }
{
    let mut text = Vec::new(alloc);
    put_chosen(alloc, &mut text, choice, state)?;
    put_chain_line(&mut text, state.records(), state.noted())?;
    Ok(Text::of(text))
}
