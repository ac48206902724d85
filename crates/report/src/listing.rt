//! The listing of a history, and its chain line.
ghost use Rattle.std.specs.Prelude.{◌≡◌, IfOk};
ghost use Rattle.report.specs.Listing as spec;

use crate::chosen::{Choice, chosen_text};
use ports::NoMemory;
use record_fields::Text;
use shop_core::State;
use std::alloc::Global;

/// A line for each record, in order of their places, and the chain line.
pub fn listing_text(alloc: Global, state: &State) -> Result<Text, NoMemory>
    //= A listing is a line for each record, in the order of places, with what it says, its Huella and the agency's
    //= line for it, and then the chain line.
    //= No body: it is `chosen_text` of all
    ensures { IfOk result (λ text. text ≡ spec.listing_text state.now.entries) }
{
    chosen_text(alloc, Choice::All, state)
}
