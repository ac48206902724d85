//! What a line of a script says.
ghost use Rattle.std.specs.Prelude.{◌≡◌};
ghost use Rattle.script.specs.Lines as spec;

use crate::keys::Key;
use agency_rules::{PlannedFate, PlannedVerdict};
use parties::Party;
use shop_core::Ask;

/// What a line says.
#[derive(Drop)]
pub enum Meaning {
    /// Nothing: it is empty, or begins with `#`.
    Skip,
    /// `clock START STEP`, in seconds.
    Clock { start: u64, step: u64 },
    /// `customer KEY NIF NAME`.
    Customer { key: Key, party: Party },
    /// `sale`, `fix` or `cancel`.
    Command(Ask),
    /// `vet NUM N CODE` or `warn NUM N CODE`.
    Verdict(PlannedVerdict),
    /// `wait SECONDS`.
    Wait { seconds: u32 },
    /// `link CALL FATE`.
    Link(PlannedFate),
}

impl Meaning {
    pub(crate) fn is_command(&self) -> bool
        ensures { result ≡ spec.is_command self.now }
    {
        match self {
            Meaning::Command(_) => true,
            _ => false,
        }
    }
}
