//! Questions on a shop's history.
ghost use Rattle.std.specs.Prelude.{ℕ, List, IfOk};
ghost use Rattle.record_codec.specs.declared.entry.Entry.{Entry};
ghost use Rattle.record_fields.specs.declared.versions.Version.{Version};

use ports::NoMemory;
use shop_core::State;
use std::alloc::Global;

/// A question on a history, as `Shop::look` asks it.
pub trait Question {
    /// What it learns.
    type Learnt;

    /// This is the answer to the question at the history of this version, issuer and entries.
    ghost learns: { Self → Version → List ℕ → List Entry → Self.Learnt → Type 0 };

    /// The answer at the history as it is.
    fn learn(&self, alloc: Global, state: &State) -> Result<Self::Learnt, NoMemory>
        ensures answer { IfOk result (learns self.now state.now.version state.now.issuer state.now.entries) };
}
