//! What the sender sees of a shop, and how it notes.
ghost use Rattle.std.specs.Prelude.{◌≡◌, ◌≤◌, ◌↔◌, ℕ, length, IfOk, IsErrOf};
ghost use Rattle.shop_core.specs.History as history;
ghost use Rattle.once_world.specs.Outbox.{Sight, Grows, OwnWithin, HasStopped, ShowsWaiting, NotedBy, history_of};
ghost use Rattle.record_codec.specs.declared.entry.TheConstants.{MAX_NOTES};

use journal::StoreFault;
use ports::NoMemory;
use record_fields::Line;
use shop_core::Waiting;
use std::alloc::Global;
use std::sync::Wait;

/// A shop as the sender sees it. Others may add to it at any time: each call shows more of it.
pub trait Outbox {
    /// What no call changes, besides the issuer. Clauses alone speak of it.
    type Fixed;

    ghost fixed: { Self → Self.Fixed };

    /// The issuer, the items seen so far, and which of them its own notes added.
    ghost sight: { Self → Sight };

    /// The shop has at least this many items.
    ghost least: { Self → ℕ };

    /// The counts, and at most this many of the first records that have no noted line.
    fn waiting<R: Wait>(&mut self, rt: &R, alloc: Global, max: u16) -> Result<Waiting, NoMemory>
        ensures fixed { fixed self.new ≡ fixed self.old }
        //= The items that a sender sees only grow, and are a legal history at each call.
        //= No body: a trait's clause, which each shop proves
        ensures grows { Grows (sight self.old) (sight self.new) }
        //= A look of a sender at its shop shows at least as many items as it knew of.
        //= No body: a trait's clause, which each shop proves
        ensures covers { least self.old ≤ length (sight self.new).items }
        ensures own { (sight self.new).own ≡ (sight self.old).own }
        ensures within { OwnWithin (sight self.new) }
        ensures shows { IfOk result (ShowsWaiting (sight self.new) max) };

    /// Notes the lines of the next records, 1 to `MAX_NOTES` and no more than wait in what was seen. After `DiskFault` the shop has
    /// stopped, and these lines may stand in its file. `Stopped` comes exactly where an earlier call stopped it. Where notes
    /// of others came in between and the lines fit no more, nothing is added, as without memory.
    fn note<R: Wait>(&mut self, rt: &R, alloc: Global, lines: &[Line]) -> Result<(), StoreFault>
        requires some { 1 ≤ length lines.now }
        requires few { length lines.now ≤ MAX_NOTES }
        requires fits { length lines.now ≤ length (history.waiting (history_of (sight self.old))) }
        ensures fixed { fixed self.new ≡ fixed self.old }
        ensures grows { Grows (sight self.old) (sight self.new) }
        ensures within { OwnWithin (sight self.new) }
        //= A note adds one entry with these lines, or records the stop with the notes that may be in the file, or
        //= changes nothing.
        ensures noted { NotedBy (sight self.old) (sight self.new) lines.now result }
        //= `Stopped` is answered exactly where an earlier call recorded the stop.
        //= No body: a trait's clause, which each shop proves
        ensures stopped { (faults : ℕ) →
            IsErrOf result (StoreFault.Stopped faults) ↔ HasStopped (sight self.old) (sight self.new) faults };
}
