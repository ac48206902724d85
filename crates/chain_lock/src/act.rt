//! The value that a lock holds, and what a turn does to it.
ghost use Rattle.std.specs.Prelude.{◌≡◌, List, length};
ghost use Rattle.chain_lock.specs.Lists.{MayAdd};

/// A value that records items in a list which only grows, as a journal does.
pub trait Recorded {
    /// What it records. Clauses alone speak of items, and no value of this type is made here.
    type Item;

    /// What no act changes. Clauses alone speak of it.
    type Root;

    ghost items: { Self → List Self.Item };

    ghost root: { Self → Self.Root };

    /// How many items it has recorded.
    fn recorded(&self) -> u64
        ensures { result ≡ length (items self.now) };
}

/// What a turn does to the value. It keeps the root, and records one item or none.
pub trait Act<V: Recorded> {
    /// What one call tells whoever takes the turn.
    type Told;

    /// What one call does: of the act before it, the root, the list before, the act after it, the list after and what it tells.
    /// Whoever takes the turn knows this of the call, so an act whose calls are to be counted changes a field of its own.
    ghost relates: { Self → V.Root → List V.Item → Self → List V.Item → Self.Told → Type 0 };

    fn act(&mut self, value: &mut V) -> Self::Told
        ensures root { V.root value.new ≡ V.root value.old }
        ensures items { MayAdd (V.items value.old) (V.items value.new) }
        ensures relates { relates self.old (V.root value.old) (V.items value.old) self.new (V.items value.new) result };
}
