//! A few tax numbers, in order.
ghost use Rattle.std.specs.Prelude.{◌≡◌, ◌<◌, ◌≤◌, ◌∷◌, ◌++◌, ◌==◌, [], false, length};
ghost use Rattle.parties.specs.declared.limits.TheConstants.{MAX_ISSUERS};

use parties::{MAX_ISSUERS, Nif};
use std::marker::Model;

/// 1 to `MAX_ISSUERS` tax numbers, in their order.
#[derive(Drop)]
pub struct Nifs {
    nifs: [Nif; MAX_ISSUERS],
    count: usize,
}

impl Model for Nifs {
    ghost use Rattle.std.specs.Prelude.{◌≡◌, ◌≤◌, List, ℕ, length, take};

    ghost Value = { List (List ℕ) };

    ghost view = { λ n. take n.count n.nifs };

    ghost invariant = { λ n. (n.count ≤ 8) × (length n.nifs ≡ 8) };
}

impl Nifs {
    /// This one alone.
    pub fn of(nif: Nif) -> Nifs
        ensures { result ≡ nif ∷ [] }
    {
        Nifs {
            nifs: [nif; MAX_ISSUERS],
            count: 1,
        }
    }

    /// There are as many as there may be.
    pub fn is_full(&self) -> bool
        ensures full { result ≡ (length self.now == MAX_ISSUERS) }
        ensures room { result ≡ false → length self.now < MAX_ISSUERS }
    {
        self.count == MAX_ISSUERS
    }

    /// One more after the others.
    pub fn add(&mut self, nif: Nif)
        requires { length self.old < MAX_ISSUERS }
        ensures { self.new ≡ self.old ++ nif ∷ [] }
    {
        self.nifs[self.count] = nif;
        self.count += 1;
    }

    /// All of them.
    pub fn as_slice(&self) -> &[Nif]
        ensures all { result.now ≡ self.now }
        ensures few { length result.now ≤ MAX_ISSUERS }
    {
        &self.nifs[..self.count]
    }
}
