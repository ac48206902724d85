//! Where each Huella stands in the chain.
ghost use Rattle.std.specs.Prelude.{◌≡◌, ℕ, List, [], ◌∷◌, OnOk, bytes_eq, take, true, if◌then◌else◌};
ghost use Rattle.shop_core.specs.Tables.ByHuella.{has, place_at};
ghost use Rattle.shop_core.specs.Place.{placed};
ghost use Rattle.shop_core.specs.Tables.Keys.{same_front};

use crate::place::place_or_none;
use indexmap::IndexMap;
use ports::NoMemory;
use std::alloc::Global;
use std::hash::{Hash, Hasher};

/// A Huella as a key. It is hashed by its first eight bytes, which are spread already: they are of a SHA-256.
#[derive(Clone, Copy, Debug, PartialEq, Eq)]
pub(crate) struct Key {
    pub huella: [u8; 32],
}

impl Hash for Key {
    ghost hash_input = { λ k. take 8 k.huella ∷ [] };

    ghost respects_eq = { same_front };

    fn hash<H: Hasher>(&self, state: &mut H) {
        state.write(&self.huella[..8]);
    }
}

/// A place for each Huella, 0 where it was entered alone.
#[derive(Drop)]
pub(crate) struct ByHuella {
    places: IndexMap<Key, u32>,
}

impl ByHuella {
    pub fn new(alloc: Global) -> ByHuella
        ensures { (h : List ℕ) → place_at result h ≡ 0 }
    {
        ByHuella {
            places: IndexMap::new(alloc),
        }
    }

    pub fn at(&self, huella: &[u8; 32]) -> Option<u32>
        ensures { result ≡ placed (place_at self.now huella.now) }
    {
        place_or_none(
            self.places
                .get(&Key { huella: *huella })
                .copied()
                .unwrap_or(0),
        )
    }

    /// Enters a key, where it isn't there yet. Keys that are there stay, and no place changes.
    pub fn enter(&mut self, huella: &[u8; 32]) -> Result<(), NoMemory>
        ensures same { (h : List ℕ) → place_at self.new h ≡ place_at self.old h }
        ensures stays { (h : List ℕ) → has self.old h ≡ true → has self.new h ≡ true }
        ensures ok { OnOk result (has self.new huella.now ≡ true) }
    {
        let key = Key { huella: *huella };
        if !self.places.contains_key(&key) {
            self.places.insert(key, 0)?;
        }
        Ok(())
    }

    /// Writes the place of a key that was entered.
    pub fn write(&mut self, huella: &[u8; 32], place: u32)
        requires { has self.old huella.now ≡ true }
        ensures { (h : List ℕ) → place_at self.new h ≡ (if bytes_eq huella.now h then place else place_at self.old h) }
    {
        match self.places.get_mut(&Key { huella: *huella }) {
            None => unreachable!(),
            Some(old) => *old = place,
        }
    }
}
