//! The greatest serial of each till.
ghost use Rattle.std.specs.Prelude.{◌≡◌, ℕ, OnOk, max, nat_eq, true, if◌then◌else◌};
ghost use Rattle.shop_core.specs.Tables.ByTill.{has, last_at};

use indexmap::IndexMap;
use ports::NoMemory;
use std::alloc::Global;

/// The greatest serial of each till, 0 where it was entered alone.
#[derive(Drop)]
pub(crate) struct ByTill {
    lasts: IndexMap<u8, u32>,
}

impl ByTill {
    pub fn new(alloc: Global) -> ByTill
        ensures { (t : ℕ) → last_at result t ≡ 0 }
    {
        ByTill {
            lasts: IndexMap::new(alloc),
        }
    }

    pub fn at(&self, till: u8) -> u32
        ensures { result ≡ last_at self.now till }
    {
        self.lasts.get(&till).copied().unwrap_or(0)
    }

    /// Enters a key, where it isn't there yet. Keys that are there stay, and no serial changes.
    pub fn enter(&mut self, till: u8) -> Result<(), NoMemory>
        ensures same { (t : ℕ) → last_at self.new t ≡ last_at self.old t }
        ensures stays { (t : ℕ) → has self.old t ≡ true → has self.new t ≡ true }
        ensures ok { OnOk result (has self.new till ≡ true) }
    {
        if !self.lasts.contains_key(&till) {
            self.lasts.insert(till, 0)?;
        }
        Ok(())
    }

    /// One more serial of a till that was entered.
    pub fn write(&mut self, till: u8, serial: u32)
        requires { has self.old till ≡ true }
        ensures { (t : ℕ) → last_at self.new t ≡ (if nat_eq till t then max (last_at self.old t) serial else last_at self.old t) }
    {
        match self.lasts.get_mut(&till) {
            None => unreachable!(),
            Some(last) => *last = serial.max(*last),
        }
    }
}
