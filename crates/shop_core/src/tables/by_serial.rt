//! Where each till and serial stands in the chain.
ghost use Rattle.std.specs.Prelude.{◌≡◌, OnOk, true, if◌then◌else◌};
ghost use Rattle.shop_core.specs.Tables.BySerial.{has, place_at, same_slot};
ghost use Rattle.shop_core.specs.declared.tables.by_serial.Slot.{Slot as AnySlot};
ghost use Rattle.shop_core.specs.Place.{placed};

use crate::place::place_or_none;
use indexmap::IndexMap;
use ports::NoMemory;
use std::alloc::Global;

/// A till and a serial of its own.
#[derive(Clone, Copy, Debug, PartialEq, Eq, Hash)]
pub(crate) struct Slot {
    pub till: u8,
    pub serial: u32,
}

/// A place for each till and serial, 0 where they were entered alone.
#[derive(Drop)]
pub(crate) struct BySerial {
    places: IndexMap<Slot, u32>,
}

impl BySerial {
    pub fn new(alloc: Global) -> BySerial
        ensures { (s : AnySlot) → place_at result s ≡ 0 }
    {
        BySerial {
            places: IndexMap::new(alloc),
        }
    }

    pub fn at(&self, slot: Slot) -> Option<u32>
        ensures { result ≡ placed (place_at self.now slot) }
    {
        place_or_none(self.places.get(&slot).copied().unwrap_or(0))
    }

    /// Enters a key, where it isn't there yet. Keys that are there stay, and no place changes.
    pub fn enter(&mut self, slot: Slot) -> Result<(), NoMemory>
        ensures same { (s : AnySlot) → place_at self.new s ≡ place_at self.old s }
        ensures stays { (s : AnySlot) → has self.old s ≡ true → has self.new s ≡ true }
        ensures ok { OnOk result (has self.new slot ≡ true) }
    {
        if !self.places.contains_key(&slot) {
            self.places.insert(slot, 0)?;
        }
        Ok(())
    }

    /// Writes the place of a key that was entered.
    pub fn write(&mut self, slot: Slot, place: u32)
        requires { has self.old slot ≡ true }
        ensures { (s : AnySlot) → place_at self.new s ≡ (if same_slot slot s then place else place_at self.old s) }
    {
        match self.places.get_mut(&slot) {
            None => unreachable!(),
            Some(old) => *old = place,
        }
    }
}
