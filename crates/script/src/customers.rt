//! The customers of the lines above, by their keys.
ghost use Rattle.std.specs.Prelude.{◌≡◌, ◌+◌, ℕ, List, None, Some, IfOk, OnErr, OnOk, bytes_eq, option_copied, if◌then◌else◌};
ghost use Rattle.std.specs.BTreeMap.{get_by_text, btree_map_len};

use crate::keys::Key;
use parties::Party;
use ports::NoMemory;
use std::alloc::Global;
use std::collections::BTreeMap;

/// Customers by their keys.
#[derive(Drop)]
pub struct Customers {
    by_key: BTreeMap<String, Party>,
}

impl Customers {
    pub fn new(alloc: Global) -> Customers
        ensures none { (key : List ℕ) → get_by_text result.by_key key ≡ None }
        ensures count { btree_map_len result.by_key ≡ 0 }
    {
        Customers {
            by_key: BTreeMap::new(alloc),
        }
    }

    pub fn len(&self) -> usize
        ensures { result ≡ btree_map_len self.now.by_key }
    {
        self.by_key.len()
    }

    /// The customer with this key.
    pub fn get(&self, key: &str) -> Option<&Party>
        ensures { option_copied result ≡ get_by_text self.now.by_key key.now }
    {
        self.by_key.get(key)
    }

    /// One more, whose key is new.
    pub fn add(&mut self, key: Key, party: Party) -> Result<(), NoMemory>
        requires { get_by_text self.old.by_key key ≡ None }
        ensures found { OnOk result ((other : List ℕ) → get_by_text self.new.by_key other
            ≡ (if bytes_eq key other then Some party else get_by_text self.old.by_key other)) }
        ensures count { OnOk result (btree_map_len self.new.by_key ≡ btree_map_len self.old.by_key + 1) }
        ensures err { OnErr result (self.new.by_key.entries ≡ self.old.by_key.entries) }
    {
        self.by_key.insert(key.into_text(), party)?;
        Ok(())
    }
}
