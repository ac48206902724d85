//! What is told of the sender's turns.
ghost use Rattle.std.specs.Prelude.{◌≡◌, [], ◌∷◌, ◌++◌, OnOk, OnErr};

use crate::ReplyLine;
use ports::NoMemory;
use std::alloc::Global;
use std::marker::Model;

/// That an agency contradicts itself, by places of records, from 1.
#[derive(Clone, Copy, Debug, PartialEq, Eq)]
pub enum Evidence {
    /// It has seen a record, and not one before it.
    Hole { unseen: u32, seen: u32 },
    /// It says that it hasn't seen a record for which it said this.
    Forgotten { place: u32, said: ReplyLine },
}

/// What is printed of a turn.
#[derive(Clone, Copy, Debug, PartialEq, Eq)]
pub enum Told {
    Wait(u64),
    Noted(u32),
    Cleared,
    Doubt(u32),
    Link,
    Contradiction,
    Disk,
    Stopped(u64),
    Memory,
}

/// The turns, in order.
#[derive(Drop)]
pub struct Turns {
    list: Vec<Told>,
}

impl Model for Turns {
    ghost use Rattle.std.specs.Prelude.{List};
    ghost use Rattle.agency_port.specs.declared.turns.Told.{Told};

    ghost Value = { List Told };

    ghost view = { λ t. t.list.items };
}

impl Turns {
    /// The list of these turns.
    pub fn of(list: Vec<Told>) -> Turns
        ensures { result ≡ list.items }
    {
        Turns { list }
    }

    /// No turn.
    pub fn new(alloc: Global) -> Turns
        ensures { result ≡ [] }
    {
        Turns {
            list: Vec::new(alloc),
        }
    }

    /// The turns, in order.
    pub fn as_slice(&self) -> &[Told]
        ensures { result.now ≡ self.now }
    {
        &self.list
    }

    /// One turn more. Without memory the list stays as it was.
    pub fn push(&mut self, told: Told) -> Result<(), NoMemory>
        ensures ok { OnOk result (self.new ≡ self.old ++ told ∷ []) }
        ensures err { OnErr result (self.new ≡ self.old) }
    {
        self.list.push(told)?;
        Ok(())
    }
}
