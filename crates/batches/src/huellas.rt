//! Lists of Huellas.
ghost use Rattle.std.specs.Prelude.{◌≡◌, ◌↔◌, IfOk, IsTrue};
ghost use Rattle.batches.specs.Batches.{huellas_of};

use ports::NoMemory;
use record_fields::Sealed;
use std::alloc::Global;
use std::marker::Model;

/// Huellas of records, in order, each of 32 bytes.
#[derive(Drop)]
pub struct HuellaList {
    list: Vec<[u8; 32]>,
}

impl Model for HuellaList {
    ghost use Rattle.std.specs.Prelude.{ℕ, List};

    ghost Value = { List (List ℕ) };

    ghost view = { λ h. h.list.items };
}

impl HuellaList {
    /// Those of these records.
    pub fn of(alloc: Global, waiting: &[Sealed]) -> Result<HuellaList, NoMemory>
        ensures { IfOk result (λ huellas. huellas ≡ huellas_of waiting.now) }
    {
        let mut list = Vec::new(alloc);
        for i in 0..waiting.len() {
            list.push(waiting[i].huella)?;
        }
        Ok(HuellaList { list })
    }

    /// The Huellas, in order.
    pub fn as_slice(&self) -> &[[u8; 32]]
        ensures { result.now ≡ self.now }
    {
        &self.list
    }

    /// The same Huellas, in memory of their own.
    pub fn copied(&self, alloc: Global) -> Result<HuellaList, NoMemory>
        ensures { IfOk result (λ huellas. huellas ≡ self.now) }
    {
        Ok(HuellaList {
            list: Vec::from_slice(alloc, &self.list)?,
        })
    }

    /// Whether they are exactly those of these records, in order.
    pub fn are_of(&self, records: &[Sealed]) -> bool
        //= Huellas are those of records exactly where they are all of them, in order.
        ensures { IsTrue result ↔ (self.now ≡ huellas_of records.now) }
    {
        are_huellas(&self.list, records)
    }
}

fn are_huellas(list: &[[u8; 32]], records: &[Sealed]) -> bool
    ensures { IsTrue result ↔ (list.now ≡ huellas_of records.now) }
{
    if list.len() != records.len() {
        return false;
    }
    for i in 0..list.len() {
        if list[i] != records[i].huella {
            return false;
        }
    }
    true
}
