//! Tables over the list of processed records: where a Huella stands, and the past of an invoice.
ghost use Rattle.std.specs.Prelude.{◌≡◌, ℕ, ◌<◌, List, None, Some, OnOk, OnErr, bytes_eq, if◌then◌else◌};
ghost use Rattle.series.specs.declared.numbers.InvoiceId.{InvoiceId as AnyId};
ghost use Rattle.agency_rules.specs.Judging.{same_id};
ghost use Rattle.agency_rules.specs.Indexes.{no_past, place_at, past_at};

use crate::Past;
use ports::NoMemory;
use series::InvoiceId;
use std::alloc::Global;
use std::collections::HashMap;

/// A place for each Huella that was noted.
#[derive(Drop)]
pub(crate) struct Places {
    by_huella: HashMap<[u8; 32], usize>,
}

impl Places {
    pub fn new(alloc: Global) -> Places
        ensures { (huella : List ℕ) → place_at result huella ≡ None }
    {
        Places {
            by_huella: HashMap::new(alloc),
        }
    }

    /// The place that was noted last for this Huella.
    pub fn at(&self, huella: &[u8; 32]) -> Option<usize>
        ensures { result ≡ place_at self.now huella.now }
    {
        self.by_huella.get(huella).copied()
    }

    /// Notes this place, unless the Huella is known. Without memory all stays as it was.
    pub fn note_first(
        &mut self,
        known: bool,
        huella: &[u8; 32],
        place: usize,
    ) -> Result<(), NoMemory>
        ensures ok { OnOk result ((other : List ℕ) → place_at self.new other ≡
            (if known then place_at self.old other
            else if bytes_eq huella.now other then Some place
            else place_at self.old other)) }
        ensures err { OnErr result ((other : List ℕ) → place_at self.new other ≡ place_at self.old other) }
    {
        if !known {
            self.by_huella.insert(*huella, place)?;
        }
        Ok(())
    }
}

/// The past of each invoice; of one that wasn't noted nothing was processed.
#[derive(Drop)]
pub(crate) struct Pasts {
    by_id: HashMap<InvoiceId, Past>,
}

const NOTHING: Past = Past {
    count: 0,
    held: false,
    gone: false,
};

impl Pasts {
    pub fn new(alloc: Global) -> Pasts
        ensures { (id : AnyId) → past_at result id ≡ no_past }
    {
        Pasts {
            by_id: HashMap::new(alloc),
        }
    }

    pub fn at(&self, id: &InvoiceId) -> Past
        ensures { result ≡ past_at self.now id.now }
    {
        self.by_id.get(id).copied().unwrap_or(NOTHING)
    }

    /// Without memory all stays as it was.
    pub fn note(&mut self, id: InvoiceId, past: Past) -> Result<(), NoMemory>
        ensures ok { OnOk result ((other : AnyId) → past_at self.new other ≡
            (if same_id id other then past else past_at self.old other)) }
        ensures err { OnErr result ((other : AnyId) → past_at self.new other ≡ past_at self.old other) }
    {
        self.by_id.insert(id, past)?;
        Ok(())
    }

    /// The past of an invoice of which something was noted, in the room that it has.
    pub fn put_back(&mut self, id: InvoiceId, past: Past)
        requires { 0 < (past_at self.old id).count }
        ensures { (other : AnyId) → past_at self.new other ≡ (if same_id id other then past else past_at self.old other) }
    {
        let Ok(_) = self.by_id.insert(id, past) else {
            unreachable!()
        };
    }
}
