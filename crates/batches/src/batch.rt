//! A batch of records.
ghost use Rattle.std.specs.Prelude.{◌≡◌, ◌↔◌, [], ◌∷◌, ◌++◌, take, IfOk, OnOk, OnErr, IfSome, IsNone};
ghost use Rattle.record_fields.specs.Links.{LinkedRun};
ghost use Rattle.pacing.specs.declared.pace.TheConstants.{MAX_BATCH};
ghost use Rattle.batches.specs.Batches.{IsBatch};

use pacing::MAX_BATCH;
use ports::NoMemory;
use record_fields::Sealed;
use std::alloc::Global;
use std::marker::Model;

/// The records of one submission: 1 to `MAX_BATCH`, each linked to the one before it.
#[derive(Drop)]
pub struct Batch {
    records: Vec<Sealed>,
}

impl Model for Batch {
    ghost use Rattle.std.specs.Prelude.{List};
    ghost use Rattle.record_fields.specs.declared.records.Sealed.{Sealed};
    ghost use Rattle.batches.specs.Batches.{IsBatch};

    ghost Value = { List Sealed };

    ghost view = { λ b. b.records.items };

    ghost invariant = { λ b. IsBatch b.records.items };
}

impl Batch {
    /// The first `MAX_BATCH` waiting records, or all of them; None exactly where none waits.
    pub fn cut(alloc: Global, waiting: &[Sealed]) -> Result<Option<Batch>, NoMemory>
        requires { LinkedRun waiting.now }
        //= There is none exactly where nothing waits.
        //= No body: a batch has at least one record, by its type
        ensures none { IfOk result (λ cut. IsNone cut ↔ (waiting.now ≡ [])) }
        //= A batch is the first 1000 of what waits, or all.
        ensures some { IfOk result (λ cut. IfSome cut (λ batch. batch ≡ take MAX_BATCH waiting.now)) }
    {
        if waiting.is_empty() {
            return Ok(None);
        }
        Ok(Some(Batch {
            records: copied_records(alloc, first_of(waiting))?,
        }))
    }

    /// Its records, in order.
    pub fn as_slice(&self) -> &[Sealed]
        ensures value { result.now ≡ self.now }
        //= A batch is a linked run of 1 to 1000 records.
        //= No body: it is the type's invariant
        ensures batch { IsBatch result.now }
    {
        &self.records
    }

    /// The same batch, in memory of its own.
    pub fn copied(&self, alloc: Global) -> Result<Batch, NoMemory>
        ensures { IfOk result (λ batch. batch ≡ self.now) }
    {
        Ok(Batch {
            records: copied_records(alloc, &self.records)?,
        })
    }
}

fn first_of(records: &[Sealed]) -> &[Sealed]
    ensures { result.now ≡ take MAX_BATCH records.now }
{
    if records.len() <= MAX_BATCH as usize {
        return records;
    }
    &records[..MAX_BATCH as usize]
}

fn copied_records(alloc: Global, records: &[Sealed]) -> Result<Vec<Sealed>, NoMemory>
    ensures { IfOk result (λ copies. copies.items ≡ records.now) }
{
    let mut copies = Vec::new(alloc);
    for i in 0..records.len() {
        copies.push(records[i].copied(alloc)?)?;
    }
    Ok(copies)
}

/// A list of batches.
#[derive(Drop)]
pub struct Batches {
    list: Vec<Batch>,
}

impl Model for Batches {
    ghost use Rattle.std.specs.Prelude.{List};
    ghost use Rattle.record_fields.specs.declared.records.Sealed.{Sealed};

    ghost Value = { List (List Sealed) };

    ghost view = { λ b. b.list.items };
}

impl Batches {
    /// The list of these batches.
    pub fn of(list: Vec<Batch>) -> Batches
        ensures { result ≡ list.items }
    {
        Batches { list }
    }

    /// The batches, in order.
    pub fn as_slice(&self) -> &[Batch]
        ensures { result.now ≡ self.now }
    {
        &self.list
    }

    /// One batch more. Without memory the list stays as it was.
    pub fn push(&mut self, batch: Batch) -> Result<(), NoMemory>
        ensures ok { OnOk result (self.new ≡ self.old ++ batch ∷ []) }
        ensures err { OnErr result (self.new ≡ self.old) }
    {
        self.list.push(batch)?;
        Ok(())
    }
}
