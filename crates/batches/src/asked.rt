//! What a consultation asks for.
ghost use Rattle.std.specs.Prelude.{◌≡◌, IfOk};
ghost use Rattle.batches.specs.Batches.{id_in, ids_of, named_of, sort_of};

use crate::HuellaList;
use ports::NoMemory;
use record_fields::{Record, Sealed};
use series::InvoiceId;
use std::alloc::Global;
use std::marker::Model;

/// The two sorts of record.
#[derive(Clone, Copy, Debug, PartialEq, Eq)]
pub enum Sort {
    Alta,
    Anulacion,
}

/// Which record of an issuer: of which invoice, and of which sort.
#[derive(Clone, Copy, Debug, PartialEq, Eq)]
pub struct RecordId {
    pub invoice: InvoiceId,
    pub sort: Sort,
}

fn sort_of(body: &Record) -> Sort
    ensures { result ≡ sort_of body.now }
{
    match body {
        Record::Alta(_) => Sort::Alta,
        Record::Anulacion(_) => Sort::Anulacion,
    }
}

/// Which record this is.
pub fn record_id(sealed: &Sealed) -> RecordId
    ensures { result ≡ id_in sealed.now }
{
    RecordId {
        invoice: sealed.body.id(),
        sort: sort_of(&sealed.body),
    }
}

fn ids_in(alloc: Global, records: &[Sealed]) -> Result<Vec<RecordId>, NoMemory>
    ensures { IfOk result (λ ids. ids.items ≡ ids_of records.now) }
{
    let mut ids = Vec::new(alloc);
    for i in 0..records.len() {
        ids.push(record_id(&records[i]))?;
    }
    Ok(ids)
}

/// The Huellas of records, in order, and with each which record it is of.
#[derive(Drop)]
pub struct Huellas {
    list: HuellaList,
    names: Vec<RecordId>,
}

impl Model for Huellas {
    ghost use Rattle.batches.specs.Batches.{Named};

    ghost Value = { Named };

    ghost view = { λ h. record { huellas = h.list; ids = h.names.items } };
}

impl Huellas {
    /// Those of these records.
    pub fn of(alloc: Global, records: &[Sealed]) -> Result<Huellas, NoMemory>
        //= What a consultation names of each record is its Huella and its invoice's number, day and sort.
        ensures { IfOk result (λ huellas. huellas ≡ named_of records.now) }
    {
        Ok(Huellas {
            list: HuellaList::of(alloc, records)?,
            names: ids_in(alloc, records)?,
        })
    }

    /// The Huellas alone.
    pub fn list(&self) -> &HuellaList
        ensures { result.now ≡ self.now.huellas }
    {
        &self.list
    }

    /// The Huellas, in order.
    pub fn as_slice(&self) -> &[[u8; 32]]
        ensures { result.now ≡ self.now.huellas }
    {
        self.list.as_slice()
    }

    /// Which record each Huella is of, in the same order.
    pub fn ids(&self) -> &[RecordId]
        ensures { result.now ≡ self.now.ids }
    {
        &self.names
    }

    /// The same, in memory of its own.
    pub fn copied(&self, alloc: Global) -> Result<Huellas, NoMemory>
        //= A copy of what is named names the same.
        ensures { IfOk result (λ huellas. huellas ≡ self.now) }
    {
        Ok(Huellas {
            list: self.list.copied(alloc)?,
            names: Vec::from_slice(alloc, &self.names)?,
        })
    }
}
