//! Batches of records, the names of their Huellas, and the order of a chain.
use crate::records::{batch, chain};
use batches::{Batches, HuellaList, are_linked};
use record_fields::Sealed;
use std::alloc::Global;
use std::test::Fail;
use test_rows::holds;

// How many batches there are where a copy of the records' batch is the only one.
fn batched(alloc: Global, records: &[Sealed]) -> Result<usize, Fail> {
    let mut batches = Batches::of(Vec::new(alloc));
    batches.push(batch(alloc, records)?.copied(alloc)?)?;
    Ok(batches.as_slice().len())
}

// Whether a copy of the Huellas of two records is one of these.
fn are_named(alloc: Global, records: &[Sealed], these: &[Sealed]) -> Result<bool, Fail> {
    let copy = HuellaList::of(alloc, records)?.copied(alloc)?;
    if copy.as_slice().len() == 2 {
        Ok(copy.are_of(these))
    } else {
        Err(Fail::from("two Huellas"))
    }
}

#[test]
fn batches_are_listed_and_huellas_named(rt: HostRuntime) -> Result<(), Fail> {
    let records = chain(rt.alloc(), 2)?;
    holds(batched(rt.alloc(), &records)? == 1, "one batch")?;
    holds(are_named(rt.alloc(), &records, &records)?, "the records")?;
    let first = records.get(..1).ok_or("a first record")?;
    holds(!are_named(rt.alloc(), &records, first)?, "the first")
}

#[test]
fn records_in_another_order_are_others(rt: HostRuntime) -> Result<(), Fail> {
    let records = chain(rt.alloc(), 2)?;
    let mut turned = chain(rt.alloc(), 2)?;
    turned.reverse();
    let is_named = are_named(rt.alloc(), &records, &turned)?;
    holds(!is_named && !are_linked(&turned), "the records turned")
}
