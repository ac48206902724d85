//! The summary of a history: how many records of each kind, and the sums of their amounts.
ghost use Rattle.std.specs.Prelude.{◌≡◌, ◌+◌, ◌<◌, ◌≤◌, ◌++◌, OnOk, IfOk, length, unsigned_abs};
ghost use Rattle.tax_lines.specs.Totals.{bases, cuota};
ghost use Rattle.shop_core.specs.History as history;
ghost use Rattle.report.specs.Summary as spec;
ghost use Rattle.report.specs.Sums.{added};

use crate::pieces::{put, put_amount, put_chain, put_counted};
use crate::verdicts::put_last;
use ports::NoMemory;
use record_fields::{Record, Text};
use shop_core::State;
use std::alloc::{AllocError, Global};
use tax_lines::{Breakdown, totals_are_small};

/// How many records of each kind, and the sums of the altas' bases and cuotas, in cents.
#[derive(Clone, Copy)]
pub struct Sums {
    pub altas: u32,
    pub anulaciones: u32,
    pub bases: i64,
    pub cuotas: i64,
}

// The sum of the bases of an alta's lines.
fn bases_of(lines: &Breakdown) -> i64
    ensures value { result ≡ bases lines.now }
    ensures bound { unsigned_abs result ≤ 120_000_000_000 }
{
    totals_are_small();
    let _breakdown = lines.lines();
    lines.total().get() - lines.cuota().get()
}

// The sum of their taxes.
fn cuota_of(lines: &Breakdown) -> i64
    ensures value { result ≡ cuota lines.now }
    ensures bound { unsigned_abs result ≤ 120_000_000_000 }
{
    totals_are_small();
    let _breakdown = lines.lines();
    lines.cuota().get()
}

// One record more.
fn add(sums: Sums, body: &Record) -> Sums
    requires counts { sums.altas + sums.anulaciones < 1_000_000 }
    requires bases { unsigned_abs sums.bases ≤ 120_000_000_000_000_000 }
    requires cuotas { unsigned_abs sums.cuotas ≤ 120_000_000_000_000_000 }
    ensures sums { result ≡ added sums body.now }
    ensures counts { result.altas + result.anulaciones ≡ sums.altas + sums.anulaciones + 1 }
    ensures bases { unsigned_abs result.bases ≤ unsigned_abs sums.bases + 120_000_000_000 }
    ensures cuotas { unsigned_abs result.cuotas ≤ unsigned_abs sums.cuotas + 120_000_000_000 }
{
    match body {
        Record::Alta(alta) => Sums {
            altas: sums.altas + 1,
            bases: sums.bases + bases_of(&alta.draft.lines),
            cuotas: sums.cuotas + cuota_of(&alta.draft.lines),
            ..sums
        },
        Record::Anulacion(_) => Sums {
            anulaciones: sums.anulaciones + 1,
            ..sums
        },
    }
}

fn sums_of(alloc: Global, state: &State) -> Result<Sums, NoMemory>
    ensures { IfOk result (λ sums. sums ≡ spec.sums (history.recs state.now.entries)) }
{
    let mut sums = Sums {
        altas: 0,
        anulaciones: 0,
        bases: 0,
        cuotas: 0,
    };
    for n in 0..state.records() {
        let Some(sealed) = state.sealed(alloc, n + 1)? else {
            return Ok(sums);
        };
        sums = add(sums, &sealed.body);
    }
    Ok(sums)
}

fn put_counts(text: &mut Vec<u8>, records: u32, sums: Sums) -> Result<(), AllocError>
    ensures { OnOk result (text.new.items ≡ text.old.items ++ spec.counts_text records sums) }
{
    put_counted(text, b"generated ", u64::from(records))?;
    put_counted(text, b" sales ", u64::from(sums.altas))?;
    put_counted(text, b" cancels ", u64::from(sums.anulaciones))
}

fn put_amounts(text: &mut Vec<u8>, sums: Sums) -> Result<(), AllocError>
    ensures { OnOk result (text.new.items ≡ text.old.items ++ spec.amounts_text sums) }
{
    put(text, b" base ")?;
    put_amount(text, sums.bases)?;
    put(text, b" tax ")?;
    put_amount(text, sums.cuotas)?;
    put(text, b"\n")
}

fn put_sums(text: &mut Vec<u8>, records: u32, sums: Sums) -> Result<(), AllocError>
    ensures { OnOk result (text.new.items ≡ text.old.items ++ spec.sums_line records sums) }
{
    put_counts(text, records, sums)?;
    put_amounts(text, sums)
}

// The Huella of the last record.
fn last_of(alloc: Global, state: &State) -> Result<Option<[u8; 32]>, NoMemory>
    ensures { IfOk result (λ last. last ≡ spec.huella_in (history.sealed_at state.now.entries (length (history.recs state.now.entries)))) }
{
    match state.sealed(alloc, state.records())? {
        None => Ok(None),
        Some(sealed) => Ok(Some(sealed.huella)),
    }
}

fn put_end(
    text: &mut Vec<u8>,
    records: u32,
    noted: u32,
    last: &Option<[u8; 32]>,
) -> Result<(), AllocError>
    ensures { OnOk result (text.new.items ≡ text.old.items ++ spec.end_text records noted last.now) }
{
    put_chain(text, records, noted)?;
    put(text, b" last ")?;
    put_last(text, last)?;
    put(text, b"\n")
}

/// How many records of each kind a history has and the sums of its altas' amounts, cancelled or not, and then its counts
/// and its last Huella.
pub fn summary_text(alloc: Global, state: &State) -> Result<Text, NoMemory>
    //= A summary is the counts of altas and cancellations, the sums of the altas' bases and cuotas, the chain line
    //= and the last Huella.
    //= No body: sessions of `generate` compare it
    ensures { IfOk result (λ text. text ≡ spec.summary_text state.now.entries) }
{
    let sums = sums_of(alloc, state)?;
    let last = last_of(alloc, state)?;
    let mut text = Vec::new(alloc);
    put_sums(&mut text, state.records(), sums)?;
    put_end(&mut text, state.records(), state.noted(), &last)?;
    Ok(Text::of(text))
}
