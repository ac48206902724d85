//! The values that the tests share.
ghost use Rattle.std.specs.Prelude.{◌≡◌, [], IfOk};

use amounts::Cents;
use batches::{Batch, are_linked};
use invoice_kinds::Kind;
use parties::Nif;
use record_fields::{Alta, Anulacion, Draft, Link, Previo, Record, Refs, Sealed};
use series::{InvoiceId, NumSerie, SeriesName, number as number_in};
use stamps::{Day, Stamp, stamp_at};
use std::alloc::Global;
use std::test::Fail;
use tax_lines::{Breakdown, LineKey, TaxLine};
use test_rows::sale_draft;

/// 2025-01-01, 10:00 on the peninsular clock.
pub const TEN: u64 = 1_735_722_000;

pub fn nif(text: &str) -> Result<Nif, Fail> {
    Ok(Nif::read(text).ok().ok_or("a tax number")?)
}

pub fn issuer() -> Result<Nif, Fail> {
    nif("89890001K")
}

pub fn number(num: &str) -> Result<NumSerie, Fail> {
    Ok(NumSerie::read(num).ok_or("a number")?)
}

pub fn id(num: &str, day: &str) -> Result<InvoiceId, Fail> {
    let num = number(num)?;
    let day = Day::read(day).ok_or("a day")?;
    Ok(InvoiceId { num, day })
}

pub fn moment(seconds: u64) -> Result<Stamp, Fail> {
    Ok(stamp_at(seconds).ok().ok_or("a moment")?)
}

pub fn line(key: LineKey, base: i64) -> Result<TaxLine, Fail> {
    let base = Cents::new(base).ok_or("a base")?;
    Ok(TaxLine { key, base })
}

pub fn breakdown(alloc: Global, lines: &[TaxLine]) -> Result<Breakdown, Fail> {
    Ok(Breakdown::of(alloc, lines).ok().ok_or("lines")?)
}

/// A draft of these lines, without customer and references.
pub fn draft_of(alloc: Global, kind: Kind, lines: &[TaxLine]) -> Result<Draft, Fail>
    ensures { IfOk result (λ draft. draft.refs ≡ []) }
{
    Ok(Draft {
        kind,
        rect: None,
        customer: None,
        refs: Refs::of(Vec::new(alloc)),
        lines: breakdown(alloc, lines)?,
    })
}

/// An alta of a new invoice.
pub fn alta(issuer: Nif, id: InvoiceId, draft: Draft, link: Link, moment: Stamp) -> Alta {
    Alta {
        issuer,
        id,
        draft,
        subsanacion: false,
        rechazo: Previo::N,
        link,
        moment,
    }
}

/// The cancellation of an invoice that stands.
pub fn anulacion(issuer: Nif, id: InvoiceId, link: Link, moment: Stamp) -> Anulacion {
    Anulacion {
        issuer,
        id,
        sin_registro: false,
        rechazo: false,
        link,
        moment,
    }
}

/// The link of the record after this one.
pub fn after(sealed: &Sealed) -> Link {
    Link::After {
        id: sealed.body.id(),
        huella: sealed.huella,
    }
}

/// The digest of the n-th record of a chain, given by hand.
pub fn digest(n: u32) -> [u8; 32] {
    let mut huella = [0; 32];
    huella[0] = (n / 256 % 256) as u8;
    huella[1] = (n % 256) as u8;
    huella
}

fn sale(alloc: Global, id: InvoiceId, link: Link) -> Result<Record, Fail> {
    let draft = sale_draft(alloc, 10_000)?;
    Ok(Record::Alta(alta(issuer()?, id, draft, link, moment(TEN)?)))
}

/// The sales A-1, A-2 and so on of one chain.
pub fn chain(alloc: Global, count: u32) -> Result<Vec<Sealed>, Fail> {
    let series = SeriesName::read("A").ok_or("a series")?;
    let day = Day::read("01-01-2025").ok_or("a day")?;
    let mut records = Vec::new(alloc);
    let mut link = Link::First;
    for n in 1..=count {
        if n > 99_999_999 {
            return Err(Fail::from("a number"));
        }
        let num = number_in(&series, n);
        let body = sale(alloc, InvoiceId { num, day }, link)?;
        let sealed = Sealed {
            body,
            huella: digest(n),
        };
        link = after(&sealed);
        records.push(sealed)?;
    }
    Ok(records)
}

/// The batch of these records, which are linked and 1 to 1000.
pub fn batch(alloc: Global, records: &[Sealed]) -> Result<Batch, Fail> {
    if !are_linked(records) {
        return Err(Fail::from("linked records"));
    }
    match Batch::cut(alloc, records) {
        Ok(Some(batch)) => Ok(batch),
        _ => Err(Fail::from("a batch")),
    }
}
