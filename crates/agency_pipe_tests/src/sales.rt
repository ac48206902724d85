//! A sale, and what is said of it.
use batches::{Batch, are_linked};
use parties::Nif;
use record_fields::{Alta, Link, Previo, Record, Sealed};
use series::{InvoiceId, NumSerie};
use stamps::{Day, Stamp};
use std::alloc::Global;
use std::test::Fail;
use test_rows::sale_draft;

pub(crate) const SUBMISSION: &str =
    "{\"n\":7,\"records\":[{\"cuota\":2100,\"customer\":null,\"day\":\"01-01-2025\",\"fix\":false,\"huella\":\"0A0A0A0A0A0A0A0A0A0A0A0A0A0A0A0A0A0A0A0A0A0A0A0A0A0A0A0A0A0A0A0A\",\"issuer\":\"89890001K\",\"kind\":\"F2\",\"lines\":[[\"21\",10000]],\"link\":null,\"num\":\"A-1\",\"offset\":60,\"qr\":\"https://www2.agenciatributaria.gob.es/wlpl/TIKE-CONT/ValidarQR?nif=89890001K&numserie=A-1&fecha=01-01-2025&importe=121.00\",\"rechazo\":\"N\",\"rect\":null,\"refs\":[],\"seconds\":1735722000,\"t\":\"alta\",\"total\":12100}],\"t\":\"submit\"}\n";

pub(crate) const CONSULTATION_9: &str =
    "{\"huellas\":[\"0A0A0A0A0A0A0A0A0A0A0A0A0A0A0A0A0A0A0A0A0A0A0A0A0A0A0A0A0A0A0A0A\"],\"ids\":[[\"A-1\",\"01-01-2025\",\"alta\"]],\"n\":9,\"t\":\"consult\"}\n";

// What begins the call whose message is the submission: an LF, and the line.
pub(crate) const OPENING_6: &str =
    "\n{\"issuer\":\"89890001K\",\"n\":6,\"noted\":0,\"protocol\":2,\"t\":\"begin\"}\n";

pub(crate) fn nif() -> Result<Nif, Fail> {
    Ok(Nif::read("89890001K")?)
}

fn sale(alloc: Global) -> Result<Sealed, Fail> {
    let alta = Alta {
        issuer: nif()?,
        id: InvoiceId {
            num: NumSerie::read("A-1").ok_or("num")?,
            day: Day::read("01-01-2025").ok_or("day")?,
        },
        draft: sale_draft(alloc, 10_000)?,
        subsanacion: false,
        rechazo: Previo::N,
        link: Link::First,
        moment: Stamp::new(1_735_722_000, 60).ok_or("moment")?,
    };
    Ok(Sealed {
        body: Record::Alta(alta),
        huella: [10; 32],
    })
}

pub(crate) fn batch(alloc: Global) -> Result<Batch, Fail> {
    let mut records = Vec::new(alloc);
    records.push(sale(alloc)?)?;
    if !are_linked(&records) {
        return Err(Fail::from("linked"));
    }
    Ok(Batch::cut(alloc, &records)?.ok_or("empty")?)
}

// The line with its H for the sale's Huella.
pub(crate) fn with_huella(alloc: Global, line: &str) -> Result<String, Fail> {
    let digits = "0A0A0A0A0A0A0A0A0A0A0A0A0A0A0A0A0A0A0A0A0A0A0A0A0A0A0A0A0A0A0A0A";
    Ok(line.replace(alloc, "H", digits)?)
}
