//! The three example records that the tax agency publishes, with their field texts and Huellas.
use crate::records::{after, alta, anulacion, draft_of, id, issuer, line, moment};
use huella::{field_text, field_text_of, huella_of, huella_text, seal};
use invoice_kinds::Kind;
use record_fields::{Link, Record};
use std::alloc::Global;
use std::test::Fail;
use tax_lines::{Class, LineKey};
use test_rows::holds;

const FIRST: &str = "3C464DAF61ACB827C65FDA19F352A4E3BDC2C640E9E9FC4CC058073F38F12F60";

const SECOND: &str = "F7B94CFD8924EDFF273501B01EE5153E4CE8F259766F88CF6ACB8935802A2B97";

const THIRD: &str = "177547C0D57AC74748561D054A9CEC14B4C4EA23D1BEFD6F2E69E3A388F90C68";

const FIRST_TEXT: &str =
    "IDEmisorFactura=89890001K&NumSerieFactura=12345678/G33&FechaExpedicionFactura=01-01-2024&TipoFactura=F1&CuotaTotal=12.35&ImporteTotal=123.45&Huella=&FechaHoraHusoGenRegistro=2024-01-01T19:20:30+01:00";

const SECOND_TEXT: &str =
    "IDEmisorFactura=89890001K&NumSerieFactura=12345679/G34&FechaExpedicionFactura=01-01-2024&TipoFactura=F1&CuotaTotal=12.35&ImporteTotal=123.45&Huella=3C464DAF61ACB827C65FDA19F352A4E3BDC2C640E9E9FC4CC058073F38F12F60&FechaHoraHusoGenRegistro=2024-01-01T19:20:35+01:00";

const THIRD_TEXT: &str =
    "IDEmisorFacturaAnulada=89890001K&NumSerieFacturaAnulada=12345679/G34&FechaExpedicionFacturaAnulada=01-01-2024&Huella=F7B94CFD8924EDFF273501B01EE5153E4CE8F259766F88CF6ACB8935802A2B97&FechaHoraHusoGenRegistro=2024-01-01T19:20:40+01:00";

// The invoice of this number, whose lines are 11.27 at the general rate and 99.83 at the reduced one.
fn invoiced(alloc: Global, num: &str, link: Link, seconds: u64) -> Result<Record, Fail> {
    let lines = [
        line(LineKey::iva(Class::General), 1127)?,
        line(LineKey::iva(Class::Reduced), 9983)?,
    ];
    let draft = draft_of(alloc, Kind::F1, &lines)?;
    let id = id(num, "01-01-2024")?;
    Ok(Record::Alta(alta(issuer()?, id, draft, link, moment(seconds)?)))
}

// Fails where the record has another field text or Huella.
fn says(alloc: Global, record: &Record, text: &str, huella: &str) -> Result<(), Fail> {
    let own = field_text(alloc, record)?;
    let has_huella = huella_text(&huella_of(record)).as_slice() == huella.as_bytes();
    holds(has_huella && own.as_slice() == text.as_bytes(), text)
}

// The link of what comes after this record. Fails where it has another field text or Huella.
fn link_after(alloc: Global, record: Record, text: &str, huella: &str) -> Result<Link, Fail> {
    says(alloc, &record, text, huella)?;
    Ok(after(&seal(record)))
}

// The cancellation of the second invoice, after its record.
fn cancelled(link: Link) -> Result<Record, Fail> {
    let id = id("12345679/G34", "01-01-2024")?;
    Ok(Record::Anulacion(anulacion(issuer()?, id, link, moment(1_704_133_240)?)))
}

#[test]
fn the_published_examples(rt: HostRuntime) -> Result<(), Fail> {
    let first = invoiced(rt.alloc(), "12345678/G33", Link::First, 1_704_133_230)?;
    let link = link_after(rt.alloc(), first, FIRST_TEXT, FIRST)?;
    let second = invoiced(rt.alloc(), "12345679/G34", link, 1_704_133_235)?;
    let link = link_after(rt.alloc(), second, SECOND_TEXT, SECOND)?;
    says(rt.alloc(), &cancelled(link)?, THIRD_TEXT, THIRD)
}

#[test]
fn a_text_is_joined_from_its_values(rt: HostRuntime) -> Result<(), Fail> {
    let alloc = rt.alloc();
    let text = field_text_of(
        alloc,
        "89890001K",
        "12345678/G33",
        "01-01-2024",
        "F1",
        "12.35",
        "123.45",
        None,
        "2024-01-01T19:20:30+01:00",
    )?;
    holds(text.as_slice() == FIRST_TEXT.as_bytes(), FIRST_TEXT)
}
