//! The lines that answer questions of tills.
ghost use Rattle.std.specs.Prelude.{◌≡◌, ◌++◌, OnOk, IfOk};
ghost use Rattle.report.specs.Listing.{record_line};
ghost use Rattle.report.specs.Pieces.{chain_line};
ghost use Rattle.report.specs.Questions as spec;

use crate::pieces::{put, put_chain_line, put_counted, put_huella, put_number, put_signed};
use crate::records::{put_amounts, put_id, put_line, put_record};
use ports::NoMemory;
use record_fields::{Alta, Line, Sealed, Text};
use stamps::moment_text;
use std::alloc::{AllocError, Global};
use tax_lines::{TaxLine, TotalLines};

fn put_sale(
    text: &mut Vec<u8>,
    place: u32,
    alta: &Alta,
    huella: &[u8; 32],
) -> Result<(), AllocError>
    ensures { OnOk result (text.new.items ≡ text.old.items ++ spec.sale_text place alta.now huella.now) }
{
    put_number(text, u64::from(place))?;
    put(text, b" ")?;
    put_id(text, &alta.id)?;
    put(text, b" ")?;
    put(text, alta.draft.kind.text().as_bytes())?;
    put(text, b" ")?;
    put_amounts(text, alta)?;
    put(text, moment_text(&alta.moment).as_slice())?;
    put(text, b" ")?;
    put_huella(text, huella)
}

/// What a ticket says of an alta at its place, with its Huella, its link and the agency's line for it.
pub fn ticket_text(
    alloc: Global,
    place: u32,
    alta: &Alta,
    huella: &[u8; 32],
    link: &[u8],
    line: Option<Line>,
) -> Result<Text, NoMemory>
    //= A ticket's answer has its place, the sale's values and moment, its Huella, its link and the agency's line.
    //= No body: a session of `serve` compares it
    ensures { IfOk result (λ text. text ≡ spec.ticket_text place alta.now huella.now link.now line) }
{
    let mut text = Vec::new(alloc);
    put(&mut text, b"ticket ")?;
    put_sale(&mut text, place, alta, huella)?;
    put(&mut text, b" ")?;
    put(&mut text, link)?;
    put(&mut text, b" ")?;
    put_line(&mut text, line)?;
    put(&mut text, b"\n")?;
    Ok(Text::of(text))
}

/// That the chain has no alta of this number.
pub fn no_ticket_text(alloc: Global, num: &[u8]) -> Result<Text, NoMemory>
    ensures { IfOk result (λ text. text ≡ spec.no_ticket_text num.now) }
{
    let mut text = Vec::new(alloc);
    put(&mut text, b"ticket ")?;
    put(&mut text, num)?;
    put(&mut text, b" unknown\n")?;
    Ok(Text::of(text))
}

/// The listing's line of a record at its place, with the agency's line for it.
pub fn record_text(
    alloc: Global,
    place: u32,
    sealed: &Sealed,
    line: Option<Line>,
) -> Result<Text, NoMemory>
    ensures { IfOk result (λ text. text ≡ record_line place sealed.now line) }
{
    let mut text = Vec::new(alloc);
    put_record(&mut text, place, sealed, line)?;
    Ok(Text::of(text))
}

/// That the chain has no record at this place.
pub fn no_record_text(alloc: Global, place: u32) -> Result<Text, NoMemory>
    ensures { IfOk result (λ text. text ≡ spec.no_record_text place) }
{
    let mut text = Vec::new(alloc);
    put_counted(&mut text, b"record ", u64::from(place))?;
    put(&mut text, b" unknown\n")?;
    Ok(Text::of(text))
}

/// That the chain has no record under this till and serial.
pub fn no_serial_text(alloc: Global, till: u8, serial: u32) -> Result<Text, NoMemory>
    //= A question for a serial that has no record is answered with its till and serial.
    ensures { IfOk result (λ text. text ≡ spec.no_serial_text till serial) }
{
    let mut text = Vec::new(alloc);
    put_counted(&mut text, b"serial ", u64::from(till))?;
    put_counted(&mut text, b" ", u64::from(serial))?;
    put(&mut text, b" unknown\n")?;
    Ok(Text::of(text))
}

/// The greatest serial of a till.
pub fn last_text(alloc: Global, till: u8, serial: u32) -> Result<Text, NoMemory>
    ensures { IfOk result (λ text. text ≡ spec.last_text till serial) }
{
    let mut text = Vec::new(alloc);
    put_counted(&mut text, b"last ", u64::from(till))?;
    put_counted(&mut text, b" ", u64::from(serial))?;
    put(&mut text, b"\n")?;
    Ok(Text::of(text))
}

fn put_tax_line(text: &mut Vec<u8>, line: TaxLine) -> Result<(), AllocError>
    ensures { OnOk result (text.new.items ≡ text.old.items ++ spec.tax_line_text line) }
{
    put(text, b" ")?;
    put(text, line.key.text().as_slice())?;
    put_signed(text, b":", line.base.get())
}

fn put_total_lines(text: &mut Vec<u8>, found: Option<TotalLines>) -> Result<(), AllocError>
    ensures { OnOk result (text.new.items ≡ text.old.items ++ spec.total_lines_text found) }
{
    let Some(found) = found else {
        return put(text, b"lines none\n");
    };
    put(text, b"lines")?;
    match found {
        TotalLines::One(line) => put_tax_line(text, line)?,
        TotalLines::Two(first, second) => {
            put_tax_line(text, first)?;
            put_tax_line(text, second)?;
        }
    }
    put(text, b"\n")
}

/// Lines that have a total, or that there are none.
pub fn total_lines_text(alloc: Global, found: Option<TotalLines>) -> Result<Text, NoMemory>
    //= The answer to a total has its one line or two, or says that there is none.
    //= No body: a session of `serve` compares it
    ensures { IfOk result (λ text. text ≡ spec.total_lines_text found) }
{
    let mut text = Vec::new(alloc);
    put_total_lines(&mut text, found)?;
    Ok(Text::of(text))
}

/// How many records and noted lines there are, as a line.
pub fn chain_text(alloc: Global, records: u32, noted: u32) -> Result<Text, NoMemory>
    ensures { IfOk result (λ text. text ≡ chain_line records noted) }
{
    let mut text = Vec::new(alloc);
    put_chain_line(&mut text, records, noted)?;
    Ok(Text::of(text))
}
