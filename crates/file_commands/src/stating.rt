//! The command `statement`: prints the statement of a period, a month or a day.
ghost use Rattle.std.specs.Prelude.{◌≡◌, IfOk, map};
ghost use Rattle.chain_disk.specs.Disks.{this_disk};
ghost use Rattle.ports.specs.Sinks.{this_sink};
ghost use Rattle.report.specs.Status.{status_of};
ghost use Rattle.file_commands.specs.Statements.{RowsPrinted, StatementEnds, StatementPrinted};
ghost use Rattle.file_commands.specs.Statements as spec;

use crate::output::print;
use chain_disk::Disk;
use ports::{NoMemory, Sink};
use record_fields::Text;
use report::{Detail, Ended, StatementLine, statement_text};
use shop_core::{FileRead, ReadFault, State, a_broken_file_is_damaged, read_file};
use stamps::date_text;
use statements::{Period, Row, rows_of};
use std::alloc::Global;

/// Prints the statement of the period: a line for each key that lines of its invoices have, and one of the sums. The file is
/// only read; one that isn't there has no invoice and is left missing.
pub fn statement_cmd<K: Sink, D: Disk>(
    alloc: Global,
    period: Period,
    sink: &mut K,
    disk: D,
) -> (Ended, D)
    ensures status { result.0.status ≡ status_of result.0.detail }
    //= `statement` prints the text of the statement of this period of the history that the file stands for, the empty
    //= one where it isn't begun.
    ensures ends { StatementEnds period (this_sink K.taken K.faults sink.old sink.new)
        (this_disk D.tells D.on_disk D.faults disk result.1) result.0.detail }
    ensures same { D.on_disk result.1 ≡ D.on_disk disk }
{
    let mut disk = disk;
    let detail = stated(alloc, &period, sink, &mut disk);
    (Ended::of(detail), disk)
}

// Reads the history and prints the statement.
fn stated<K: Sink, D: Disk>(alloc: Global, period: &Period, sink: &mut K, disk: &mut D) -> Detail
    ensures ends { StatementEnds period.now (this_sink K.taken K.faults sink.old sink.new)
        (this_disk D.tells D.on_disk D.faults disk.old disk.new) result }
    ensures same { D.on_disk disk.new ≡ D.on_disk disk.old }
{
    a_broken_file_is_damaged();
    match read_file(alloc, disk) {
        Ok(FileRead::Sound { state, .. }) => state_period(alloc, period, &state, sink),
        Ok(FileRead::NotBegun) => print_rows(alloc, period, &[], sink),
        Ok(FileRead::Broken { at, .. }) => Detail::Damaged { at },
        Err(ReadFault::DiskFault) => Detail::DiskFault,
        Err(ReadFault::NoMemory) => Detail::NoMemory,
    }
}

// Prints the statement of the period in the history.
fn state_period<K: Sink>(alloc: Global, period: &Period, state: &State, sink: &mut K) -> Detail
    ensures { StatementPrinted state.now.entries period.now (this_sink K.taken K.faults sink.old sink.new) result }
{
    match rows_of(alloc, state, *period) {
        Ok(rows) => print_rows(alloc, period, rows.as_slice(), sink),
        Err(NoMemory) => Detail::NoMemory,
    }
}

fn print_rows<K: Sink>(alloc: Global, period: &Period, rows: &[Row], sink: &mut K) -> Detail
    ensures { RowsPrinted period.now rows.now (this_sink K.taken K.faults sink.old sink.new) result }
{
    match rows_text(alloc, period, rows) {
        Ok(text) => print(text.as_slice(), Detail::Done, sink),
        Err(NoMemory) => Detail::NoMemory,
    }
}

fn rows_text(alloc: Global, period: &Period, rows: &[Row]) -> Result<Text, NoMemory>
    ensures { IfOk result (λ text. text ≡ spec.statement_text period.now rows.now) }
{
    let lines = lines_of(alloc, rows)?;
    match period {
        Period::Month(month) => statement_text(alloc, &month.text(), &lines),
        Period::Day(day) => statement_text(alloc, &date_text(*day), &lines),
    }
}

// The rows as they are printed.
fn lines_of(alloc: Global, rows: &[Row]) -> Result<Vec<StatementLine>, NoMemory>
    ensures { IfOk result (λ lines. lines.items ≡ map spec.line_of rows.now) }
{
    let mut lines = Vec::with_capacity(alloc, rows.len())?;
    for row in rows {
        lines.push(line_of(row))?;
    }
    Ok(lines)
}

fn line_of(row: &Row) -> StatementLine
    ensures { result ≡ spec.line_of row.now }
{
    StatementLine {
        key: row.key,
        lines: row.lines,
        base: row.base,
        tax: row.tax,
        surcharge: row.surcharge,
    }
}
