//! The requests of `sale`, `fix` and `cancel`, past their tills and serials.
ghost use Rattle.std.specs.Prelude.{◌≡◌};
ghost use Rattle.script.specs.SoFar.{IsSaid, party_of};
ghost use Rattle.script.specs.Lines as spec;

use crate::customers::Customers;
use crate::drafts::draft;
use crate::faults::{Fault, worded};
use crate::fields::Fields;
use crate::readings::{kind, num, series};
use shop_core::{Request, Word};
use std::alloc::Global;

/// Which command a line is.
#[derive(Clone, Copy, Drop)]
pub enum RequestKind {
    Sale,
    Fix,
    Cancel,
}

// `SERIES KIND OPTION.. LINE..`
fn sale(alloc: Global, customers: &Customers, fields: &mut Fields) -> Result<Request, Fault>
    ensures { IsSaid (spec.sale_said (party_of customers.now) fields.old) result }
{
    let series = series(fields)?;
    let kind = kind(fields)?;
    let draft = draft(alloc, customers, kind, fields)?;
    Ok(Request::Sale { series, draft })
}

// `NUM KIND OPTION.. LINE..`
fn fix(alloc: Global, customers: &Customers, fields: &mut Fields) -> Result<Request, Fault>
    ensures { IsSaid (spec.fix_said (party_of customers.now) fields.old) result }
{
    let num = num(fields)?;
    let kind = kind(fields)?;
    let draft = draft(alloc, customers, kind, fields)?;
    Ok(Request::Fix { num, draft })
}

// `NUM`
fn cancel(fields: &mut Fields) -> Result<Request, Word>
    ensures { result ≡ spec.cancel_said fields.old }
{
    let num = num(fields)?;
    fields.end()?;
    Ok(Request::Cancel { num })
}

/// What the command asks for.
pub fn request(
    alloc: Global,
    customers: &Customers,
    command: RequestKind,
    fields: &mut Fields,
) -> Result<Request, Fault>
    ensures { IsSaid (spec.request_said command (party_of customers.now) fields.old) result }
{
    match command {
        RequestKind::Sale => sale(alloc, customers, fields),
        RequestKind::Fix => fix(alloc, customers, fields),
        RequestKind::Cancel => worded(cancel(fields)),
    }
}
