//! What tests sell.
ghost use Rattle.std.specs.Prelude.{◌≡◌, IfOk};
ghost use Rattle.test_rows.specs.Sales as spec;

use amounts::Cents;
use invoice_kinds::Kind;
use record_fields::{Draft, Refs};
use std::alloc::Global;
use std::test::Fail;
use tax_lines::{Breakdown, Class, LineKey, TaxLine};

/// A simplified invoice of one line at the general rate, of this many cents.
pub fn sale_draft(alloc: Global, cents: i64) -> Result<Draft, Fail>
    //= What tests sell is a simplified invoice of one line of these cents, at the general rate.
    ensures { IfOk result (λ draft. draft ≡ spec.sale_draft cents) }
{
    let line = TaxLine {
        key: LineKey::iva(Class::General),
        base: Cents::new(cents).ok_or("a base")?,
    };
    let Ok(lines) = Breakdown::of(alloc, &[line]) else {
        return Err(Fail::from("lines"));
    };
    Ok(Draft {
        kind: Kind::F2,
        rect: None,
        customer: None,
        refs: Refs::of(Vec::new(alloc)),
        lines,
    })
}
