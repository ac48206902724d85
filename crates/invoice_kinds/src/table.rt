//! What each kind of invoice needs.
ghost use Rattle.std.specs.Prelude.{◌≡◌};
ghost use Rattle.invoice_kinds.specs.Kinds.{needs_of};

use crate::{Kind, Need, Needs};

/// What an invoice of the kind needs. The table is this project's own.
pub fn needs(kind: Kind) -> Needs
    //= What each kind needs is the table.
    ensures { result ≡ needs_of kind }
{
    let (customer, rect, refs) = match kind {
        Kind::F1 => (Need::Must, Need::Never, Need::Never),
        Kind::F2 => (Need::Never, Need::Never, Need::Never),
        Kind::F3 => (Need::Must, Need::Never, Need::Must),
        Kind::R1 | Kind::R2 | Kind::R3 | Kind::R4 => (Need::Must, Need::Must, Need::May),
        Kind::R5 => (Need::Never, Need::Must, Need::May),
    };
    Needs {
        customer,
        rect,
        refs,
    }
}
