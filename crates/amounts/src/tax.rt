//! The tax of a base.
ghost use Rattle.std.specs.Prelude.{◌≡◌, pos, neg_ℤ};
ghost use Rattle.amounts.specs.Cents.{tax};

use crate::{Cents, Rate};

/// The tax of a base: base times rate over 10,000, rounded half away from zero to the cent. The rounding is this project's
/// own.
pub fn tax_of(base: Cents, rate: Rate) -> Cents
    //= A tax is base times rate over 10,000, rounded half away from zero.
    ensures { result ≡ tax base rate }
{
    let size = (2 * (base.size() * rate.get() as u64) + 10_000) / 20_000;
    if base.is_negative() {
        -Cents::of_size(size)
    } else {
        Cents::of_size(size)
    }
}
