//! What holds of every amount.
ghost use Rattle.std.specs.Prelude.{◌≡◌, ℤ, ℕ, neg_ℤ};
ghost use Rattle.amounts.specs.Cents.{tax};
ghost use Rattle.amounts.specs.Text.{amount_text};

/// The tax of a negated base is the negated tax.
pub fn tax_of_negated_base()
    //= The tax of a negated base is the negated tax.
    //= No body: a law over definitions, which has no body
    ensures { (base : ℤ) (rate : ℕ) → tax (neg_ℤ base) rate ≡ neg_ℤ (tax base rate) }
{}

/// Two amounts with one text are equal.
pub fn text_determines_amount()
    //= Two amounts with one text are equal.
    //= No body: a law over definitions, which has no body
    ensures { (v w : ℤ) → amount_text v ≡ amount_text w → v ≡ w }
{}
