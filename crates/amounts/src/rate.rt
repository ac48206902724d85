//! Rates of tax.
ghost use Rattle.std.specs.Prelude.{◌≡◌, ℕ, ◌↔◌, IsSome, IfSome};
ghost use Rattle.amounts.specs.Cents.{IsRate};

use std::marker::Model;

/// A rate in hundredths of a percent, up to 2500: 2100 is 21 percent.
#[derive(Clone, Copy, Debug, PartialEq, Eq, PartialOrd, Ord, Hash)]
pub struct Rate {
    hundredths: u16,
}

impl Model for Rate {
    ghost Value = { ℕ };

    ghost view = { λ r. r.hundredths };

    ghost invariant = { λ r. IsRate r.hundredths };

    ghost inverse = { λ n. record { hundredths = n } };
}

impl Rate {
    /// This many hundredths of a percent, `None` exactly where they are more than 2500.
    pub fn new(v: u16) -> Option<Rate>
        //= A rate is none exactly outside its range.
        //= No body: it is one comparison with the limit
        ensures valid { IsSome result ↔ IsRate v }
        ensures value { IfSome result (λ r. r ≡ v) }
    {
        if v <= 2500 {
            Some(Rate { hundredths: v })
        } else {
            None
        }
    }

    /// This many hundredths of a percent, where the caller knows that they are at most 2500.
    pub fn of(v: u16) -> Rate
        requires { IsRate v }
        ensures { result ≡ v }
    {
        Rate { hundredths: v }
    }

    /// The hundredths of a percent.
    pub fn get(self) -> u16
        ensures value { result ≡ self }
        ensures bound { IsRate result }
    {
        self.hundredths
    }
}
