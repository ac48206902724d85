//! Amounts of money.
ghost use Rattle.std.specs.Prelude.{◌≡◌, ℤ, ◌↔◌, ◌≤◌, pos, ◌+ℤ◌, neg_ℤ, unsigned_abs, int_lt, IsSome, IfSome};
ghost use Rattle.amounts.specs.Cents.{IsCents};
ghost use Rattle.amounts.specs.declared.cents.TheConstants.{MAX_CENTS};

use std::marker::Model;
use std::ops::{Add, Neg};

/// The most cents of an amount in absolute value: 99,999,999,999.99 euros. The limit is this project's own.
pub const MAX_CENTS: u64 = 9_999_999_999_999;

/// Whole cents of a euro, at most `MAX_CENTS` of them in absolute value.
#[derive(Clone, Copy, Debug, PartialEq, Eq, PartialOrd, Ord, Hash)]
pub struct Cents {
    cents: i64,
}

impl Model for Cents {
    ghost Value = { ℤ };

    ghost view = { λ c. c.cents };

    ghost invariant = { λ c. IsCents c.cents };

    ghost inverse = { λ v. record { cents = v } };
}

impl Cents {
    /// This many cents, `None` exactly where they are more than `MAX_CENTS` in absolute value.
    pub fn new(v: i64) -> Option<Cents>
        //= An amount is none exactly outside its range.
        //= No body: it is one comparison with the limit
        ensures valid { IsSome result ↔ IsCents v }
        ensures value { IfSome result (λ c. c ≡ v) }
    {
        if v.unsigned_abs() <= MAX_CENTS {
            Some(Cents { cents: v })
        } else {
            None
        }
    }

    /// This many cents, where the caller knows that they are within the limit.
    pub fn of(v: i64) -> Cents
        requires { IsCents v }
        ensures { result ≡ v }
    {
        Cents { cents: v }
    }

    /// The number of cents.
    pub fn get(self) -> i64
        ensures value { result ≡ self }
        ensures bound { IsCents result }
    {
        self.cents
    }

    // This many cents, none of them owed.
    pub(crate) fn of_size(size: u64) -> Cents
        requires { size ≤ MAX_CENTS }
        ensures { result ≡ pos size }
    {
        Cents { cents: size as i64 }
    }

    // The absolute value.
    pub(crate) fn size(self) -> u64
        ensures value { result ≡ unsigned_abs self }
        ensures bound { result ≤ MAX_CENTS }
    {
        self.cents.unsigned_abs()
    }

    pub(crate) fn is_negative(self) -> bool
        ensures { result ≡ int_lt self (pos 0) }
    {
        self.cents < 0
    }
}

/// The sum is to be within the limit too.
impl Add for Cents {
    type Output = Cents;

    ghost can_add = { λ a b. IsCents (a +ℤ b) };

    ghost add_gives = { λ a b sum. sum ≡ a +ℤ b };

    fn add(self, other: Cents) -> Cents {
        Cents {
            cents: self.cents + other.cents,
        }
    }
}

impl Neg for Cents {
    type Output = Cents;

    ghost neg_gives = { λ v negated. negated ≡ neg_ℤ v };

    fn neg(self) -> Cents {
        Cents { cents: -self.cents }
    }
}
