//! What holds of every number of a series.
ghost use Rattle.std.specs.Prelude.{◌≡◌, ℕ, ◌<◌, ◌^◌, List};
ghost use Rattle.series.specs.Numbers.{number_text, series_of};

/// A number gives its series back.
pub fn series_is_read_back()
    //= A number gives its series back.
    //= No body: a law over definitions, which has no body
    ensures { (name : List ℕ) (n : ℕ) → n < 2 ^ 64 → series_of (number_text name n) ≡ name }
{}

/// Equal numbers are of one series, and of one place in it.
pub fn numbers_differ()
    //= Numbers of different series or of different n differ.
    //= No body: a law over definitions, which has no body
    ensures { (name other : List ℕ) (n m : ℕ) → n < 2 ^ 64 → m < 2 ^ 64
        → number_text name n ≡ number_text other m → (name ≡ other) × (n ≡ m) }
{}
