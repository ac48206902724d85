//! What holds of every tax number.
ghost use Rattle.std.specs.Prelude.{◌≡◌, ℕ, List, length, IsAscii};
ghost use Rattle.parties.specs.Nif.{IsNif};

/// A tax number is nine bytes of ASCII.
pub fn a_nif_is_nine_bytes()
    //= A tax number is nine bytes, of ASCII.
    //= No body: a law over definitions, which has no body
    ensures nine { (nif : List ℕ) → IsNif nif → length nif ≡ 9 }
    ensures ascii { (nif : List ℕ) → IsNif nif → IsAscii nif }
{}
