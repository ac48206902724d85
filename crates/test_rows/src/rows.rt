//! What a test holds of a row of its table.
ghost use Rattle.std.specs.Prelude.{◌≡◌, is_ok};

use std::test::Fail;

/// Fails a test at this row where what it holds of it isn't so.
pub fn holds(is: bool, row: &str) -> Result<(), Fail>
    //= A row of a test fails exactly where what it holds isn't so.
    ensures { is_ok result ≡ is }
{
    if is {
        Ok(())
    } else {
        Err(Fail::new(format_args!("at {row}")))
    }
}
