//! What holds of every text.
ghost use Rattle.std.specs.Prelude.{◌≡◌, ◌≢◌, ℕ, List, Result, Err};
ghost use Rattle.verify_link.specs.Reading.{IsLinkReading};
ghost use Rattle.verify_link.specs.declared.parts.LinkParts.{LinkParts};
ghost use Rattle.verify_link.specs.declared.parts.LinkFault.{LinkFault};
ghost use Rattle.verify_link.specs.declared.parts.LinkFault.TheVariants.{NoMemory};

use amounts::text_determines_amount;
use stamps::text_determines_day;

/// A text has one reading, lack of memory aside. So each fault comes exactly where its case holds.
pub fn text_determines_reading()
    //= Out of memory aside a text has one reading.
    //= No body: a law over definitions, which has no body
    ensures { (text : List ℕ) (one other : Result LinkParts LinkFault) → IsLinkReading text one → IsLinkReading text other
        → one ≢ Err NoMemory → other ≢ Err NoMemory → one ≡ other }
{
    text_determines_day();
    text_determines_amount();
}
