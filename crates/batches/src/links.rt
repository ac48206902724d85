//! Records that name the one before them.
ghost use Rattle.std.specs.Prelude.{◌≡◌, ◌↔◌, IsTrue};
ghost use Rattle.record_fields.specs.Records.{link_of};
ghost use Rattle.record_fields.specs.Links.{LinkedRun, link_to};

use record_fields::{Link, Sealed};

// Whether the record's link is to the other.
fn follows(sealed: &Sealed, before: &Sealed) -> bool
    ensures { IsTrue result ↔ (link_of sealed.now.body ≡ link_to before.now) }
{
    sealed.body.link()
        == Link::After {
            id: before.body.id(),
            huella: before.huella,
        }
}

/// Whether each record but the first names the one before it.
pub fn are_linked(records: &[Sealed]) -> bool
    //= Records are linked exactly where each but the first names the one before it, by number, date and Huella.
    ensures { IsTrue result ↔ LinkedRun records.now }
{
    for i in 1..records.len() {
        if !follows(&records[i], &records[i - 1]) {
            return false;
        }
    }
    true
}
