//! A line that is read as a link, and held against the chain.
ghost use Rattle.std.specs.Prelude.{◌≡◌, IfOk, Some};
ghost use Rattle.link_check.specs.Checking.{answer_to, IsChecked};
ghost use Rattle.link_check.specs.Checking.Chain.{begun, not_begun};
ghost use Rattle.link_check.specs.BeforeChain.{IsSaid, settled};

use crate::Checked;
use amounts::Cents;
use ports::NoMemory;
use record_fields::{Record, Sealed};
use shop_core::State;
use std::alloc::Global;
use std::str::from_utf8;
use verify_link::{LinkFault, LinkParts, read_link};

/// What a line is answered.
pub fn check_link(alloc: Global, state: &State, line: &[u8]) -> Result<Checked, NoMemory>
    //= A link's answer is the first that holds: not text, a bad link with its fault, another issuer, unknown,
    //= cancelled, refused, else found or differing by its total; the host plays no part.
    ensures { IfOk result (IsChecked (begun state.now.issuer state.now.entries) line.now) }
{
    match read_line(alloc, line)? {
        Ok(parts) => answer(alloc, state, &parts),
        Err(answer) => Ok(answer),
    }
}

/// The same where there is no chain.
pub(crate) fn check_unheld(alloc: Global, line: &[u8]) -> Result<Checked, NoMemory>
    ensures { IfOk result (IsChecked not_begun line.now) }
{
    match read_line(alloc, line)? {
        Ok(_) => Ok(Checked::Unknown),
        Err(answer) => Ok(answer),
    }
}

// The parts of the link that a line is; or its answer, whatever the chain, where it is none.
fn read_line(alloc: Global, line: &[u8]) -> Result<Result<LinkParts, Checked>, NoMemory>
    ensures { IfOk result (IsSaid line.now) }
{
    let text = match from_utf8(line) {
        Ok(text) => text,
        Err(_) => return Ok(Err(Checked::NotText)),
    };
    match read_link(alloc, text) {
        Ok(parts) => Ok(Ok(parts)),
        Err(fault) => match fault {
            LinkFault::NoMemory => Err(NoMemory),
            _ => Ok(Err(Checked::BadLink(fault))),
        },
    }
}

// What the link of these parts is answered.
fn answer(alloc: Global, state: &State, parts: &LinkParts) -> Result<Checked, NoMemory>
    ensures { IfOk result (λ answer. answer_to (begun state.now.issuer state.now.entries) parts.now ≡ Some answer) }
{
    if parts.nif != *state.issuer() {
        return Ok(Checked::OtherIssuer);
    }
    if !state.is_known_on(&parts.num, parts.day) {
        return Ok(Checked::Unknown);
    }
    let Some((place, sealed)) = state.last_accepted(alloc, &parts.num)? else {
        return Ok(Checked::Refused);
    };
    Ok(beside(place, &sealed, parts.total))
}

// The invoice's last accepted record, with its total compared with a link's.
fn beside(place: u32, sealed: &Sealed, total: Cents) -> Checked
    ensures { result ≡ settled total (place, sealed.now) }
{
    match &sealed.body {
        Record::Anulacion(_) => Checked::Cancelled { place },
        Record::Alta(alta) => {
            if alta.draft.lines.total() == total {
                Checked::Found { place }
            } else {
                Checked::Differs { place }
            }
        }
    }
}
