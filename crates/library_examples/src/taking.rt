//! A sale, from the file to the ticket.
ghost use Rattle.std.specs.Prelude.{◌≡◌, ◌⊎◌, IfOk, IsTrue};
ghost use Rattle.std.specs.Int.{IsInRange};
ghost use Rattle.chain_disk.specs.OnDisk.{LeavesNow};
ghost use Rattle.chain_store.specs.Store.{Ready, journal_of, state_of};
ghost use Rattle.journal.specs.Journal.{disk_of};
ghost use Rattle.record_codec.specs.declared.entry.TheConstants.{LAST_TILL};
ghost use Rattle.shop_core.specs.File.Files.{StandsFor};
ghost use Rattle.library_examples.specs.Taking.{Answers, IsTicketAt, IsTicketOf};

use amounts::Cents;
use chain_disk::Disk;
use chain_store::{OpenCause, Store};
use huella::huella_text;
use invoice_kinds::Kind;
use journal::StoreFault;
use parties::Nif;
use ports::Clock;
use record_fields::{Draft, Record, Refs, Text};
use recovery::open_store;
use series::SeriesName;
use shop_core::{Ask, Receipt, Refusal, Reply, Request, State};
use std::alloc::Global;
use std::io::{self, Write};
use tax_lines::{Breakdown, Class, LineKey, TaxLine};
use verify_link::{Host, link_of};

/// What a ticket shows of a sale: its Huella, 64 capital hexadecimal digits, and the link of its QR code.
#[derive(Drop)]
pub struct Ticket {
    pub huella: [u8; 64],
    pub link: Text,
}

/// Why there is no ticket. Ask again under the same serial: a sale that was kept is told again, and not made twice.
#[derive(Clone, Copy, Debug, PartialEq, Eq)]
pub enum NoTicket {
    NotOpened(OpenCause),
    Refused(Refusal),
    NotKept(StoreFault),
    /// What stands under this serial is a cancellation.
    NoSale,
    NoMemory,
}

/// A sale over the counter: a simplified invoice of one line at the general rate. A till numbers its asks itself, from 1.
/// None where memory runs out or the base is too large for one line.
pub fn counter_sale(
    alloc: Global,
    till: u8,
    serial: u32,
    series: SeriesName,
    base: Cents,
) -> Option<Ask>
    requires till { IsInRange 1 LAST_TILL till }
    requires serial { IsInRange 1 4_294_967_295 serial }
{
    let line = TaxLine {
        key: LineKey::iva(Class::General),
        base,
    };
    let Ok(lines) = Breakdown::of(alloc, &[line]) else {
        return None;
    };
    let draft = Draft {
        kind: Kind::F2,
        rect: None,
        customer: None,
        refs: Refs::of(Vec::new(alloc)),
        lines,
    };
    Some(Ask::new(till, serial, Request::Sale { series, draft }))
}

/// Opens the file of an issuer's chain, takes a sale and gives its ticket, with the store for the next one.
pub fn open_and_take<D: Disk + Drop, C: Clock + Drop>(
    alloc: Global,
    disk: D,
    clock: C,
    issuer: &Nif,
    sale: &Ask,
) -> Result<(Ticket, Store<D, C>), NoTicket>
    // The chain is what the file stood for, with the sale's record after it where it is new. From then on each crash leaves the
    // whole chain. The ticket is that of its record under this till and serial.
    //= After a sale the chain is the history that the file stood for with what the answer to the ask adds to it.
    //= No body: it is `open_store` and `Store::take`
    ensures answers { IfOk result (λ r. Answers D.tells issuer.now (D.on_disk disk).content (C.coming clock) sale.now
        (state_of r.1).entries) }
    //= After a sale each crash leaves the whole chain.
    //= No body: it is `Store::take`
    ensures kept { IfOk result (λ r. IsTrue D.tells →
        LeavesNow (D.on_disk (disk_of (journal_of r.1))) (StandsFor (state_of r.1).version (state_of r.1).issuer (state_of r.1).entries)) }
    //= The ticket of a sale has the Huella and the link of the record under its till and serial, an alta.
    ensures ticket { IfOk result (λ r. IsTicketOf (state_of r.1).entries sale.now r.0) }
    ensures ready { IfOk result (λ r. Ready D.tells D.on_disk r.1) }
{
    let mut store = match open_store(alloc, disk, clock, issuer) {
        Ok(store) => store,
        Err(fault) => return Err(NoTicket::NotOpened(fault.cause)),
    };
    let receipt = receipt_of(store.take(alloc, sale))?;
    let ticket = ticket_of(alloc, store.state(), receipt.place)?;
    Ok((ticket, store))
}

// The receipt of a sale that was kept, now or before.
fn receipt_of(told: Result<Reply, StoreFault>) -> Result<Receipt, NoTicket>
    ensures { IfOk result (λ receipt. (told ≡ Ok (Reply.Taken receipt)) ⊎ (told ≡ Ok (Reply.Again receipt))) }
{
    match told {
        Ok(Reply::Taken(receipt) | Reply::Again(receipt)) => Ok(receipt),
        Ok(Reply::Refused(why)) => Err(NoTicket::Refused(why)),
        Err(fault) => Err(NoTicket::NotKept(fault)),
    }
}

// The ticket of the record at this place.
fn ticket_of(alloc: Global, state: &State, place: u32) -> Result<Ticket, NoTicket>
    ensures { IfOk result (IsTicketAt state.now.entries place) }
{
    let Ok(found) = state.sealed(alloc, place) else {
        return Err(NoTicket::NoMemory);
    };
    let Some(sealed) = found else {
        return Err(NoTicket::NoSale);
    };
    let Record::Alta(alta) = &sealed.body else {
        return Err(NoTicket::NoSale);
    };
    match link_of(alloc, alta, Host::Real) {
        Ok(link) => Ok(Ticket {
            huella: huella_text(&sealed.huella),
            link,
        }),
        Err(_) => Err(NoTicket::NoMemory),
    }
}

/// Prints a ticket: its Huella and its link, a line each.
pub fn print_ticket<W: Write>(out: &mut W, ticket: &Ticket) -> io::Result<()> {
    out.write_all(&ticket.huella)?;
    out.write_all(b"\n")?;
    out.write_all(ticket.link.as_slice())?;
    out.write_all(b"\n")
}
