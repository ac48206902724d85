//! Huellas are SHA-256, by another program, of the records' field texts.
ghost use Rattle.std.specs.Prelude.{◌≡◌, IfOk, None};
ghost use Rattle.chain_store.specs.Store.{Ready, journal_of};
ghost use Rattle.journal.specs.Journal.{stopped_of};

use amounts::Cents;
use chain_disk::{Disk, MemDisk};
use chain_store::{OpenCause, Store};
use journal::StoreFault;
use library_examples::{
    NoTicket, NotNoted, Ticket, audit_a_file, counter_sale, first_waiting, link_of_a_sale,
    note_lines, one_till_a_thread, open_and_take, print_ticket,
};
use parties::Nif;
use ports::{Clock, CountingClock};
use record_fields::Line;
use recovery::open_store;
use series::{NumSerie, SeriesName};
use shop_core::{Ask, Reply, Request};
use std::alloc::Global;
use std::test::Fail;
use test_rows::holds;
use verify_link::Host;

// 2025-01-01, 10:00 on the peninsular clock.
const TEN: u64 = 1_735_722_000;

const LINK: &[u8] = b"https://www2.agenciatributaria.gob.es/wlpl/TIKE-CONT/ValidarQR\
?nif=89890001K&numserie=A-1&fecha=01-01-2025&importe=121.00";

const TICKET: &[u8] = b"D88B42F8D11C4EA2112502EC992F055A7E94F796D67095359B946A4A5B03E616\n\
https://www2.agenciatributaria.gob.es/wlpl/TIKE-CONT/ValidarQR\
?nif=89890001K&numserie=A-1&fecha=01-01-2025&importe=121.00\n";

fn issuer() -> Result<Nif, Fail> {
    Ok(Nif::read("89890001K").ok().ok_or("a tax number")?)
}

// A sale of 100 euros by till 1 in the series A.
fn ask(alloc: Global, serial: u32) -> Result<Ask, Fail> {
    if serial < 1 {
        return Err(Fail::from("a serial"));
    }
    let series = SeriesName::read("A").ok_or("a series")?;
    let base = Cents::new(10_000).ok_or("a base")?;
    Ok(counter_sale(alloc, 1, serial, series, base).ok_or("a sale")?)
}

fn request(alloc: Global) -> Result<Request, Fail> {
    Ok(ask(alloc, 1)?.request)
}

fn empty_disk(alloc: Global) -> MemDisk {
    MemDisk::new(alloc, Vec::new(alloc), Vec::new(alloc))
}

// Takes the sale of a serial on a file.
fn sold(
    alloc: Global,
    disk: MemDisk,
    serial: u32,
) -> Result<(Ticket, Store<MemDisk, CountingClock>), Fail> {
    let ask = ask(alloc, serial)?;
    match open_and_take(alloc, disk, CountingClock::new(TEN, 0), &issuer()?, &ask) {
        Ok(sold) => Ok(sold),
        Err(_) => Err(Fail::from("a ticket")),
    }
}

// The file after one sale.
fn file_of_one(alloc: Global) -> Result<MemDisk, Fail> {
    let (_, store) = sold(alloc, empty_disk(alloc), 1)?;
    let (_, disk, _) = store.into_parts();
    Ok(disk)
}

#[test]
fn a_serial_has_one_ticket(rt: HostRuntime) -> Result<(), Fail> {
    let alloc = rt.alloc();
    let (ticket, store) = sold(alloc, file_of_one(alloc)?, 1)?;
    let mut printed = Vec::new(alloc);
    print_ticket(&mut printed, &ticket)?;
    let is_one = store.state().records() == 1;
    holds(is_one && printed.as_slice() == TICKET, "the ticket")
}

// Why there was no ticket of a sale on a disk whose first call fails.
fn unsold(alloc: Global) -> Result<Option<NoTicket>, Fail> {
    let disk = MemDisk::new(alloc, Vec::new(alloc), vec![in alloc; 1u64]?);
    let ask = ask(alloc, 1)?;
    let end = open_and_take(alloc, disk, CountingClock::new(TEN, 0), &issuer()?, &ask);
    Ok(end.err())
}

#[test]
fn a_disk_that_fails_gives_no_ticket(rt: HostRuntime) -> Result<(), Fail> {
    let end = unsold(rt.alloc())?;
    let wanted = NoTicket::NotOpened(OpenCause::DiskFault);
    holds(end == Some(wanted), "not opened")
}

fn opened<D: Disk + Drop, C: Clock + Drop>(
    alloc: Global,
    disk: D,
    clock: C,
) -> Result<Store<D, C>, Fail>
    ensures going_on { IfOk result (λ store. stopped_of (journal_of store) ≡ None) }
    ensures ready { IfOk result (λ store. Ready D.tells D.on_disk store) }
{
    let issuer = issuer()?;
    match open_store(alloc, disk, clock, &issuer) {
        Ok(store) => Ok(store),
        Err(_) => Err(Fail::from("a file")),
    }
}

#[test]
fn what_waits_is_noted_once(rt: HostRuntime) -> Result<(), Fail> {
    let alloc = rt.alloc();
    let disk = file_of_one(alloc)?;
    let mut store = opened(alloc, disk, CountingClock::new(TEN, 0))?;
    let before = first_waiting(alloc, &store)?.len();
    let two = note_lines(alloc, &mut store, &[Line::Correcto, Line::Correcto]);
    let one = note_lines(alloc, &mut store, &[Line::Correcto]);
    let behind = first_waiting(alloc, &store)?.len();
    holds(before == 1 && two == Err(NotNoted::Count), "two lines")?;
    let is_noted = store.state().line(1) == Some(Line::Correcto);
    holds(behind == 0 && one.is_ok() && is_noted, "one line")
}

#[test]
fn a_changed_byte_is_named(rt: HostRuntime) -> Result<(), Fail> {
    let alloc = rt.alloc();
    let mut disk = file_of_one(alloc)?;
    holds(audit_a_file(alloc, &mut disk) == Ok(None), "the file")?;
    let mut bytes = [0; 101];
    holds(disk.read_at(0, &mut bytes) == Ok(101), "its bytes")?;
    bytes[90] ^= 1;
    let changed = Vec::from_slice(alloc, &bytes)?;
    let mut broken = MemDisk::new(alloc, changed, Vec::new(alloc));
    holds(
        audit_a_file(alloc, &mut broken) == Ok(Some(19)),
        "one changed",
    )
}

// The link of a number in the file of one sale.
fn link_in(alloc: Global, num: &str) -> Result<Option<Vec<u8>>, Fail> {
    let num = NumSerie::read(num).ok_or("a number")?;
    let mut disk = file_of_one(alloc)?;
    match link_of_a_sale(alloc, &mut disk, &num, Host::Real) {
        Ok(Some(text)) => Ok(Some(text.into_vec())),
        Ok(None) => Ok(None),
        Err(_) => Err(Fail::from("a file")),
    }
}

#[test]
fn an_invoice_of_the_file_has_a_link(rt: HostRuntime) -> Result<(), Fail> {
    let alloc = rt.alloc();
    let link = link_in(alloc, "A-1")?.ok_or("a link")?;
    holds(link.as_slice() == LINK, "A-1")?;
    holds(link_in(alloc, "A-2")?.is_none(), "A-2")
}

fn is_taken(reply: &Result<Reply, StoreFault>) -> bool {
    matches!(reply, Ok(Reply::Taken(_)))
}

#[test]
fn two_tills_fill_one_chain(rt: HostRuntime) -> Result<(), Fail> {
    let alloc = rt.alloc();
    let store = opened(alloc, empty_disk(alloc), CountingClock::new(TEN, 1))?;
    let first = vec![in alloc; request(alloc)?, request(alloc)?, request(alloc)?]?;
    let second = vec![in alloc; request(alloc)?, request(alloc)?]?;
    let Ok(day) = one_till_a_thread(&rt, alloc, store, &first, &second) else {
        return Err(Fail::from("a day"));
    };
    let are_asked = day.first.len() == 3 && day.second.len() == 2;
    let are_taken = day.first.iter().all(is_taken) && day.second.iter().all(is_taken);
    holds(are_asked && are_taken, "each is taken")?;
    holds(day.store.state().records() == 5, "five records")
}
