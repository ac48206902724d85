//! Links written and read. The encoded numbers are those of another program's encoder.
use amounts::Cents;
use parties::Nif;
use record_fields::{Alta, Link, Previo};
use series::{InvoiceId, NumSerie};
use stamps::{Day, stamp_at};
use std::alloc::Global;
use std::test::Fail;
use test_rows::{holds, sale_draft};
use verify_link::{Host, LinkParts, link_of, read_link};

// What the links below say, but for their number.
fn parts(host: Host, num: &str, total: i64) -> Result<LinkParts, Fail> {
    let nif = match Nif::read("89890001K") {
        Ok(nif) => nif,
        Err(_) => return Err(Fail::from("a tax number")),
    };
    Ok(LinkParts {
        host,
        nif,
        num: NumSerie::read(num).ok_or("a number")?,
        day: Day::read("01-01-2025").ok_or("a day")?,
        total: Cents::new(total).ok_or("an amount")?,
    })
}

// An alta that says them, with one line of 100.00 at 21 percent.
fn alta(alloc: Global, parts: &LinkParts) -> Result<Alta, Fail> {
    let moment = match stamp_at(1_735_729_200) {
        Ok(moment) => moment,
        Err(_) => return Err(Fail::from("a moment")),
    };
    Ok(Alta {
        issuer: parts.nif,
        id: InvoiceId {
            num: parts.num,
            day: parts.day,
        },
        draft: sale_draft(alloc, 10_000)?,
        subsanacion: false,
        rechazo: Previo::N,
        link: Link::First,
        moment,
    })
}

// A host, a number and its link. The last two have every character that a number may hold.
const LINKS: [(Host, &str, &str); 4] = [
    (
        Host::Real,
        "12&G33/A-1",
        "https://www2.agenciatributaria.gob.es/wlpl/TIKE-CONT/ValidarQR?nif=89890001K&numserie=12%26G33%2FA-1&fecha=01-01-2025&importe=121.00",
    ),
    (
        Host::Practice,
        "12&G33/A-1",
        "https://prewww2.aeat.es/wlpl/TIKE-CONT/ValidarQR?nif=89890001K&numserie=12%26G33%2FA-1&fecha=01-01-2025&importe=121.00",
    ),
    (
        Host::Real,
        "0 !#$%&()*+,-./:;?@[\\]^_`{|}~123456789",
        "https://www2.agenciatributaria.gob.es/wlpl/TIKE-CONT/ValidarQR?nif=89890001K&numserie=0%20%21%23%24%25%26%28%29%2A%2B%2C-.%2F%3A%3B%3F%40%5B%5C%5D%5E_%60%7B%7C%7D~123456789&fecha=01-01-2025&importe=121.00",
    ),
    (
        Host::Real,
        "ABCDEFGHIJKLMNOPQRSTUVWXYZabcdefghijklmnopqrstuvwxyz",
        "https://www2.agenciatributaria.gob.es/wlpl/TIKE-CONT/ValidarQR?nif=89890001K&numserie=ABCDEFGHIJKLMNOPQRSTUVWXYZabcdefghijklmnopqrstuvwxyz&fecha=01-01-2025&importe=121.00",
    ),
];

#[test]
fn links_are_written_and_read_back(rt: HostRuntime) -> Result<(), Fail> {
    let alloc = rt.alloc();
    for (host, num, text) in LINKS {
        let parts = parts(host, num, 12_100)?;
        let link = link_of(alloc, &alta(alloc, &parts)?, host)?;
        holds(link.as_slice() == text.as_bytes(), text)?;
        match read_link(alloc, text) {
            Ok(read) => holds(read == parts, text)?,
            Err(fault) => return Err(Fail::from(fault)),
        }
    }
    Ok(())
}
