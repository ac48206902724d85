//! A shop without a disk: what each ask is answered.
use crate::records::{TEN, draft_of, issuer, line};
use huella::huella_text;
use invoice_kinds::Kind;
use record_codec::Version;
use record_fields::DraftFault;
use series::SeriesName;
use shop_core::{Ask, Receipt, Refusal, Reply, Request, State, reply_to};
use std::alloc::Global;
use std::test::Fail;
use tax_lines::LineKey;
use test_rows::holds;

// A sale of 100 euros by till 1, in a line whose key has this word.
fn sale(alloc: Global, word: &str) -> Result<Ask, Fail> {
    let key = LineKey::read(word).ok_or("a key")?;
    let draft = draft_of(alloc, Kind::F2, &[line(key, 10_000)?])?;
    let series = SeriesName::read("A").ok_or("a series")?;
    Ok(Ask::new(1, 1, Request::Sale { series, draft }))
}

fn answered(alloc: Global, state: &mut State, ask: &Ask) -> Result<Reply, Fail> {
    Ok(reply_to(alloc, state, ask, TEN)?)
}

fn bad_draft(_: DraftFault) -> Fail {
    Fail::from("a bad draft")
}

fn receipt_of(reply: Reply) -> Result<Receipt, Fail> {
    match reply {
        Reply::Taken(receipt) => Ok(receipt),
        Reply::Refused(Refusal::BadDraft(fault)) => Err(bad_draft(fault)),
        _ => Err(Fail::from("not taken")),
    }
}

// The receipt of a sale, which is taken.
fn taken(alloc: Global, state: &mut State, ask: &Ask) -> Result<Receipt, Fail> {
    match answered(alloc, state, ask) {
        Ok(reply) => receipt_of(reply),
        Err(why) => Err(why),
    }
}

// The counts of a state's records, entries, pages and bytes, and whether its first entry and no second one is read.
type Counts = (u32, u64, u32, u64, bool);

fn counts(alloc: Global, state: &State) -> Result<Counts, Fail> {
    let held = state.held();
    let first = state.entry(alloc, 0)?.is_some();
    let second = state.entry(alloc, 1)?.is_some();
    Ok((
        state.records(),
        state.entries(),
        held.pages,
        held.bytes,
        first && !second,
    ))
}

fn copied_sale(alloc: Global, word: &str) -> Result<Ask, Fail> {
    Ok(sale(alloc, word)?.copied(alloc)?)
}

fn empty(alloc: Global, version: Version) -> Result<State, Fail> {
    Ok(State::empty(alloc, &issuer()?, version))
}

// The Huella of a first sale on a file of this version, and the counts then.
fn first_sale(alloc: Global, version: Version, word: &str) -> Result<([u8; 64], Counts), Fail> {
    let ask = copied_sale(alloc, word)?;
    let mut state = empty(alloc, version)?;
    let receipt = taken(alloc, &mut state, &ask)?;
    Ok((huella_text(&receipt.huella), counts(alloc, &state)?))
}

const FIRST: &[u8; 64] = b"D88B42F8D11C4EA2112502EC992F055A7E94F796D67095359B946A4A5B03E616";

const OF_IGIC: &[u8; 64] = b"357E582BB1783E5B1657FEB345467B88EA84552B9B1E6CC279FDFB2911BCDD5E";

type FirstSale = (&'static str, Version, &'static str, u64, &'static [u8; 64]);

const FIRST_SALES: [FirstSale; 3] = [
    ("in version 1", Version::One, "21", 73, FIRST),
    ("in version 2", Version::Two, "21", 76, FIRST),
    ("of another tax", Version::Two, "03/700", 76, OF_IGIC),
];

fn is_first(alloc: Global, row: &FirstSale) -> Result<(), Fail> {
    let (huella, counts) = first_sale(alloc, row.1, row.2)?;
    let are_right = counts == (1, 1, 1, row.3, true);
    holds(huella == *row.4 && are_right, row.0)
}

#[test]
fn a_sale_takes_one_page_and_73_or_76_bytes(rt: HostRuntime) -> Result<(), Fail> {
    for row in &FIRST_SALES {
        is_first(rt.alloc(), row)?;
    }
    Ok(())
}
