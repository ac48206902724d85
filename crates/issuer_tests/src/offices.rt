//! Several issuers in one installation. Huellas are SHA-256, by another program, of the records' field texts.
ghost use Rattle.std.specs.Prelude.{◌≡◌, All, IfOk, OnOk};
ghost use Rattle.chain_store.specs.Store.{Ready};

use chain_disk::{Disk, MemDisk};
use chain_store::Store;
use huella::huella_text;
use issuers::{Office, OfficeAnswer, OfficeAnswers, Stores, are_distinct, read_many};
use journal::StoreFault;
use parties::{MAX_ISSUERS, Nif};
use ports::{Clock, CountingClock};
use recovery::open_store;
use script::MAX_SCRIPT;
use shop_core::Reply;
use std::alloc::Global;
use std::test::Fail;
use test_rows::holds;

// 2025-01-01, 10:00 on the peninsular clock.
const TEN: u64 = 1_735_722_000;

const NIFS: [&str; 8] = [
    "89890001K",
    "12345678Z",
    "00000001R",
    "00000002W",
    "00000003A",
    "00000004G",
    "00000005M",
    "00000006Y",
];

// The first sale of the first issuer and of the second, at that hour.
const FIRST: &[u8; 64] = b"D88B42F8D11C4EA2112502EC992F055A7E94F796D67095359B946A4A5B03E616";

const SECOND: &[u8; 64] = b"D5BF920536581985FF19C1A2B9E96DE8883A7E43F46451FF9EBB221047B84401";

// The first issuers.
fn issuers(alloc: Global, count: usize) -> Result<Vec<Nif>, &'static str> {
    let mut issuers = Vec::new(alloc);
    for text in NIFS.iter().take(count) {
        let issuer = Nif::read(text).ok().ok_or("a tax number")?;
        issuers.push(issuer).ok().ok_or("memory")?;
    }
    Ok(issuers)
}

// A store more, of this issuer.
#[tactic(auto, using(crate::proofs::Pushing::one_more))]
fn open_more<D: Disk + Drop, C: Clock + Drop>(
    alloc: Global,
    stores: &mut Vec<Store<D, C>>,
    disk: D,
    clock: C,
    issuer: &Nif,
) -> Result<(), &'static str>
    ensures { All (Ready D.tells D.on_disk) stores.old.items → OnOk result (All (Ready D.tells D.on_disk) stores.new.items) }
{
    match open_store(alloc, disk, clock, issuer) {
        Ok(store) => match stores.push(store) {
            Ok(()) => Ok(()),
            Err(_) => Err("memory"),
        },
        Err(_) => Err("a file"),
    }
}

// The stores of these issuers, on these disks from the last to the first.
fn opened<D: Disk + Drop>(
    alloc: Global,
    issuers: &[Nif],
    disks: Vec<D>,
) -> Result<Vec<Store<D, CountingClock>>, &'static str>
    ensures { IfOk result (λ stores. All (Ready D.tells D.on_disk) stores.items) }
{
    let mut disks = disks;
    let mut stores = Vec::new(alloc);
    for issuer in issuers {
        let disk = disks.pop().ok_or("a disk")?;
        open_more(alloc, &mut stores, disk, CountingClock::new(TEN, 0), issuer)?;
    }
    Ok(stores)
}

// What the stores answer to a script, and the stores then.
fn served<D: Disk + Drop, C: Clock + Drop>(
    alloc: Global,
    stores: Vec<Store<D, C>>,
    issuers: &[Nif],
    bytes: &[u8],
) -> Result<(OfficeAnswers, Stores<D, C>), &'static str>
    requires { All (Ready D.tells D.on_disk) stores.items }
{
    let count = stores.len();
    if count == 0 || count > MAX_ISSUERS || !are_distinct(&stores) || bytes.len() > MAX_SCRIPT {
        return Err("an office");
    }
    let parts = match read_many(alloc, bytes, issuers) {
        Ok(parts) => parts,
        Err(_) => return Err("parts"),
    };
    if parts.len() != count {
        return Err("a part for each");
    }
    let mut office = Office::of(Stores::of(stores));
    let mut answers = OfficeAnswers::new(alloc);
    match office.serve(alloc, &parts, &mut answers) {
        Ok(()) => Ok((answers, office.into_stores())),
        Err(_) => Err("memory"),
    }
}

// What the first issuers answer to a script on empty disks. The third one's disk fails at the call of this number, from 1.
fn answers(
    alloc: Global,
    count: usize,
    failing: Option<u64>,
    bytes: &[u8],
) -> Result<OfficeAnswers, &'static str> {
    let issuers = issuers(alloc, count)?;
    let mut disks = Vec::new(alloc);
    for place in 0..count {
        let mut calls = Vec::new(alloc);
        if let Some(call) = failing {
            if count - place == 3 {
                calls.push(call).ok().ok_or("memory")?;
            }
        }
        disks
            .push(MemDisk::new(alloc, Vec::new(alloc), calls))
            .ok()
            .ok_or("memory")?;
    }
    let stores = opened(alloc, &issuers, disks)?;
    let (answers, _) = served(alloc, stores, &issuers, bytes)?;
    Ok(answers)
}

// A first record of till 1 and serial 1, with this Huella.
fn is_first(answer: &OfficeAnswer, index: u16, huella: &[u8; 64]) -> bool {
    match &answer.reply {
        Ok(Reply::Taken(receipt)) => {
            answer.index == index
                && (answer.till, answer.serial, receipt.place) == (1, 1, 1)
                && huella_text(&receipt.huella) == *huella
        }
        _ => false,
    }
}

#[test]
fn each_issuer_has_its_own_serials(rt: HostRuntime) -> Result<(), Fail> {
    let bytes = b"clock 1735722000 0\nissuer 89890001K\nsale 1 1 A F2 21:10000\n\
        issuer 12345678Z\nsale 1 1 A F2 21:10000\n";
    let answers = answers(rt.alloc(), 2, None, bytes.as_slice())?;
    let [first, second] = answers.as_slice() else {
        return Err(Fail::from("two answers"));
    };
    holds(is_first(first, 0, FIRST), "the first issuer")?;
    holds(is_first(second, 1, SECOND), "the second issuer")?;
    Ok(())
}

const THREE: &[u8] = b"sale 1 1 A F2 21:10000\nsale 1 2 A F2 21:20000\ncancel 1 3 A-1\n";

// Each but the third issuer is told the same in both.
fn others_agree(one: &[OfficeAnswer], other: &[OfficeAnswer]) -> bool {
    if one.len() != other.len() {
        return false;
    }
    for (a, b) in one.iter().zip(other) {
        if a.index != b.index || (a.index != 2 && a.reply != b.reply) {
            return false;
        }
    }
    true
}

fn failed(answers: &[OfficeAnswer]) -> usize {
    answers
        .iter()
        .filter(|answer| answer.reply == Err(StoreFault::DiskFault))
        .count()
}

// The disk fails while its file is opened, or at one of its sales.
#[test]
fn a_disk_that_fails_is_its_issuers_alone(rt: HostRuntime) -> Result<(), Fail> {
    let alloc = rt.alloc();
    let whole = answers(alloc, 8, None, THREE)?;
    let mut seen = 0usize;
    for call in 1..40 {
        if let Ok(some) = answers(alloc, 8, Some(call), THREE) {
            let agree = others_agree(whole.as_slice(), some.as_slice());
            holds(agree, "the others")?;
            seen = failed(some.as_slice()).saturating_add(seen);
        }
    }
    holds(seen > 5, "so many faults")?;
    Ok(())
}

// The first issuer's commands, with and without those of another one between them.
#[test]
fn an_issuer_is_answered_as_alone(rt: HostRuntime) -> Result<(), Fail> {
    let both =
        b"issuer 89890001K\nsale 1 1 A F2 21:100\nissuer 12345678Z\nsale 1 1 A F2 21:7\ncancel 1 2 A-1\n\
        issuer 89890001K\nsale 1 1 A F2 21:100\ncancel 1 3 A-2\nsale 2 1 A F2 21:300\n";
    let one = b"sale 1 1 A F2 21:100\nsale 1 1 A F2 21:100\ncancel 1 3 A-2\nsale 2 1 A F2 21:300\n";
    let both = answers(rt.alloc(), 2, None, both.as_slice())?;
    let one = answers(rt.alloc(), 1, None, one.as_slice())?;
    let mut left = one.as_slice();
    for answer in both.as_slice().iter().filter(|answer| answer.index == 0) {
        let [first, others @ ..] = left else {
            return Err(Fail::from("an answer"));
        };
        holds(first.till == answer.till, "the till")?;
        holds(first.serial == answer.serial, "the serial")?;
        holds(first.reply == answer.reply, "the reply")?;
        left = others;
    }
    holds(left.is_empty(), "no other answer")?;
    holds(both.as_slice().len() == 6, "the answers of both")?;
    Ok(())
}
