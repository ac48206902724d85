//! Lines of their own, read as links and held against a file by this many workers.
use crate::files::FILE;
use chain_disk::MemDisk;
use link_check::{Checked, CheckedList, LinkLines, check_all, check_unbegun};
use record_fields::Bytes;
use shop_core::{FileRead, State, read_file};
use std::alloc::Global;
use std::test::Fail;
use test_rows::holds;

// The file has A-1 of 121.00 and A-2 of 11.00, both of one day.
const LINKS: [(&[u8], Checked); 5] = [
    (
        b"https://www2.agenciatributaria.gob.es/wlpl/TIKE-CONT/ValidarQR?nif=89890001K&numserie=A-1&fecha=01-01-2025&importe=121.00",
        Checked::Found { place: 1 },
    ),
    (
        b"https://www2.agenciatributaria.gob.es/wlpl/TIKE-CONT/ValidarQR?nif=89890001K&numserie=A-2&fecha=01-01-2025&importe=11.00",
        Checked::Found { place: 2 },
    ),
    (
        b"https://www2.agenciatributaria.gob.es/wlpl/TIKE-CONT/ValidarQR?nif=89890001K&numserie=A-2&fecha=01-01-2025&importe=12.00",
        Checked::Differs { place: 2 },
    ),
    (
        b"https://www2.agenciatributaria.gob.es/wlpl/TIKE-CONT/ValidarQR?nif=89890001K&numserie=A-3&fecha=01-01-2025&importe=11.00",
        Checked::Unknown,
    ),
    (b"\xff", Checked::NotText),
];

fn scanned(alloc: Global) -> Result<LinkLines, Fail> {
    let mut lines = Vec::new(alloc);
    for (line, _) in LINKS {
        lines.push(Bytes::of(Vec::from_slice(alloc, line)?))?;
    }
    Ok(LinkLines::of(lines))
}

fn state_of(alloc: Global) -> Result<State, Fail> {
    let mut disk = MemDisk::new(alloc, Vec::from_slice(alloc, FILE)?, Vec::new(alloc));
    match read_file(alloc, &mut disk) {
        Ok(FileRead::Sound { state, .. }) => Ok(state),
        _ => Err(Fail::from("a file that is read")),
    }
}

// Whether these are the answers of the lines: of a file that isn't begun each link is unknown.
fn are(answers: &CheckedList, begun: bool) -> bool {
    let mut same = answers.as_slice().len() == LINKS.len();
    for (answer, (_, wanted)) in answers.as_slice().iter().zip(LINKS) {
        let unheld = wanted != Checked::NotText && !begun;
        same = same && *answer == if unheld { Checked::Unknown } else { wanted };
    }
    same
}

#[test]
fn each_line_has_its_answer_by_so_many_workers(rt: HostRuntime) -> Result<(), Fail> {
    let alloc = rt.alloc();
    let lines = scanned(alloc)?;
    let state = state_of(alloc)?;
    let one = check_all(&rt, alloc, &state, &lines, 1)?;
    holds(are(&one, true), "one worker")?;
    let two = check_all(&rt, alloc, &state, &lines, 2)?;
    holds(are(&two, true), "two workers")?;
    let many = check_all(&rt, alloc, &state, &lines, 16)?;
    holds(are(&many, true), "sixteen workers")?;
    holds(are(&check_unbegun(alloc, &lines)?, false), "no file")
}
