//! Strings kept in pages of memory.
use pages::Pages;
use std::test::Fail;
use test_rows::holds;

// How many strings, bytes and pages there are.
fn counts(pages: &Pages) -> (u64, u64, u32) {
    (pages.len(), pages.bytes(), pages.pages())
}

fn push(pages: &mut Pages) -> Result<(), Fail> {
    pages.reserve(4096)?;
    pages.push(&[7; 4096]);
    Ok(())
}

fn is_last(pages: &Pages) -> bool {
    pages.get(16) == Some([7; 4096].as_slice()) && pages.get(17).is_none()
}

#[test]
fn a_seventeenth_string_of_4096_bytes_takes_a_second_page(rt: HostRuntime) -> Result<(), Fail> {
    let mut pages = Pages::empty(rt.alloc());
    holds(counts(&pages) == (0, 0, 0), "none")?;
    for n in 1..=17u64 {
        push(&mut pages)?;
        let wanted = (n, 4096 * n, if n < 17 { 1 } else { 2 });
        holds(counts(&pages) == wanted, "the counts")?;
    }
    holds(is_last(&pages), "the last")
}
