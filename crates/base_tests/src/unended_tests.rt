//! A last line without its LF, and how often a source is asked.
use crate::line_reader_tests::Trickle;
use line_reader::{LineReader, MAX_LINE, Next};
use ports::{Failed, MemSource};
use std::alloc::Global;
use std::sync::Wait;
use std::test::Fail;

// What comes of a source of this many bytes and this tail.
fn first_of<R: Wait>(rt: &R, alloc: Global, count: usize, tail: &[u8]) -> Result<Next, Fail> {
    let mut bytes = vec![in alloc; b'#'; count]?;
    bytes.extend_from_slice(tail)?;
    let mut source = MemSource::new(alloc, bytes, Vec::new(alloc));
    let mut reader = LineReader::new(alloc)?;
    match reader.next_line(rt, &mut source) {
        Ok(next) => Ok(next),
        Err(Failed) => Err(Fail::from("a line")),
    }
}

#[test]
fn a_last_line_is_told_by_its_lf_and_its_length(rt: HostRuntime) -> Result<(), Fail> {
    let alloc = rt.alloc();
    assert!(rt; first_of(&rt, alloc, 0, b"")? == Next::End);
    assert!(rt; first_of(&rt, alloc, 0, b"\n")? == Next::Line);
    assert!(rt; first_of(&rt, alloc, 0, b"\r")? == Next::Unended);
    assert!(rt; first_of(&rt, alloc, 0, b"cancel 1 7 A-12")? == Next::Unended);
    assert!(rt; first_of(&rt, alloc, MAX_LINE, b"")? == Next::Unended);
    assert!(rt; first_of(&rt, alloc, MAX_LINE, b"\n")? == Next::Line);
    assert!(rt; first_of(&rt, alloc, MAX_LINE, b"#")? == Next::TooLong);
    Ok(())
}

#[test]
fn a_source_is_asked_once_for_each_line_that_it_gives(rt: HostRuntime) -> Result<(), Fail> {
    let mut reader = LineReader::new(rt.alloc())?;
    // A line of two bytes each time.
    let mut source = Trickle::of(b"a\nb\nc", 2);
    assert!(rt; reader.next_line(&rt, &mut source) == Ok(Next::Line) && source.calls == 1);
    assert!(rt; reader.next_line(&rt, &mut source) == Ok(Next::Line) && source.calls == 2);
    assert!(rt; reader.next_line(&rt, &mut source) == Ok(Next::Unended) && source.calls == 4);
    assert!(rt; reader.next_line(&rt, &mut source) == Ok(Next::End) && source.calls == 4);
    Ok(())
}
