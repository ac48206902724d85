//! The reader of lines.
ghost use Rattle.std.specs.Prelude.{◌≡◌, ◌≤◌, false, length, vec_capacity};
ghost use Rattle.line_reader.specs.Reading.{has_lf};

use crate::chunk::Chunk;
use crate::parts::{Stage, absorb, cut};
use ports::{Failed, NoMemory, Source};
use std::alloc::Global;
use std::sync::Wait;

/// The greatest line, in bytes, without its LF. The limit is this project's own.
pub const MAX_LINE: usize = 65_536;

/// What comes next of a source.
#[derive(Clone, Copy, Debug, PartialEq, Eq)]
pub enum Next {
    /// A line up to its LF, which `LineReader::line` gives.
    Line,
    /// What stands after the last LF of the source and has none, which `LineReader::line` gives. It isn't empty.
    Unended,
    /// A line of more than `MAX_LINE` bytes, with an LF or without.
    TooLong,
    /// The end of the source.
    End,
}

/// A reader of lines.
#[derive(Drop)]
pub struct LineReader {
    text: Vec<u8>,
    chunk: Chunk,
    stage: Stage,
    over: bool,
    ghost no_lf: { has_lf text.items ≡ false },
    ghost within: { length text.items ≤ 65536 },
    ghost room: { 65536 ≤ vec_capacity text },
    ghost few: { length chunk.rest ≤ 4096 },
}

impl LineReader {
    ghost use Rattle.std.specs.Prelude.{◌≡◌, ◌<◌, ℕ, [], List, Option, true, false, length, IfOk, IsTrue};
    ghost use Rattle.ports.specs.Causes.{HasCause, IsCounted};
    ghost use Rattle.ports.specs.Sources.{this_source};
    ghost use Rattle.line_reader.specs.Reading.{has_lf, IsUnderway};
    ghost use Rattle.line_reader.specs.Lines.{AtEnd, AtLf, Begins, NextIs, TakesPart, Wholes, is_over, kept_of, line_of};
    ghost use Rattle.line_reader.specs.Lists.{InputLine};
    ghost use Rattle.line_reader.specs.Read.{HasRead, HasReadOn};

    /// A reader that has read nothing. It takes no more memory.
    pub fn new(alloc: Global) -> Result<LineReader, NoMemory>
        ensures { (left : Option (List ℕ)) → IfOk result (λ r. HasRead left left r []) }
    {
        Ok(LineReader {
            text: Vec::with_capacity(alloc, MAX_LINE)?,
            chunk: Chunk::empty(),
            stage: Stage::Part,
            over: false,
        })
    }

    /// The line that was read last, without its LF.
    pub fn line(&self) -> &[u8]
        ensures { result.now ≡ line_of self.now }
    {
        &self.text
    }

    // Lets the last line go.
    fn begin(&mut self)
        ensures { Begins self.old self.new }
    {
        if let Stage::Whole = self.stage {
            self.text.clear();
            self.stage = Stage::Part;
        }
    }

    // Takes what is at hand of the coming line. Whether it was up to an LF.
    fn take_part(&mut self) -> bool
        requires { IsUnderway self.old.stage }
        ensures { TakesPart self.old self.new result }
    {
        let (part, found) = cut(self.chunk.bytes());
        let count = part.len();
        self.stage = absorb(&mut self.text, self.stage, part);
        self.chunk.skip(count);
        found
    }

    // The coming line was read to its end, and is told as of this kind, or as too long.
    fn whole(&mut self, kind: Next) -> Next
        requires { IsUnderway self.old.stage }
        ensures { Wholes self.old self.new kind result }
    {
        match self.stage {
            Stage::Dropping => {
                self.text.clear();
                self.stage = Stage::Part;
                Next::TooLong
            }
            _ => {
                self.stage = Stage::Whole;
                kind
            }
        }
    }

    // It ends at an LF.
    fn at_lf(&mut self) -> Next
        requires underway { IsUnderway self.old.stage }
        requires some { 0 < length self.old.chunk.rest }
        ensures { AtLf self.old self.new result }
    {
        self.chunk.skip(1);
        self.whole(Next::Line)
    }

    // It ends with the source, or there is none.
    fn at_end(&mut self) -> Next
        requires { IsUnderway self.old.stage }
        ensures { AtEnd self.old self.new result }
    {
        self.over = true;
        match self.stage {
            Stage::Part if self.text.is_empty() => Next::End,
            _ => self.whole(Next::Unended),
        }
    }

    // The next line.
    fn advance<S: Source, R: Wait>(&mut self, rt: &R, source: &mut S) -> Result<Next, Failed>
        ensures next { NextIs (this_source S.left S.faults source.old source.new) self.old self.new result }
        ensures unread { has_lf (kept_of self.old) ≡ true → source.new ≡ source.old }
        ensures over { is_over self.old ≡ true → source.new ≡ source.old }
        ensures cause { HasCause (S.faults source.old) (S.faults source.new) result }
        ensures once { IsTrue S.counts → IsCounted (S.faults source.old) (S.faults source.new) result }
    {
        self.begin();
        for _ in rt.forever() {
            if self.take_part() {
                return Ok(self.at_lf());
            }
            if self.over {
                return Ok(self.at_end());
            }
            match self.chunk.fill(source) {
                Err(fault) => return Err(fault),
                Ok(()) => {
                    if self.chunk.bytes().is_empty() {
                        return Ok(self.at_end());
                    }
                }
            }
        }
        unreachable!()
    }

    /// The next line. The source is asked for more only while no whole line is at hand. A failed read is told at once: the reader is
    /// then where it was in the line, and goes on there. Once the source had no more to give it isn't asked again.
    pub fn next_line<S: Source, R: Wait>(&mut self, rt: &R, source: &mut S) -> Result<Next, Failed>
        //= The source is asked for more only while no whole line is at hand.
        ensures next { NextIs (this_source S.left S.faults source.old source.new) self.old self.new result }
        //= Whatever lines were given are the source's, in order, and at its end all of them, a last one without its
        //= LF too, which is told as such, as is one of more than 65,536 bytes.
        ensures read { (left : Option (List ℕ)) (lines : List InputLine) → HasRead left (S.left source.old) self.old lines →
            HasReadOn left (S.left source.new) self.new lines result }
        //= While a line's end is at hand nothing is read.
        //= No body: what breaks it breaks `next` too
        ensures unread { has_lf (kept_of self.old) ≡ true → source.new ≡ source.old }
        //= After the end nothing is read.
        //= No body: it is one look at the stage ahead of all reads
        ensures over { is_over self.old ≡ true → source.new ≡ source.old }
        //= A fault comes only where the source's count of faults rose.
        //= No body: it is the source's own answer
        ensures cause { HasCause (S.faults source.old) (S.faults source.new) result }
        //= The first failed read is told at once: of a source that counts each failed read once one failed where that
        //= is told, else none.
        ensures once { IsTrue S.counts → IsCounted (S.faults source.old) (S.faults source.new) result }
    {
        self.advance(rt, source)
    }
}
