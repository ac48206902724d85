//! Lines that are read, one by one, and what each asks for.
use crate::speaking::SpeechEnd;
use dialogue::{Action, Speaker};
use line_reader::{LineReader, Next};
use ports::{NoMemory, Source};
use std::alloc::Global;
use std::sync::Wait;

/// A reader of lines, and what was said so far.
#[derive(Drop)]
pub struct Listener {
    pub(crate) reader: LineReader,
    pub(crate) speaker: Speaker,
}

// The action of a line that is passed over.
fn let_go(_task: Action) {}

impl Listener {
    ghost use Rattle.std.specs.Prelude.{◌≤◌, ℕ, List, IfOk, IsTrue, Option};
    ghost use Rattle.dialogue.specs.Protocol.{nothing_said};
    ghost use Rattle.dialogue_loop.specs.Speech.{ComesFirst, ComesOnce, HasHeard, HearsOn, IsCause, IsFirst};

    /// A listener to whom nothing was said. It takes memory for lines here alone.
    pub fn new(alloc: Global) -> Result<Listener, NoMemory>
        ensures heard { (left : Option (List ℕ)) → IfOk result (λ l. HasHeard left left l nothing_said) }
        ensures first { IfOk result IsFirst }
    {
        let reader = LineReader::new(alloc)?;
        Ok(Listener {
            reader,
            speaker: Speaker::new(alloc),
        })
    }

    /// Reads the next line, and says what it asks for.
    pub fn next_action<S: Source, R: Wait>(
        &mut self,
        rt: &R,
        alloc: Global,
        source: &mut S,
    ) -> Result<Action, SpeechEnd>
        ensures line_read { (left : Option (List ℕ)) → HearsOn left (S.left source.old) (S.left source.new) self.old self.new result }
        ensures later { S.faults source.old ≤ S.faults source.new }
        ensures cause { IsCause (S.faults source.old) (S.faults source.new) result }
        ensures once { IsTrue S.counts → ComesOnce (S.faults source.old) (S.faults source.new) result }
    {
        match self.reader.next_line(rt, source) {
            Err(_) => Err(SpeechEnd::ReadFault),
            Ok(Next::End) => Err(SpeechEnd::Ended),
            Ok(Next::TooLong) => match self.speaker.long_line_action(alloc) {
                Ok(action) => Ok(action),
                Err(_) => Err(SpeechEnd::NoMemory),
            },
            Ok(Next::Unended) => match self.speaker.unended_line_action(alloc) {
                Ok(action) => Ok(action),
                Err(_) => Err(SpeechEnd::NoMemory),
            },
            Ok(Next::Line) => match self.speaker.next_action(alloc, self.reader.line()) {
                Ok(action) => Ok(action),
                Err(_) => Err(SpeechEnd::NoMemory),
            },
        }
    }

    /// Passes over lines until one is answered, and says what that one asks for.
    pub fn first_action<S: Source, R: Wait>(
        &mut self,
        rt: &R,
        alloc: Global,
        source: &mut S,
    ) -> Result<Action, SpeechEnd>
        //= Lines are passed over until one is answered.
        //= No body: it is `next_action`, again and again
        ensures first { (left : Option (List ℕ)) → HasHeard left (S.left source.old) self.old nothing_said → IsFirst self.old →
            ComesFirst left (S.left source.new) self.new result }
        ensures later { S.faults source.old ≤ S.faults source.new }
        ensures cause { IsCause (S.faults source.old) (S.faults source.new) result }
        ensures once { IsTrue S.counts → ComesOnce (S.faults source.old) (S.faults source.new) result }
    {
        for _ in rt.forever() {
            match self.next_action(rt, alloc, source) {
                Err(end) => return Err(end),
                Ok(action) => {
                    if !self.speaker.is_first() {
                        return Ok(action);
                    }
                    let_go(action);
                }
            }
        }
        unreachable!()
    }
}
