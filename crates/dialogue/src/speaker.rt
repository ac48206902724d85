//! One line that was said. Each public call has a private one, whose clause is on its line alone: from that the public
//! one's `continues`, on all lines before it, is proved.
use crate::texts::{
    clock_text, meaning_text, too_long_text, unended_text, wrong_question_text, wrong_text,
};
use ports::NoMemory;
use questions::{QuestionFault, TillQuestion, question_of};
use record_fields::Text;
use script::{Fault, Form, Heard, Meaning, without_return};
use shop_core::Ask;
use std::alloc::Global;

/// How far a dialogue is: what was said so far, what may come, and the number of the coming line.
#[derive(Drop)]
pub struct Speaker {
    heard: Heard,
    form: Form,
    number: u64,
}

/// What a line asks of its reader.
#[derive(Drop)]
pub enum Action {
    /// To write this answer, where it isn't empty.
    Write(Text),
    /// To read the clock that counts by STEP from START, and to write this answer.
    Clock { start: u64, step: u64, text: Text },
    /// To ask for this, and to write the answer to its reply, `command_text`.
    Ask(Ask),
    /// To write the answer to this question.
    Look(TillQuestion),
}

impl Speaker {
    ghost use Rattle.std.specs.Prelude.{◌≡◌, ◌≤◌, ◌<◌, ◌+◌, ◌↔◌, ℕ, List, [], length, min, IfOk, IsTrue};
    ghost use Rattle.std.specs.Str.Lines.{strip_carriage_return};
    ghost use Rattle.script.specs.Heard.{known_of};
    ghost use Rattle.script.specs.Lines.{above_of, said};
    ghost use Rattle.script.specs.declared.forms.Form.TheVariants.{First, Later};
    ghost use Rattle.script.specs.declared.lines.Meaning.{Meaning as AnyMeaning};
    ghost use Rattle.dialogue.specs.OneLine.{Begins, HeardAs, IsAction, IsAhead, LineRead, PassesOver, form_of};
    ghost use Rattle.dialogue.specs.Protocol.{nothing_said, question_reading, script_reading, too_long, unended};
    ghost use Rattle.dialogue.specs.Continuing.{SpeakerKnows, Continues};
    ghost use Rattle.line_reader.specs.Lists.{InputLine, text_of, with_lf, without_lf};
    ghost use Rattle.line_reader.specs.declared.reader.TheConstants.{MAX_LINE};
    ghost use Rattle.ports.specs.Causes.{greatest_u64};

    /// A dialogue in which nothing was said.
    pub fn new(alloc: Global) -> Speaker
        ensures begins { Begins result }
        ensures so_far { SpeakerKnows result nothing_said }
    {
        Speaker {
            heard: Heard::nothing(alloc),
            form: Form::First,
            number: 1,
        }
    }

    /// Whether no line was answered yet. Then a clock line may come.
    pub fn is_first(&self) -> bool
        ensures { IsTrue result ↔ (form_of self.now ≡ First) }
    {
        self.form == Form::First
    }

    // The next line has the next number, up to the greatest u64.
    fn go_on(&mut self) -> u64
        ensures number { result ≡ self.old.number }
        ensures next { self.new ≡ record self.old { number = min (self.old.number + 1) greatest_u64 } }
    {
        let number = self.number;
        self.number = number.saturating_add(1);
        number
    }

    // What a question's line asks of its reader.
    fn action_of_question(
        &mut self,
        alloc: Global,
        number: u64,
        asked: Result<TillQuestion, QuestionFault>,
    ) -> Result<Action, NoMemory>
        ensures same { self.new ≡ record self.old { form = Later } }
        ensures ahead { IfOk result (λ action. IsAhead self.old action) }
        ensures action { IfOk result (λ action. IsAction number (question_reading asked) action) }
    {
        self.form = Form::Later;
        match asked {
            Ok(question) => Ok(Action::Look(question)),
            Err(fault) => Ok(Action::Write(wrong_question_text(alloc, number, fault)?)),
        }
    }

    // What a line of a script asks of its reader.
    fn action_of_script_line(
        &mut self,
        alloc: Global,
        number: u64,
        line: &[u8],
    ) -> Result<Action, NoMemory>
        ensures number { self.new.number ≡ self.old.number }
        ensures ahead { IfOk result (λ action. IsAhead self.old action) }
        ensures heard { (before : List AnyMeaning) → known_of self.old.heard ≡ above_of before →
            IfOk result (λ action. HeardAs number before self.old self.new
            (script_reading (said self.old.form before (strip_carriage_return line.now))) action) }
    {
        match self.heard.say(alloc, self.form, line) {
            Err(Fault::NoMemory) => Err(NoMemory),
            Err(Fault::Bad(word)) => {
                self.form = Form::Later;
                Ok(Action::Write(wrong_text(alloc, number, word)?))
            }
            Ok(Meaning::Command(ask)) => {
                self.form = Form::Later;
                Ok(Action::Ask(ask))
            }
            Ok(Meaning::Skip) => {
                self.heard.keep(Meaning::Skip)?;
                Ok(Action::Write(Text::of(Vec::new(alloc))))
            }
            Ok(Meaning::Clock { start, step }) => {
                self.form = Form::Later;
                self.heard.keep(Meaning::Clock { start, step })?;
                let text = clock_text(alloc, start, step)?;
                Ok(Action::Clock { start, step, text })
            }
            Ok(meaning) => {
                self.form = Form::Later;
                let text = meaning_text(alloc, number, &meaning)?;
                self.heard.keep(meaning)?;
                Ok(Action::Write(text))
            }
        }
    }

    // What a line that ended at its LF asks of its reader.
    fn action_of_line(&mut self, alloc: Global, line: &[u8]) -> Result<Action, NoMemory>
        requires { length line.now ≤ MAX_LINE }
        ensures { IfOk result (λ action. LineRead self.old self.new (with_lf line.now) action) }
    {
        let number = self.go_on();
        match question_of(without_return(line)) {
            Some(asked) => self.action_of_question(alloc, number, asked),
            None => self.action_of_script_line(alloc, number, line),
        }
    }

    // The answer to a line that is too long.
    fn pass_too_long(&mut self, alloc: Global) -> Result<Action, NoMemory>
        ensures { IfOk result (λ action. PassesOver self.old self.new too_long action) }
    {
        let number = self.go_on();
        self.form = Form::Later;
        Ok(Action::Write(too_long_text(alloc, number)?))
    }

    // The answer to a last line that has no LF.
    fn pass_unended(&mut self, alloc: Global) -> Result<Action, NoMemory>
        ensures { IfOk result (λ action. PassesOver self.old self.new unended action) }
    {
        let number = self.go_on();
        self.form = Form::Later;
        Ok(Action::Write(unended_text(alloc, number)?))
    }

    /// What a line that ended at its LF asks of its reader; the LF isn't handed in. Once memory has run out the dialogue doesn't go on.
    pub fn next_action(&mut self, alloc: Global, line: &[u8]) -> Result<Action, NoMemory>
        requires { length line.now ≤ MAX_LINE }
        ensures line_read { IfOk result (λ action. LineRead self.old self.new (with_lf line.now) action) }
        //= A line more makes of each dialogue that has come so far one of a line more: it is read by the script's
        //= grammar after what was said above it, or as a question, and there is one answer for it, an empty one for a
        //= line that is skipped.
        ensures continues { IfOk result (λ action. Continues self.old self.new (with_lf line.now) action) }
    {
        self.action_of_line(alloc, line)
    }

    /// The same of a line that is too long, with an LF or without.
    pub fn long_line_action(&mut self, alloc: Global) -> Result<Action, NoMemory>
        ensures passes { IfOk result (λ action. PassesOver self.old self.new too_long action) }
        //= A line that is too long does nothing, leaves nothing for later lines, and is told so.
        //= No body: it is made as that of a line without its LF
        ensures continues { (line : InputLine) → MAX_LINE < length (text_of line) → IfOk result (λ action. Continues self.old self.new line action) }
    {
        self.pass_too_long(alloc)
    }

    /// The same of a last line that has no LF, whatever stands in it.
    pub fn unended_line_action(&mut self, alloc: Global) -> Result<Action, NoMemory>
        ensures passes { IfOk result (λ action. PassesOver self.old self.new unended action) }
        //= A line without its LF does nothing, leaves nothing for later lines, and is told so.
        ensures continues { (text : List ℕ) → length text ≤ MAX_LINE →
            IfOk result (λ action. Continues self.old self.new (without_lf text) action) }
    {
        self.pass_unended(alloc)
    }
}
