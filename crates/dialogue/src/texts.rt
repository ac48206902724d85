//! The texts of answers.
ghost use Rattle.std.specs.Prelude.{◌≡◌, ◌++◌, ◌∷◌, [], OnOk, IfOk, codes, decimal};
ghost use Rattle.dialogue.specs.Protocol as spec;
ghost use Rattle.dialogue.specs.Protocol.{says, too_long, unended, wrong, wrong_question};
ghost use Rattle.script.specs.declared.lines.Meaning.TheVariants.{Clock, Command};

use itoa::Buffer;
use journal::StoreFault;
use ports::NoMemory;
use questions::QuestionFault;
use record_fields::Text;
use report::{AnswerLine, Answers, answers_text, word_text};
use script::Meaning;
use shop_core::{Ask, Reply, Word};
use std::alloc::{AllocError, Global};

fn put(text: &mut Vec<u8>, part: &[u8]) -> Result<(), AllocError>
    ensures { OnOk result (text.new.items ≡ text.old.items ++ part.now) }
{
    text.extend_from_slice(part)
}

fn put_number(text: &mut Vec<u8>, n: u64) -> Result<(), AllocError>
    ensures { OnOk result (text.new.items ≡ text.old.items ++ decimal n) }
{
    let mut buffer = Buffer::new();
    text.extend_from_slice(buffer.format(n).as_bytes())
}

fn customer_text(alloc: Global, key: &[u8]) -> Result<Text, NoMemory>
    ensures { IfOk result (λ text. text ≡ codes "customer " ++ key.now ++ codes "\n") }
{
    let mut text = Vec::new(alloc);
    put(&mut text, b"customer ")?;
    put(&mut text, key)?;
    put(&mut text, b"\n")?;
    Ok(Text::of(text))
}

/// The answer to a clock line.
pub fn clock_text(alloc: Global, start: u64, step: u64) -> Result<Text, NoMemory>
    ensures { IfOk result (λ text. text ≡ spec.answer_text 0 (says (Clock start step)) []) }
{
    let mut text = Vec::new(alloc);
    put(&mut text, b"clock ")?;
    put_number(&mut text, start)?;
    put(&mut text, b" ")?;
    put_number(&mut text, step)?;
    put(&mut text, b"\n")?;
    Ok(Text::of(text))
}

fn numbered(alloc: Global, number: u64, word: &[u8]) -> Result<Text, NoMemory>
    ensures { IfOk result (λ text. text ≡ spec.numbered number word.now) }
{
    let mut text = Vec::new(alloc);
    put(&mut text, b"line ")?;
    put_number(&mut text, number)?;
    put(&mut text, b" ")?;
    put(&mut text, word)?;
    put(&mut text, b"\n")?;
    Ok(Text::of(text))
}

/// The answer to a wrong line.
pub fn wrong_text(alloc: Global, number: u64, word: Word) -> Result<Text, NoMemory>
    ensures { IfOk result (λ text. text ≡ spec.answer_text number (wrong word) []) }
{
    numbered(alloc, number, word_text(word))
}

/// The answer to a question's line with a fault.
pub fn wrong_question_text(
    alloc: Global,
    number: u64,
    fault: QuestionFault,
) -> Result<Text, NoMemory>
    ensures { IfOk result (λ text. text ≡ spec.answer_text number (wrong_question fault) []) }
{
    numbered(alloc, number, fault.text())
}

/// The answer to a line that is too long.
pub fn too_long_text(alloc: Global, number: u64) -> Result<Text, NoMemory>
    ensures { IfOk result (λ text. text ≡ spec.answer_text number too_long []) }
{
    numbered(alloc, number, b"too-long")
}

/// The answer to a last line without its LF.
pub fn unended_text(alloc: Global, number: u64) -> Result<Text, NoMemory>
    ensures { IfOk result (λ text. text ≡ spec.answer_text number unended []) }
{
    numbered(alloc, number, b"unended")
}

/// The answer to a line that is no command.
pub fn meaning_text(alloc: Global, number: u64, meaning: &Meaning) -> Result<Text, NoMemory>
    ensures { IfOk result (λ text. text ≡ spec.answer_text number (says meaning.now) []) }
{
    match meaning {
        Meaning::Clock { start, step } => clock_text(alloc, *start, *step),
        Meaning::Customer { key, party: _ } => customer_text(alloc, key.as_slice()),
        _ => Ok(Text::of(Vec::new(alloc))),
    }
}

/// The answer to a command that got this reply.
pub fn command_text(
    alloc: Global,
    ask: &Ask,
    reply: &Result<Reply, StoreFault>,
) -> Result<Text, NoMemory>
    //= A command's answer names its till and serial, and tells its reply.
    ensures { IfOk result (λ text. text ≡ spec.reply_text ask.now reply.now) }
{
    let mut lines = Vec::new(alloc);
    lines.push(AnswerLine::Answered {
        till: ask.till,
        serial: ask.serial,
        reply: *reply,
    })?;
    answers_text(alloc, &Answers::of(lines))
}
