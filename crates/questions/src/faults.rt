//! What is wrong in a question's line.
use report::word_text;
use shop_core::Word;

/// The first fault of a question's line.
#[derive(Clone, Copy, Debug, PartialEq, Eq)]
pub enum QuestionFault {
    /// One of a script's too.
    Word(Word),
    /// No host has this name.
    Host,
}

impl From<Word> for QuestionFault {
    ghost use Rattle.std.specs.Prelude.{◌≡◌};
    ghost use Rattle.questions.specs.declared.faults.QuestionFault.TheVariants as fault;

    ghost from_gives = { λ word e. e ≡ fault.Word word };

    fn from(word: Word) -> Self {
        QuestionFault::Word(word)
    }
}

impl QuestionFault {
    ghost use Rattle.std.specs.Prelude.{◌≡◌};
    ghost use Rattle.questions.specs.Reading.{fault_text};

    /// The word that is printed of it.
    pub fn text(self) -> &'static [u8]
        ensures { result.now ≡ fault_text self }
    {
        match self {
            QuestionFault::Word(word) => word_text(word),
            QuestionFault::Host => b"Host",
        }
    }
}
