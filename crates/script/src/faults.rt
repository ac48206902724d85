//! Why a line, or a part of it, says nothing.
ghost use Rattle.script.specs.SoFar.{IsSaid};

use ports::NoMemory;
use shop_core::Word;

/// Why a line, or a part of it, says nothing.
#[derive(Clone, Copy, Drop)]
pub enum Fault {
    /// What is wrong in it.
    Bad(Word),
    /// There was no memory for what it says.
    NoMemory,
}

impl From<Word> for Fault {
    ghost use Rattle.std.specs.Prelude.{◌≡◌};
    ghost use Rattle.script.specs.declared.faults.Fault.TheVariants as fault;

    ghost from_gives = { λ word e. e ≡ fault.Bad word };

    fn from(word: Word) -> Self {
        Fault::Bad(word)
    }
}

impl From<NoMemory> for Fault {
    ghost use Rattle.std.specs.Prelude.{◌≡◌};
    ghost use Rattle.script.specs.declared.faults.Fault.TheVariants as fault;

    ghost from_gives = { λ _ e. e ≡ fault.NoMemory };

    fn from(_: NoMemory) -> Self {
        Fault::NoMemory
    }
}

/// The same answer, where lack of memory may come too.
pub fn worded<T>(said: Result<T, Word>) -> Result<T, Fault>
    ensures { IsSaid said result }
{
    match said {
        Ok(said) => Ok(said),
        Err(word) => Err(Fault::Bad(word)),
    }
}
