//! The lines that commands stand in.
ghost use Rattle.std.specs.Prelude.{◌≡◌, ◌∷◌, ◌++◌, [], OnOk, filter_map};
ghost use Rattle.script.specs.Numbered.{command_line};

use crate::lines::Meaning;
use ports::NoMemory;
use record_fields::ListOf;

/// The lines of asks, by their numbers from 1.
pub type LineNumbers = ListOf<u32>;

/// Keeps the number of a line that says a command.
pub fn number_line(numbers: &mut Vec<u32>, number: u32, line: &Meaning) -> Result<(), NoMemory>
    ensures { OnOk result (numbers.new.items
        ≡ numbers.old.items ++ filter_map command_line ((number, line.now) ∷ [])) }
{
    match line {
        Meaning::Command(_) => {
            numbers.push(number)?;
            Ok(())
        }
        _ => Ok(()),
    }
}
