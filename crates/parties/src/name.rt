//! Names of parties.
ghost use Rattle.std.specs.Prelude.{◌≡◌, position, nat_eq, IfOk, IsUtf8};
ghost use Rattle.std.specs.Cmp.{partial_equiv_from_equiv};
ghost use Rattle.std.specs.Cmp.Lexicographic.{pointwise, nat_list_eq_equiv};
ghost use Rattle.parties.specs.NameForm.{is_control};

use crate::Nif;
use std::alloc::{AllocError, Global};
use std::marker::Model;

/// The name of a party: 1 to 120 bytes of UTF-8 without control characters, and no blank at either end. The form is this
/// project's own.
#[derive(Debug, Drop)]
pub struct Name {
    text: String,
}

impl Model for Name {
    ghost use Rattle.std.specs.Prelude.{List, ℕ};
    ghost use Rattle.std.specs.String.{string_bytes};
    ghost use Rattle.parties.specs.NameForm.{IsName};

    ghost Value = { List ℕ };

    ghost view = { λ n. string_bytes n.text };

    ghost invariant = { λ n. IsName (string_bytes n.text) };
}

/// Why a text is no name.
#[derive(Clone, Copy, Debug, PartialEq, Eq)]
pub enum NameFault {
    /// It has n bytes, and not 1 to 120.
    Length { n: usize },
    /// The first character below U+0020 or equal to U+007F stands at this byte, counted from 0.
    Char { at: usize },
    /// A blank, U+0020, stands at either end.
    Edge,
    /// There was no memory to keep it.
    NoMemory,
}

// The place of the first control character.
fn first_control(bytes: &[u8]) -> Option<usize>
    ensures { result ≡ position is_control bytes.now }
{
    bytes.iter().position(|b| *b < 32 || *b == 127)
}

impl Name {
    ghost use Rattle.parties.specs.NameForm.{IsName};
    ghost use Rattle.parties.specs.Name.{IsNameReading};

    /// The name that the text is. The refusals come in the order `Length`, `Char`, `Edge`.
    pub fn read(alloc: Global, text: &str) -> Result<Name, NameFault>
        //= A name is taken exactly in its form; each refusal is the first that holds, and out of memory comes only
        //= where the text is a name.
        ensures { IsNameReading text.now result }
    {
        let bytes = text.as_bytes();
        let n = bytes.len();
        if n < 1 || 120 < n {
            return Err(NameFault::Length { n });
        }
        if let Some(at) = first_control(bytes) {
            return Err(NameFault::Char { at });
        }
        if bytes[0] == b' ' || bytes[n - 1] == b' ' {
            return Err(NameFault::Edge);
        }
        match String::from_str(alloc, text) {
            Ok(text) => Ok(Name { text }),
            Err(_) => Err(NameFault::NoMemory),
        }
    }

    /// Its bytes.
    pub fn as_slice(&self) -> &[u8]
        ensures value { result.now ≡ self.now }
        ensures name { IsName result.now }
        //= A name's bytes are a text.
        //= No body: it is the type's invariant
        ensures text { IsUtf8 result.now }
    {
        self.text.as_str().as_bytes()
    }

    /// The same name in memory of its own.
    pub fn copied(&self, alloc: Global) -> Result<Name, AllocError>
        ensures { IfOk result (λ copy. copy ≡ self.now) }
    {
        let text = String::from_str(alloc, self.text.as_str())?;
        Ok(Name { text })
    }
}

impl PartialEq for Name {
    ghost eq = { λ s t. pointwise nat_eq s t };

    ghost laws = { partial_equiv_from_equiv nat_list_eq_equiv };

    fn eq(&self, other: &Self) -> bool {
        self.as_slice() == other.as_slice()
    }
}

impl Eq for Name {
    ghost laws = { nat_list_eq_equiv };
}

/// A party to an invoice.
#[derive(Debug, Drop, PartialEq, Eq)]
pub struct Party {
    pub nif: Nif,
    pub name: Name,
}

impl Party {
    /// The same party in memory of its own.
    pub fn copied(&self, alloc: Global) -> Result<Party, AllocError>
        ensures { IfOk result (λ copy. copy ≡ self.now) }
    {
        let name = self.name.copied(alloc)?;
        Ok(Party {
            nif: self.nif,
            name,
        })
    }
}
