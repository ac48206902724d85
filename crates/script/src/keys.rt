//! Keys of customers.
ghost use Rattle.std.specs.Prelude.{◌≡◌, IfOk};
ghost use Rattle.std.specs.Char.{is_ascii_alphanumeric};
ghost use Rattle.std.specs.List.{list_all};
ghost use Rattle.std.specs.String.{string_bytes};
ghost use Rattle.script.specs.Readings as spec;

use ports::NoMemory;
use std::alloc::Global;
use std::marker::Model;

/// The key of a customer. Contracts see its bytes.
#[derive(Drop)]
pub struct Key {
    text: String,
}

impl Model for Key {
    ghost use Rattle.std.specs.Prelude.{ℕ, List};
    ghost use Rattle.std.specs.String.{string_bytes};

    ghost Value = { List ℕ };

    ghost view = { λ k. string_bytes k.text };
}

impl Key {
    pub fn of(alloc: Global, text: &str) -> Result<Key, NoMemory>
        ensures { IfOk result (λ key. key ≡ text.now) }
    {
        Ok(Key {
            text: String::from_str(alloc, text)?,
        })
    }

    /// Its bytes.
    pub fn as_slice(&self) -> &[u8]
        ensures { result.now ≡ self.now }
    {
        self.text.as_bytes()
    }

    /// Its text.
    pub fn into_text(self) -> String
        ensures { string_bytes result ≡ self }
    {
        self.text
    }
}

fn all_alphanumeric(text: &[u8]) -> bool
    ensures { result ≡ list_all is_ascii_alphanumeric text.now }
{
    text.iter().all(|c| c.is_ascii_alphanumeric())
}

/// 1 to 20 letters or digits of ASCII.
pub fn is_key(text: &str) -> bool
    ensures { result ≡ spec.is_key text.now }
{
    let n = text.len();
    1 <= n && n <= 20 && all_alphanumeric(text.as_bytes())
}
