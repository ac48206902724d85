//! Bytes that lie in the value itself.
ghost use Rattle.std.specs.Prelude.{◌≡◌, ◌+◌, ◌≤◌, [], ◌++◌, length, nat_eq};
ghost use Rattle.std.specs.Cmp.{partial_equiv_from_equiv};
ghost use Rattle.std.specs.Cmp.Lexicographic.{pointwise, nat_list_eq_equiv};
ghost use Rattle.std.specs.Cmp.Rules.{hashing};
ghost use Rattle.std.specs.Hash as fed;
ghost use Rattle.std.proofs.Common.{rules};

use std::hash::{Hash, Hasher};
use std::marker::Model;
use std::{fmt, str};

/// At most `N` bytes. Those past the length are 0, so that the bytes determine the value.
#[derive(Clone, Copy)]
pub(crate) struct Inline<const N: usize> {
    bytes: [u8; N],
    len: usize,
}

impl<const N: usize> Model for Inline<N> {
    ghost use Rattle.std.specs.Prelude.{ℕ, ◌-◌, List, ◌++◌, length, take, replicate};
    ghost use Rattle.series.specs.Inline.{IsPadded, length_front, padded_front};

    ghost Value = { List ℕ };

    ghost view = { λ t. take t.len t.bytes };

    ghost invariant = { λ t. IsPadded N t.len t.bytes };

    ghost inverse = { λ v. record { bytes = v ++ replicate (N - length v) 0; len = length v } };

    ghost inverse_ok = { λ t p i. record { bytes = padded_front N t.len t.bytes p i; len = length_front N t.len t.bytes p i } };
}

impl<const N: usize> Inline<N> {
    pub(crate) fn new() -> Self
        ensures { result ≡ [] }
    {
        Inline {
            bytes: [0; N],
            len: 0,
        }
    }

    pub(crate) fn append(&mut self, more: &[u8])
        requires { length self.old + length more.now ≤ N }
        ensures { self.new ≡ self.old ++ more.now }
    {
        let end = self.len + more.len();
        let bytes = &mut self.bytes[..];
        bytes[self.len..end].copy_from_slice(more);
        self.len = end;
    }

    pub(crate) fn as_slice(&self) -> &[u8]
        ensures value { result.now ≡ self.now }
        ensures fits { length result.now ≤ N }
    {
        &self.bytes[..self.len]
    }
}

impl<const N: usize> PartialEq for Inline<N> {
    ghost eq = { λ s t. pointwise nat_eq s t };

    ghost laws = { partial_equiv_from_equiv nat_list_eq_equiv };

    fn eq(&self, other: &Self) -> bool {
        self.as_slice() == other.as_slice()
    }
}

impl<const N: usize> Eq for Inline<N> {
    ghost laws = { nat_list_eq_equiv };
}

impl<const N: usize> Hash for Inline<N> {
    ghost hash_input = { λ s. fed.slice fed.u8 s };

    ghost respects_eq = { Prim.search (hashing, rules) };

    fn hash<H: Hasher>(&self, state: &mut H) {
        self.as_slice().hash(state);
    }
}

impl<const N: usize> fmt::Debug for Inline<N> {
    fn fmt<W: fmt::Write>(&self, f: &mut fmt::Formatter<W>) -> fmt::Result {
        match str::from_utf8(self.as_slice()) {
            Ok(text) => fmt::Debug::fmt(&text, f),
            Err(_) => fmt::Debug::fmt(&self.as_slice(), f),
        }
    }
}
