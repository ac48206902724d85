//! Pairs of words.
ghost use Rattle.std.specs.Prelude.{◌≡◌, ◌≤◌, ◌<◌, ◌∷◌, ◌++◌, ◌+◌, ◌↔◌, [], ℕ, List, IfSome, None, bytes_eq, false, length, map, string_bytes, true};
ghost use Rattle.std.specs.List.{list_any};
ghost use Rattle.verifactu.specs.Pairs.{ArePairs, AreApart, IsRead, files_in};
ghost use Rattle.parties.specs.declared.limits.TheConstants.{MAX_ISSUERS};

use crate::nifs::Nifs;
use parties::Nif;

// The file is named among these words.
fn names(words: &[String], file: &str) -> bool
    ensures { result ≡ list_any (λ name. bytes_eq name file.now) (files_in (map string_bytes words.now)) }
{
    let Some((name, others)) = words.split_first() else {
        return false;
    };
    let Some((_nif, rest)) = others.split_first() else {
        return false;
    };
    name.as_bytes() == file.as_bytes() || names(rest, file)
}

// No file is named twice.
fn files_apart(words: &[String]) -> bool
    ensures { (result ≡ true) ↔ AreApart (files_in (map string_bytes words.now)) }
{
    let Some((file, others)) = words.split_first() else {
        return true;
    };
    let Some((_nif, rest)) = others.split_first() else {
        return true;
    };
    if names(rest, file.as_str()) {
        return false;
    }
    files_apart(rest)
}

fn stands_in(nifs: &[Nif], nif: &Nif) -> bool
    ensures { result ≡ list_any (λ other. bytes_eq other nif.now) nifs.now }
{
    nifs.iter().any(|other| other == nif)
}

// No tax number stands twice.
fn nifs_apart(nifs: &[Nif]) -> bool
    ensures { (result ≡ true) ↔ AreApart nifs.now }
{
    let Some((first, others)) = nifs.split_first() else {
        return true;
    };
    if stands_in(others, first) {
        return false;
    }
    nifs_apart(others)
}

fn is_unnamed(word: &String) -> bool
    ensures yes { result ≡ true → length (string_bytes word.now) ≡ 0 }
    ensures no { result ≡ false → 0 < length (string_bytes word.now) }
{
    word.as_str().is_empty()
}

// Adds the tax numbers of these pairs. Whether they are pairs, and as few as there may be.
fn add_pairs(words: &[String], nifs: &mut Nifs) -> bool
    ensures pairs { result ≡ true → (own : List (List ℕ)) × (nifs.new ≡ nifs.old ++ own) × ArePairs (map string_bytes words.now) own }
    ensures none { result ≡ false → (own : List (List ℕ)) → ArePairs (map string_bytes words.now) own →
        length nifs.old + length own ≤ MAX_ISSUERS → ⊥ }
{
    let Some((file, others)) = words.split_first() else {
        return true;
    };
    let Some((nif, rest)) = others.split_first() else {
        return false;
    };
    if is_unnamed(file) || nifs.is_full() {
        return false;
    }
    match Nif::read(nif.as_str()) {
        Err(_) => false,
        Ok(nif) => {
            nifs.add(nif);
            add_pairs(rest, nifs)
        }
    }
}

// The tax numbers of these pairs, the first of which is this one.
fn read_from(first: Nif, rest: &[String]) -> Option<Nifs>
    ensures some { IfSome result (λ nifs. (own : List (List ℕ)) × (nifs ≡ first ∷ own) × ArePairs (map string_bytes rest.now) own) }
    ensures none { result ≡ None → (own : List (List ℕ)) → ArePairs (map string_bytes rest.now) own →
        length own < MAX_ISSUERS → ⊥ }
{
    let mut nifs = Nifs::of(first);
    if add_pairs(rest, &mut nifs) {
        Some(nifs)
    } else {
        None
    }
}

// The tax numbers of these pairs.
fn read_first(words: &[String]) -> Option<Nifs>
    ensures some { IfSome result (λ nifs. ArePairs (map string_bytes words.now) nifs) }
    ensures none { result ≡ None → (own : List (List ℕ)) → ArePairs (map string_bytes words.now) own →
        1 ≤ length own → length own ≤ MAX_ISSUERS → ⊥ }
{
    let Some((file, others)) = words.split_first() else {
        return None;
    };
    let Some((nif, rest)) = others.split_first() else {
        return None;
    };
    if is_unnamed(file) {
        return None;
    }
    match Nif::read(nif.as_str()) {
        Err(_) => None,
        Ok(nif) => read_from(nif, rest),
    }
}

/// The tax numbers of these words, which are two to eight pairs of a file's name and a tax number: no name is empty, and neither a
/// name nor a tax number stands twice. None exactly where they are none.
pub fn read_pairs(words: &[String]) -> Option<Nifs>
    //= The words of `many` are two to eight pairs of a file's name and a tax number, no name is empty, and neither
    //= stands twice; else they are refused.
    ensures { IsRead (map string_bytes words.now) result }
{
    let Some(nifs) = read_first(words) else {
        return None;
    };
    if nifs.as_slice().len() < 2 {
        return None;
    }
    if !nifs_apart(nifs.as_slice()) {
        return None;
    }
    if !files_apart(words) {
        return None;
    }
    Some(nifs)
}
