//! Tax numbers.
ghost use Rattle.std.specs.Prelude.{◌≡◌, ℕ, ◌<◌, ◌≤◌, ◌+◌, ◌-◌, ◌||◌, List, length, IsTrue, ◌↔◌, true, false};
ghost use Rattle.parties.specs.Nif as spec;

use std::marker::Model;

/// A Spanish tax number, with its control byte right.
///
/// A person's is eight digits, or X, Y or Z and seven digits, and a control letter (Real Decreto 1065/2007, articles 19 and
/// 20). An entity's is a letter for its kind, seven digits, and a control digit or letter (Orden EHA/451/2008). That an
/// entity's control may be either, whatever its letter, is this project's own. The two are then two tax numbers.
#[derive(Clone, Copy, Debug, PartialEq, Eq, PartialOrd, Ord, Hash)]
pub struct Nif {
    bytes: [u8; 9],
}

impl Model for Nif {
    ghost use Rattle.std.specs.Prelude.{List, ℕ};
    ghost use Rattle.parties.specs.Nif.{IsNif};

    ghost Value = { List ℕ };

    ghost view = { λ n. n.bytes };

    ghost invariant = { λ n. IsNif n.bytes };

    ghost inverse = { λ t. record { bytes = t } };
}

/// Why a text is no tax number.
#[derive(Clone, Copy, Debug, PartialEq, Eq)]
pub enum NifFault {
    /// It has not nine bytes.
    Length,
    /// It is none of: 8 digits and a capital letter; X, Y or Z, 7 digits and a capital letter; one of `ABCDEFGHJNPQRSUVW`,
    /// 7 digits, and a digit or a letter A to J.
    Shape,
    /// The last byte is wrong. This ASCII byte would be right: the letter of a person, the digit of an entity.
    Control { wanted: u8 },
}

// A person's control letter, by the remainder of the number by 23.
const PERSON_LETTERS: [u8; 23] = *b"TRWAGMYFPDXBNJZSQVHLCKE";

// An entity's control letter, by its control digit.
const ENTITY_LETTERS: [u8; 10] = *b"JABCDEFGHI";

fn is_digit(c: u8) -> bool
    ensures { result ≡ spec.is_digit c }
{
    b'0' <= c && c <= b'9'
}

fn is_entity_letter(c: u8) -> bool
    ensures { result ≡ spec.is_entity_letter c }
{
    match c {
        b'A'..=b'H' | b'J' | b'N' | b'P'..=b'S' | b'U'..=b'W' => true,
        _ => false,
    }
}

fn has_seven_digits(t: &[u8; 9]) -> bool
    ensures { result ≡ spec.has_seven_digits t.now }
{
    is_digit(t[1])
        && is_digit(t[2])
        && is_digit(t[3])
        && is_digit(t[4])
        && is_digit(t[5])
        && is_digit(t[6])
        && is_digit(t[7])
}

fn is_person(t: &[u8; 9]) -> bool
    ensures { result ≡ spec.is_person t.now }
{
    (is_digit(t[0]) || (b'X' <= t[0] && t[0] <= b'Z'))
        && has_seven_digits(t)
        && (b'A' <= t[8] && t[8] <= b'Z')
}

fn is_entity(t: &[u8; 9]) -> bool
    ensures { result ≡ spec.is_entity t.now }
{
    is_entity_letter(t[0])
        && has_seven_digits(t)
        && (is_digit(t[8]) || (b'A' <= t[8] && t[8] <= b'J'))
}

// The digit that a person's first byte is read as.
fn first_digit(c: u8) -> u32
    requires { IsTrue (spec.is_digit c || spec.is_foreign_letter c) }
    ensures value { result ≡ spec.first_digit c }
    ensures bound { result < 10 }
{
    if is_digit(c) {
        (c - b'0') as u32
    } else {
        (c - b'X') as u32
    }
}

// The letter of a person's number.
fn person_letter(t: &[u8; 9]) -> u8
    requires { IsTrue (spec.is_person t.now) }
    ensures { result ≡ spec.person_letter t.now }
{
    let number = first_digit(t[0]) * 10_000_000 + seven_digits(t);
    PERSON_LETTERS[(number % 23) as usize]
}

// The number of the seven digits after the first byte.
fn seven_digits(t: &[u8; 9]) -> u32
    requires { IsTrue (spec.has_seven_digits t.now) }
    ensures value { result ≡ spec.seven_digits t.now }
    ensures bound { result < 10_000_000 }
{
    digit(t[1]) * 1_000_000
        + digit(t[2]) * 100_000
        + digit(t[3]) * 10_000
        + digit(t[4]) * 1000
        + digit(t[5]) * 100
        + digit(t[6]) * 10
        + digit(t[7])
}

fn digit(c: u8) -> u32
    requires { IsTrue (spec.is_digit c) }
    ensures value { result ≡ c - 48 }
    ensures bound { result < 10 }
{
    (c - b'0') as u32
}

// The sum of the digits of a doubled digit.
fn doubled(d: u32) -> u32
    requires { d < 10 }
    ensures value { result ≡ spec.doubled d }
    ensures bound { result < 10 }
{
    2 * d / 10 + 2 * d % 10
}

// An entity's control, from 0 to 9.
fn entity_control(t: &[u8; 9]) -> u8
    requires { IsTrue (spec.has_seven_digits t.now) }
    ensures value { result ≡ spec.entity_control t.now }
    ensures bound { result < 10 }
{
    let even = digit(t[2]) + digit(t[4]) + digit(t[6]);
    let odd = doubled(digit(t[1]))
        + doubled(digit(t[3]))
        + doubled(digit(t[5]))
        + doubled(digit(t[7]));
    ((10 - (even + odd) % 10) % 10) as u8
}

impl Nif {
    ghost use Rattle.parties.specs.Nif.{IsNif};
    ghost use Rattle.parties.specs.NifReading.{IsNifReading};

    /// The tax number that the text is. The refusals come in the order `Length`, `Shape`, `Control`.
    pub fn read(text: &str) -> Result<Nif, NifFault>
        //= A tax number is taken exactly in its forms, with its control character; each refusal is the first that
        //= holds.
        ensures { IsNifReading text.now result }
    {
        let bytes = text.as_bytes();
        if bytes.len() != 9 {
            return Err(NifFault::Length);
        }
        Nif::of(&[
            bytes[0], bytes[1], bytes[2], bytes[3], bytes[4], bytes[5], bytes[6], bytes[7],
            bytes[8],
        ])
    }

    // The same of nine bytes.
    fn of(t: &[u8; 9]) -> Result<Nif, NifFault>
        ensures { IsNifReading t.now result }
    {
        if is_person(t) {
            let wanted = person_letter(t);
            if t[8] == wanted {
                return Ok(Nif { bytes: *t });
            }
            return Err(NifFault::Control { wanted });
        }
        if !is_entity(t) {
            return Err(NifFault::Shape);
        }
        let control = entity_control(t);
        if t[8] == b'0' + control || t[8] == ENTITY_LETTERS[control as usize] {
            return Ok(Nif { bytes: *t });
        }
        Err(NifFault::Control {
            wanted: b'0' + control,
        })
    }

    /// Its nine bytes, digits and capital letters.
    pub fn bytes(&self) -> [u8; 9]
        ensures value { result ≡ self.now }
        ensures is { IsNif result }
    {
        self.bytes
    }
}
