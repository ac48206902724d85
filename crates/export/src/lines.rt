//! Lines of JSON.
ghost use Rattle.std.specs.Prelude.{◌≡◌, ◌↔◌, ◌≤◌, IfOk, IfErr, List, ℕ, IsTrue, MatchResult, Some, false};
ghost use Rattle.serde_json.specs.Data.{depth};
ghost use Rattle.serde_json.specs.Read.{max_depth};
ghost use Rattle.serde_json.specs.View.{view};
ghost use Rattle.serde_json.specs.Written.{compact_text, has_float};
ghost use Rattle.parties.specs.Nif.{IsNif};
ghost use Rattle.record_codec.specs.declared.entry.Entry.{Entry as AnyEntry};
ghost use Rattle.export.specs.Fields.{Gives, HasHead};
ghost use Rattle.export.specs.Lines.{is_one_line, value_read, IsRefusal, IsLineOf, IsLineReading, IsHeadOf, IsHeadReading};
ghost use Rattle.export.specs.Objects.{head_object, object_of};
ghost use Rattle.export.specs.declared.faults.LineFault.TheVariants as fault;
ghost use Rattle.record_codec.specs.Validity.{AreFields, HasIssuer};
ghost use Rattle.record_fields.specs.declared.versions.Version.{Version as AnyVersion};
ghost use Rattle.export.specs.declared.heads.Head.{Head as AnyHead};

use crate::faults::{LineFault, Unread};
use crate::fields::{byte_at, nif_of, text_at};
use crate::heads::Head;
use crate::objects::{entry_value, head_value};
use crate::records::{entry_of, is_in_ranges};
use parties::Nif;
use ports::NoMemory;
use record_codec::{Entry, Version, fields_are_valid, fits};
use record_fields::Text;
use serde_json::{Category, Value};
use std::alloc::{AllocError, Global};

// The text of a value, without blanks.
fn text_of(alloc: Global, value: &Value) -> Result<Text, AllocError>
    requires plain { has_float (view value.now) ≡ false }
    requires nests { depth (view value.now) ≤ max_depth }
    ensures text { IfOk result (λ text. text ≡ compact_text (view value.now)) }
    ensures line { IfOk result (λ text. IsTrue (is_one_line text)) }
    ensures read { IfOk result (λ text. value_read text ≡ Some (view value.now)) }
{
    Ok(Text::of(value.to_vec(alloc)?))
}

/// The value that serde_json reads of a line; `Json` where it reads none.
pub fn value_of(alloc: Global, line: &[u8]) -> Result<Value, LineFault>
    ensures ok { IfOk result (λ v. value_read line.now ≡ Some (view v)) }
    ensures nests { IfOk result (λ v. depth (view v) ≤ max_depth) }
    ensures err { IfErr result (IsRefusal line.now) }
{
    match Value::from_slice(alloc, line) {
        Ok(value) => Ok(value),
        Err(e) => match e.classify() {
            Category::Memory => Err(LineFault::NoMemory),
            _ => Err(LineFault::Json),
        },
    }
}

// Whether two values are one.
fn is_same(alloc: Global, a: &Value, b: &Value) -> Result<bool, AllocError>
    requires plain { has_float (view b.now) ≡ false }
    requires nests { depth (view a.now) ≤ max_depth }
    requires nests_too { depth (view b.now) ≤ max_depth }
    ensures { IfOk result (λ same. IsTrue same ↔ (view a.now ≡ view b.now)) }
{
    let a = a.to_vec(alloc)?;
    let b = b.to_vec(alloc)?;
    Ok(a.as_slice() == b.as_slice())
}

fn is_object_of(alloc: Global, value: &Value, entry: &Entry) -> Result<bool, AllocError>
    requires { depth (view value.now) ≤ max_depth }
    ensures { IfOk result (λ same. IsTrue same ↔ (view value.now ≡ object_of entry.now)) }
{
    is_same(alloc, value, &entry_value(alloc, entry)?)
}

/// The first line of a history, without its LF. The object has `issuer` (the NIF), `t` (`chain`) and `version` (1 or 2).
pub fn head_text(alloc: Global, issuer: &Nif, version: Version) -> Result<Text, NoMemory>
    ensures text { IfOk result (λ text. text ≡ compact_text (head_object issuer.now version)) }
    ensures line { IfOk result (λ text. IsTrue (is_one_line text)) }

    // It is read back.
    //= A head's line is read back as that head.
    //= No body: it is written and read as an entry is
    ensures read { IfOk result (λ text. IsHeadOf (record { issuer = issuer.now; version = version }) text) }
{
    let _bytes = issuer.bytes();
    Ok(text_of(alloc, &head_value(alloc, issuer, version)?)?)
}

/// The line of an entry, without its LF: a compact object with its keys in the order of their bytes.
///
/// - An alta has `customer` (null, or an object of `name` and `nif`), `day` (the invoice's, `DD-MM-YYYY`), `fix` (whether it
///   mends an earlier alta), `huella` (64 capital hexadecimal digits, as the agency's hash specification has them), `kind` (`F1`
///   to `R5`), `lines` (pairs of a word as in a script and a base in cents), `link` (null, or an object of `day`, `huella` and
///   `num` of the record before), `num`, `offset` (60 or 120 minutes ahead of UTC), `rechazo` (`N`, `S` or `X`), `rect` (null,
///   `S` or `I`), `refs` (pairs of a number and a day), `seconds` (from 1970 on, UTC), `serial`, `t` (`alta`) and `till`.
/// - An anulación has `day`, `huella`, `link`, `num`, `offset`, `rechazo` (true or false), `seconds`, `serial`, `sin_registro`
///   (true or false), `t` (`anulacion`) and `till`.
/// - Notes have `first` (how many lines were noted before), `lines` (pairs of the agency's word and its code, 0 where it has
///   none) and `t` (`notes`).
pub fn entry_text(alloc: Global, entry: &Entry) -> Result<Text, NoMemory>
    //= Where there is memory, an entry's line is the compact text of its object, whose keys stand in the order of
    //= their bytes.
    ensures text { IfOk result (λ text. text ≡ compact_text (object_of entry.now)) }
    ensures line { IfOk result (λ text. IsTrue (is_one_line text)) }

    // It is read back, in a file of a version that has the entry.
    ensures read { IfOk result (λ text. value_read text ≡ Some (object_of entry.now)) }
    //= The line of an entry is read back as that entry, in each version that has it.
    ensures read_back { (version : AnyVersion) (issuer : List ℕ) → AreFields version entry.now → HasIssuer issuer entry.now
        → IfOk result (λ text. IsLineOf version issuer entry.now text) }
{
    Ok(text_of(alloc, &entry_value(alloc, entry)?)?)
}

/// Whether the line reads as the object of the issuer and the version. What is no JSON doesn't.
pub fn is_head_line(
    alloc: Global,
    issuer: &Nif,
    version: Version,
    line: &[u8],
) -> Result<bool, NoMemory>
    //= Whether a line reads as this head's object is told exactly.
    //= No body: it is the comparison by which `read_head` reads
    ensures { IfOk result (λ is. IsTrue is ↔ (value_read line.now ≡ Some (head_object issuer.now version))) }
{
    match value_of(alloc, line) {
        Ok(value) => { Ok(is_same(alloc, &value, &head_value(alloc, issuer, version)?)?) }
        Err(LineFault::NoMemory) => Err(NoMemory),
        Err(_) => Ok(false),
    }
}

/// Whether the line reads as the object of the entry. What is no JSON doesn't.
pub fn is_entry_line(alloc: Global, entry: &Entry, line: &[u8]) -> Result<bool, NoMemory>
    //= Whether a line reads as this entry's object is told exactly.
    //= No body: it is the comparison by which `read_entry` reads
    ensures { IfOk result (λ is. IsTrue is ↔ (value_read line.now ≡ Some (object_of entry.now))) }
{
    match value_of(alloc, line) {
        Ok(value) => Ok(is_object_of(alloc, &value, entry)?),
        Err(LineFault::NoMemory) => Err(NoMemory),
        Err(_) => Ok(false),
    }
}

// What the first line may say.
fn head_of(value: &Value) -> Result<Head, Unread>
    ensures { (head : AnyHead) → IsNif head.issuer → HasHead head (view value.now) → Gives head result }
{
    let issuer = nif_of(text_at(value, "issuer")?)?;
    let version = byte_at(value, "version")?;
    let version = Version::of_number(version).ok_or(Unread::Shape)?;
    Ok(Head { issuer, version })
}

/// What the first line of a history says. `Json` exactly where serde_json reads no value of the bytes, as where they are no
/// UTF-8; `Shape` exactly where the value is the object of no issuer and version.
pub fn read_head(alloc: Global, line: &[u8]) -> Result<Head, LineFault>
    //= A head is read exactly where the line reads as the object of an issuer and a version; else the answer is
    //= `Json` exactly where no value is read, and `Shape` exactly otherwise, out of memory aside.
    //= No body: it is read as an entry is, by comparing the line with what its object would be
    ensures answer { IsHeadReading line.now result }

    // No other head has this line.
    ensures only { (head : AnyHead) → IsHeadOf head line.now
        → MatchResult result (λ found. found ≡ head) (λ e. e ≡ fault.NoMemory) }
{
    let value = value_of(alloc, line)?;
    let head = head_of(&value)?;
    let _bytes = head.issuer.bytes();
    if is_same(
        alloc,
        &value,
        &head_value(alloc, &head.issuer, head.version)?,
    )? {
        Ok(head)
    } else {
        Err(LineFault::Shape)
    }
}

/// The entry of a line, in a file of this version and issuer; a record is this issuer's, who isn't in the line. `Json` exactly
/// where serde_json reads no value of the bytes, as where they are no UTF-8; `Shape` exactly where the value is the object of no
/// entry that the version has.
pub fn read_entry(
    alloc: Global,
    version: Version,
    issuer: &Nif,
    line: &[u8],
) -> Result<Entry, LineFault>
    //= An entry is read exactly where the line reads as the object of an entry that the version has and whose record
    //= is the issuer's; else the answer is `Json` exactly where no value is read, and `Shape` exactly otherwise, out
    //= of memory aside.
    ensures answer { IsLineReading version issuer.now line.now result }

    // No other entry has this line.
    //= A line that is an entry's is read as no other.
    //= No body: what breaks it breaks `answer` too
    ensures only { (entry : AnyEntry) → IsLineOf version issuer.now entry line.now
        → MatchResult result (λ found. found ≡ entry) (λ e. e ≡ fault.NoMemory) }
{
    let value = value_of(alloc, line)?;
    let entry = entry_of(alloc, issuer, &value)?;
    if !is_in_ranges(&entry) || !fits(version, &entry) {
        return Err(LineFault::Shape);
    }
    fields_are_valid(version, &entry);
    if is_object_of(alloc, &value, &entry)? {
        Ok(entry)
    } else {
        Err(LineFault::Shape)
    }
}
