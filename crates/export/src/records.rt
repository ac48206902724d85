//! The entry whose object a value is, if it is one. Whether it is, is left to the caller.
ghost use Rattle.std.specs.Prelude.{◌≡◌, ◌↔◌, ℕ, ◌≤◌, ◌<◌, ◌^◌, List, IfOk, Some, IsTrue, codes};
ghost use Rattle.serde_json.specs.Find.{get};
ghost use Rattle.serde_json.specs.View.{view};
ghost use Rattle.tax_lines.specs.Breakdown.{IsBreakdown};
ghost use Rattle.tax_lines.specs.declared.lines.TaxLine.{TaxLine as AnyTaxLine};
ghost use Rattle.record_fields.specs.Records.{issuer_of};
ghost use Rattle.record_fields.specs.Valid.{IsDraft};
ghost use Rattle.record_fields.specs.declared.drafts.Draft.{Draft as AnyDraft};
ghost use Rattle.record_fields.specs.declared.lines.Line.{Line as AnyLine};
ghost use Rattle.record_fields.specs.declared.records.Alta.{Alta as AnyAlta};
ghost use Rattle.record_fields.specs.declared.records.Anulacion.{Anulacion as AnyAnulacion};
ghost use Rattle.record_fields.specs.declared.records.Record.{Record as AnyRecord};
ghost use Rattle.record_fields.specs.declared.records.Sealed.{Sealed as AnySealed};
ghost use Rattle.record_fields.specs.declared.versions.Version.{Version as AnyVersion};
ghost use Rattle.record_codec.specs.declared.entry.Entry.{Entry as AnyEntry};
ghost use Rattle.record_codec.specs.declared.entry.Entry.TheVariants as entry;
ghost use Rattle.record_codec.specs.Validity.{AreFields, AreNotes, HasFewRefs, HasIssuer, InRanges, IsAlta, IsAnulacion, IsBody, IsRec};
ghost use Rattle.export.specs.Fields.{Gives, HasAlta, HasAnulacion, HasBody, HasDraft, HasRecord};
ghost use Rattle.export.specs.Objects as spec;

use crate::elements::list_of;
use crate::faults::Unread;
use crate::fields::{
    byte_at, customer_at, flag_at, huella_at, id_at, kind_at, link_at, long_at, member, moment_at,
    previo_at, rect_at, text_at,
};
use parties::Nif;
use record_codec::{Entry, LAST_TILL, MAX_NOTES};
use record_fields::{Alta, Anulacion, Draft, Lines, MAX_REFS, Record, Refs, Sealed};
use serde_json::Value;
use std::alloc::Global;
use tax_lines::{Breakdown, LinesFault};

fn breakdown_at(alloc: Global, value: &Value) -> Result<Breakdown, Unread>
    ensures { (lines : List AnyTaxLine) → IsBreakdown lines
        → get (codes "lines") (view value.now) ≡ Some (spec.array_from spec.tax_line_value lines) → Gives lines result }
{
    let lines = list_of(alloc, member(value, "lines")?)?;
    match Breakdown::of(alloc, &lines) {
        Ok(breakdown) => Ok(breakdown),
        Err(fault) => match fault {
            LinesFault::NoMemory => Err(Unread::NoMemory),
            _ => Err(Unread::Shape),
        },
    }
}

fn draft_at(alloc: Global, value: &Value) -> Result<Draft, Unread>
    ensures { (draft : AnyDraft) → IsDraft draft → HasDraft draft (view value.now) → Gives draft result }
{
    let kind = kind_at(value)?;
    let rect = rect_at(value)?;
    let customer = customer_at(alloc, value)?;
    let refs = list_of(alloc, member(value, "refs")?)?;
    let lines = breakdown_at(alloc, value)?;
    Ok(Draft {
        kind,
        rect,
        customer,
        refs: Refs::of(refs),
        lines,
    })
}

fn alta_at(alloc: Global, issuer: &Nif, value: &Value) -> Result<Alta, Unread>
    ensures issuer { IfOk result (λ alta. alta.issuer ≡ issuer.now) }
    ensures gives { (version : AnyVersion) (alta : AnyAlta) → IsAlta version alta → alta.issuer ≡ issuer.now → HasAlta alta (view value.now)
        → Gives alta result }
{
    let id = id_at(value)?;
    let draft = draft_at(alloc, value)?;
    let subsanacion = flag_at(value, "fix")?;
    let rechazo = previo_at(value)?;
    let link = link_at(value)?;
    let moment = moment_at(value)?;
    Ok(Alta {
        issuer: *issuer,
        id,
        draft,
        subsanacion,
        rechazo,
        link,
        moment,
    })
}

fn anulacion_at(issuer: &Nif, value: &Value) -> Result<Anulacion, Unread>
    ensures issuer { IfOk result (λ anulacion. anulacion.issuer ≡ issuer.now) }
    ensures gives { (anulacion : AnyAnulacion) → IsAnulacion anulacion → anulacion.issuer ≡ issuer.now
        → HasAnulacion anulacion (view value.now) → Gives anulacion result }
{
    let id = id_at(value)?;
    let sin_registro = flag_at(value, "sin_registro")?;
    let rechazo = flag_at(value, "rechazo")?;
    let link = link_at(value)?;
    let moment = moment_at(value)?;
    Ok(Anulacion {
        issuer: *issuer,
        id,
        sin_registro,
        rechazo,
        link,
        moment,
    })
}

fn body_at(alloc: Global, issuer: &Nif, is_alta: bool, value: &Value) -> Result<Record, Unread>
    ensures issuer { IfOk result (λ body. issuer_of body ≡ issuer.now) }
    ensures gives { (version : AnyVersion) (body : AnyRecord) → IsBody version body → issuer_of body ≡ issuer.now → HasBody body is_alta (view value.now)
        → Gives body result }
{
    if is_alta {
        Ok(Record::Alta(alta_at(alloc, issuer, value)?))
    } else {
        Ok(Record::Anulacion(anulacion_at(issuer, value)?))
    }
}

fn record_of(alloc: Global, issuer: &Nif, is_alta: bool, value: &Value) -> Result<Entry, Unread>
    ensures issuer { IfOk result (HasIssuer issuer.now) }
    ensures gives { (version : AnyVersion) (till serial : ℕ) (sealed : AnySealed) → IsRec version till serial sealed → issuer_of sealed.body ≡ issuer.now
        → HasRecord till serial sealed is_alta (view value.now) → Gives (entry.Rec till serial sealed) result }
{
    let till = byte_at(value, "till")?;
    let serial = long_at(value, "serial")?;
    let body = body_at(alloc, issuer, is_alta, value)?;
    let huella = huella_at(value)?;
    let sealed = Sealed { body, huella };
    Ok(Entry::Rec {
        till,
        serial,
        sealed,
    })
}

fn notes_of(alloc: Global, value: &Value) -> Result<Entry, Unread>
    ensures issuer { IfOk result (λ entry. (issuer : List ℕ) → HasIssuer issuer entry) }
    ensures gives { (first : ℕ) (lines : List AnyLine) → AreNotes first lines
        → view value.now ≡ spec.notes_object first lines → Gives (entry.Notes first lines) result }
{
    let first = long_at(value, "first")?;
    let lines = list_of(alloc, member(value, "lines")?)?;
    Ok(Entry::Notes {
        first,
        lines: Lines::of(lines),
    })
}

/// The only entry of this issuer whose object the value may be.
pub(crate) fn entry_of(alloc: Global, issuer: &Nif, value: &Value) -> Result<Entry, Unread>
    ensures issuer { IfOk result (HasIssuer issuer.now) }
    ensures gives { (version : AnyVersion) (entry : AnyEntry) → AreFields version entry → HasIssuer issuer.now entry
        → view value.now ≡ spec.object_of entry → Gives entry result }
{
    match text_at(value, "t")? {
        "alta" => record_of(alloc, issuer, true, value),
        "anulacion" => record_of(alloc, issuer, false, value),
        "notes" => notes_of(alloc, value),
        _ => Err(Unread::Shape),
    }
}

/// Whether the till, the serial, the references and the lines of an entry are in their ranges.
pub(crate) fn is_in_ranges(entry: &Entry) -> bool
    ensures { IsTrue result ↔ InRanges entry.now }
{
    match entry {
        Entry::Rec {
            till,
            serial,
            sealed,
        } => 1 <= *till && *till <= LAST_TILL && 1 <= *serial && has_few_refs(&sealed.body),
        Entry::Notes { lines, .. } => 1 <= lines.len() && lines.len() <= MAX_NOTES as usize,
    }
}

fn has_few_refs(body: &Record) -> bool
    ensures { IsTrue result ↔ HasFewRefs body.now }
{
    match body {
        Record::Alta(alta) => alta.draft.refs.len() <= MAX_REFS,
        Record::Anulacion(_) => true,
    }
}
