//! The record that a request makes at a history.
ghost use Rattle.std.specs.Prelude.{◌≡◌, ◌<◌, IfOk, length, None, true};
ghost use Rattle.huella.specs.Texts.{sealed_of};
ghost use Rattle.stamps.specs.Stamp.{moment_at};
ghost use Rattle.shop_core.specs.Answer.Refusals as refusals;
ghost use Rattle.shop_core.specs.History as history;
ghost use Rattle.shop_core.specs.Answer.Making as spec;
ghost use Rattle.shop_core.specs.Standing as standing;
ghost use Rattle.shop_core.specs.declared.limits.TheConstants.{MAX_RECORDS};

use crate::{Request, State};
use huella::seal;
use ports::NoMemory;
use record_fields::{Alta, Anulacion, Draft, Link, Previo, Record, Sealed};
use series::{InvoiceId, NumSerie, SeriesName, number};
use stamps::{Stamp, civil_day};
use std::alloc::Global;

fn sale_alta(
    alloc: Global,
    state: &State,
    series: &SeriesName,
    draft: &Draft,
    link: Link,
    moment: Stamp,
) -> Result<Alta, NoMemory>
    requires room { length (history.recs state.now.entries) < MAX_RECORDS }
    requires link { link ≡ history.next_link state.now.entries }
    requires stamp { moment ≡ moment_at moment.seconds }
    ensures { IfOk result (λ alta. alta ≡ spec.sale_alta state.now.issuer state.now.entries series.now draft.now moment.seconds) }
{
    let n = state.sales_of(series) + 1;
    Ok(Alta {
        issuer: *state.issuer(),
        id: InvoiceId {
            num: number(series, n),
            day: civil_day(&moment),
        },
        draft: draft.copied(alloc)?,
        subsanacion: false,
        rechazo: Previo::N,
        link,
        moment,
    })
}

fn fix_rechazo(state: &State, num: &NumSerie) -> Previo
    ensures { result ≡ spec.fix_rechazo state.now.entries num.now }
{
    if !state.is_held(num) {
        return Previo::X;
    }
    if state.ends_in_refused_alta(num) {
        Previo::S
    } else {
        Previo::N
    }
}

fn fix_alta(
    alloc: Global,
    state: &State,
    num: &NumSerie,
    draft: &Draft,
    link: Link,
    moment: Stamp,
) -> Result<Alta, NoMemory>
    requires known { standing.is_known state.now.entries num.now ≡ true }
    requires link { link ≡ history.next_link state.now.entries }
    requires stamp { moment ≡ moment_at moment.seconds }
    ensures { IfOk result (λ alta. alta ≡ spec.fix_alta state.now.issuer state.now.entries num.now draft.now moment.seconds) }
{
    Ok(Alta {
        issuer: *state.issuer(),
        id: InvoiceId {
            num: *num,
            day: state.day_of(num),
        },
        draft: draft.copied(alloc)?,
        subsanacion: true,
        rechazo: fix_rechazo(state, num),
        link,
        moment,
    })
}

fn cancel_anulacion(state: &State, num: &NumSerie, link: Link, moment: Stamp) -> Anulacion
    requires known { standing.is_known state.now.entries num.now ≡ true }
    requires link { link ≡ history.next_link state.now.entries }
    requires stamp { moment ≡ moment_at moment.seconds }
    ensures { result ≡ spec.cancel_anulacion state.now.issuer state.now.entries num.now moment.seconds }
{
    let held = state.is_held(num);
    Anulacion {
        issuer: *state.issuer(),
        id: InvoiceId {
            num: *num,
            day: state.day_of(num),
        },
        sin_registro: !held,
        rechazo: held && state.ends_in_refused_anulacion(num),
        link,
        moment,
    }
}

/// The record that a request makes at this moment.
pub(crate) fn made_record(
    alloc: Global,
    state: &State,
    request: &Request,
    link: Link,
    moment: Stamp,
) -> Result<Record, NoMemory>
    requires room { length (history.recs state.now.entries) < MAX_RECORDS }
    requires known { refusals.unknown state.now.entries request.now ≡ None }
    requires link { link ≡ history.next_link state.now.entries }
    requires stamp { moment ≡ moment_at moment.seconds }
    ensures { IfOk result (λ body. body
        ≡ spec.record_at state.now.issuer state.now.entries request.now moment.seconds) }
{
    match request {
        Request::Sale { series, draft } => Ok(Record::Alta(sale_alta(
            alloc, state, series, draft, link, moment,
        )?)),
        Request::Fix { num, draft } => Ok(Record::Alta(fix_alta(
            alloc, state, num, draft, link, moment,
        )?)),
        Request::Cancel { num } => Ok(Record::Anulacion(cancel_anulacion(
            state, num, link, moment,
        ))),
    }
}

/// The same, sealed.
pub(crate) fn made_sealed(
    alloc: Global,
    state: &State,
    request: &Request,
    link: Link,
    moment: Stamp,
) -> Result<Sealed, NoMemory>
    requires room { length (history.recs state.now.entries) < MAX_RECORDS }
    requires known { refusals.unknown state.now.entries request.now ≡ None }
    requires link { link ≡ history.next_link state.now.entries }
    requires stamp { moment ≡ moment_at moment.seconds }
    ensures { IfOk result (λ sealed. sealed
        ≡ sealed_of (spec.record_at state.now.issuer state.now.entries request.now moment.seconds)) }
{
    let body = made_record(alloc, state, request, link, moment)?;
    Ok(seal(body))
}
