//! What every record keeps, as the law of field texts asks for it.
ghost use Rattle.parties.specs.Nif.{IsNif};
ghost use Rattle.record_fields.specs.Valid.{IsHuella, IsId, IsMoment};
ghost use Rattle.huella.specs.Stated.{HoldsHuella, IsStated};

use parties::Nif;
use record_fields::{Link, Record};
use series::InvoiceId;
use stamps::Stamp;

/// What every record keeps: its issuer, its number, its day, the Huella before it and its moment are of their forms. So
/// `text_determines_record` holds of any two records.
pub fn is_stated(body: &Record)
    //= Every record meets the premise of `text_determines_record`.
    //= No body: it is the type's invariant
    ensures { IsStated body.now }
{
    match body {
        Record::Alta(alta) => parts_are_stated(&alta.issuer, &alta.id, &alta.link, &alta.moment),
        Record::Anulacion(anulacion) => {
            parts_are_stated(
                &anulacion.issuer,
                &anulacion.id,
                &anulacion.link,
                &anulacion.moment,
            )
        }
    }
}

fn parts_are_stated(issuer: &Nif, id: &InvoiceId, link: &Link, moment: &Stamp)
    ensures issuer { IsNif issuer.now }
    ensures id { IsId id.now }
    ensures link { HoldsHuella link.now }
    ensures moment { IsMoment moment.now }
{
    let _issuer = issuer.bytes();
    let _num = id.num.as_slice();
    let _day = id.day.get();
    let _seconds = moment.seconds;
    if let Link::After { huella, .. } = link {
        huella_is_stated(huella);
    }
}

fn huella_is_stated(huella: &[u8; 32])
    ensures { IsHuella huella.now }
{
    let _len = huella.as_slice().len();
}
