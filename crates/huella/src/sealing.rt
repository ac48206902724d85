//! The Huella of a record: its field text is fed to the hasher piece by piece, and never joined.
ghost use Rattle.std.specs.Prelude.{◌≡◌, ◌++◌, ℕ, List, codes};
ghost use Rattle.sha2.specs.Hashers.{Holds256};
ghost use Rattle.sha2.specs.Sha256.{sha256};
ghost use Rattle.huella.specs.Texts as spec;

use crate::huella_text;
use amounts::text_of;
use record_fields::{Alta, Anulacion, Link, Record, Sealed};
use sha2::{Digest, Sha256};
use stamps::{date_text, moment_text};

/// The record with its Huella: SHA-256 of its field text.
pub fn seal(body: Record) -> Sealed
    //= A record is sealed with its Huella: SHA-256 of the agency's field text.
    ensures { result ≡ spec.sealed_of body }
{
    let huella = huella_of(&body);
    Sealed { body, huella }
}

/// The Huella of a record: SHA-256 of its field text.
pub fn huella_of(body: &Record) -> [u8; 32]
    ensures { result ≡ spec.huella_of body.now }
{
    match body {
        Record::Alta(alta) => alta_huella(alta),
        Record::Anulacion(anulacion) => anulacion_huella(anulacion),
    }
}

fn alta_huella(alta: &Alta) -> [u8; 32]
    ensures { result ≡ sha256 (spec.alta_text alta.now) }
{
    digest_of_fields(
        alta.issuer.bytes().as_slice(),
        alta.id.num.as_slice(),
        date_text(alta.id.day).as_slice(),
        alta.draft.kind.text().as_bytes(),
        text_of(alta.draft.lines.cuota()).as_slice(),
        text_of(alta.draft.lines.total()).as_slice(),
        &alta.link,
        moment_text(&alta.moment).as_slice(),
    )
}

fn anulacion_huella(anulacion: &Anulacion) -> [u8; 32]
    ensures { result ≡ sha256 (spec.anulacion_text anulacion.now) }
{
    digest_of_cancel(
        anulacion.issuer.bytes().as_slice(),
        anulacion.id.num.as_slice(),
        date_text(anulacion.id.day).as_slice(),
        &anulacion.link,
        moment_text(&anulacion.moment).as_slice(),
    )
}

fn digest_of_fields(
    issuer: &[u8],
    num: &[u8],
    date: &[u8],
    kind: &[u8],
    cuota: &[u8],
    total: &[u8],
    link: &Link,
    moment: &[u8],
) -> [u8; 32]
    ensures { result ≡ sha256 (spec.joined_fields issuer.now num.now date.now kind.now cuota.now total.now
        (spec.previous_text link.now) moment.now) }
{
    let mut hasher = Sha256::new();
    feed(&mut hasher, b"IDEmisorFactura=", issuer);
    feed(&mut hasher, b"&NumSerieFactura=", num);
    feed(&mut hasher, b"&FechaExpedicionFactura=", date);
    feed(&mut hasher, b"&TipoFactura=", kind);
    feed(&mut hasher, b"&CuotaTotal=", cuota);
    feed(&mut hasher, b"&ImporteTotal=", total);
    feed_link(&mut hasher, link);
    feed(&mut hasher, b"&FechaHoraHusoGenRegistro=", moment);
    hasher.finalize()
}

fn digest_of_cancel(issuer: &[u8], num: &[u8], date: &[u8], link: &Link, moment: &[u8]) -> [u8; 32]
    ensures { result ≡ sha256 (spec.joined_cancel issuer.now num.now date.now (spec.previous_text link.now) moment.now) }
{
    let mut hasher = Sha256::new();
    feed(&mut hasher, b"IDEmisorFacturaAnulada=", issuer);
    feed(&mut hasher, b"&NumSerieFacturaAnulada=", num);
    feed(&mut hasher, b"&FechaExpedicionFacturaAnulada=", date);
    feed_link(&mut hasher, link);
    feed(&mut hasher, b"&FechaHoraHusoGenRegistro=", moment);
    hasher.finalize()
}

fn feed(hasher: &mut Sha256, name: &[u8], value: &[u8])
    ensures { (m : List ℕ) → Holds256 hasher.old m → Holds256 hasher.new (m ++ name.now ++ value.now) }
{
    hasher.update(name);
    hasher.update(value);
}

fn feed_link(hasher: &mut Sha256, link: &Link)
    ensures { (m : List ℕ) → Holds256 hasher.old m → Holds256 hasher.new (m ++ codes "&Huella=" ++ spec.previous_text link.now) }
{
    match link {
        Link::First => feed(hasher, b"&Huella=", b""),
        Link::After { huella, .. } => {
            feed(hasher, b"&Huella=", huella_text(huella).as_slice());
        }
    }
}
