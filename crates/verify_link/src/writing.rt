//! A link as a text.
ghost use Rattle.std.specs.Prelude.{◌≡◌, ◌++◌, IfOk, OnOk, IsAscii};
ghost use Rattle.std.specs.String.{string_bytes};
ghost use Rattle.verify_link.specs.Writing.{encoded};
ghost use Rattle.verify_link.specs.Parts.{joined_link, link_text, parts_of, IsLinkParts};

use crate::Host;
use crate::encoding::encode_onto;
use amounts::text_of;
use ports::NoMemory;
use record_fields::{Alta, Text};
use stamps::date_text;
use std::alloc::Global;

/// The verification link of an alta at this host.
pub fn link_of(alloc: Global, alta: &Alta, host: Host) -> Result<Text, NoMemory>
    //= A link says an alta's four values, each percent-encoded.
    ensures text { IfOk result (λ text. text ≡ link_text (parts_of alta.now host)) }
    ensures ascii { IfOk result (λ text. IsAscii text) }

    // So `read_link` gives them back.
    ensures parts { IsLinkParts (parts_of alta.now host) }
{
    let total = alta.draft.lines.total();
    // These say that the amount and the day are within their limits.
    let _cents = total.get();
    let _day = alta.id.day.get();
    joined(
        alloc,
        host,
        alta.issuer.bytes().as_slice(),
        alta.id.num.as_slice(),
        date_text(alta.id.day).as_slice(),
        text_of(total).as_slice(),
    )
}

fn joined(
    alloc: Global,
    host: Host,
    nif: &[u8],
    num: &[u8],
    date: &[u8],
    total: &[u8],
) -> Result<Text, NoMemory>
    ensures text { IfOk result (λ text. text ≡ joined_link host nif.now num.now date.now total.now) }
    ensures ascii { IfOk result (λ text. IsAscii text) }
{
    let mut text = String::new(alloc);
    text.push_str(host.beginning())?;
    add(&mut text, "nif=", nif)?;
    add(&mut text, "&numserie=", num)?;
    add(&mut text, "&fecha=", date)?;
    add(&mut text, "&importe=", total)?;
    Ok(Text::of(text.into_bytes()))
}

fn add(text: &mut String, name: &str, value: &[u8]) -> Result<(), NoMemory>
    ensures { OnOk result (string_bytes text.new ≡ string_bytes text.old ++ name.now ++ encoded value.now) }
{
    text.push_str(name)?;
    encode_onto(value, text)
}
