//! What a link says, and why a text is no link.
ghost use Rattle.std.specs.Prelude.{◌≡◌};
ghost use Rattle.verify_link.specs.Parts as spec;
ghost use Rattle.verify_link.specs.declared.parts.LinkFault.TheVariants as link_fault;

use amounts::Cents;
use parties::Nif;
use ports::NoMemory;
use series::NumSerie;
use stamps::Day;

/// The agency's service that a link leads to.
#[derive(Clone, Copy, Debug, PartialEq, Eq)]
pub enum Host {
    /// The one where invoices are verified.
    Real,
    /// The one for trials.
    Practice,
}

impl Host {
    // The link's text up to its question mark.
    pub(crate) fn beginning(self) -> &'static str
        ensures { result.now ≡ spec.beginning self }
    {
        match self {
            Host::Real => "https://www2.agenciatributaria.gob.es/wlpl/TIKE-CONT/ValidarQR?",
            Host::Practice => "https://prewww2.aeat.es/wlpl/TIKE-CONT/ValidarQR?",
        }
    }
}

/// What a link says of an invoice.
#[derive(Clone, Copy, Debug, PartialEq, Eq)]
pub struct LinkParts {
    pub host: Host,
    /// The issuer's.
    pub nif: Nif,
    pub num: NumSerie,
    /// The day of issue.
    pub day: Day,
    /// The amount to be paid, taxes included.
    pub total: Cents,
}

/// Why a text is no link.
#[derive(Clone, Copy, Debug, PartialEq, Eq)]
pub enum LinkFault {
    /// It begins as no link does, up to the question mark.
    Prefix,
    /// Field `i`, counted from 0, has not its name in its place, or its value is not the encoding of a NIF, a number, a day
    /// or an amount. A plain `/` and an escape without need make it so too.
    Field { i: usize },
    /// The `%` at this byte of the text, counted from 0, has not two hexadecimal digits after it.
    Escape { at: usize },
    /// A growth was refused.
    NoMemory,
}

impl From<NoMemory> for LinkFault {
    ghost from_gives = { λ _ e. e ≡ link_fault.NoMemory };

    fn from(_: NoMemory) -> Self {
        LinkFault::NoMemory
    }
}
