//! The kinds of invoices.
ghost use Rattle.std.specs.Prelude.{◌≡◌, IfSome, Some};

/// The kind of an invoice, `TipoFactura` of the record, with the codes of the agency's description of the records.
#[derive(Clone, Copy, Debug, PartialEq, Eq, Hash)]
pub enum Kind {
    /// An invoice.
    F1,
    /// A simplified invoice.
    F2,
    /// An invoice in place of simplified invoices.
    F3,
    /// A rectifying invoice: an error founded in law, and article 80 One, Two and Six of the VAT law.
    R1,
    /// A rectifying invoice: article 80.3, insolvency.
    R2,
    /// A rectifying invoice: article 80.4, debts that can't be collected.
    R3,
    /// A rectifying invoice: the rest.
    R4,
    /// A rectifying invoice of a simplified invoice.
    R5,
}

/// How a rectifying invoice rectifies, `TipoRectificativa` of the record.
#[derive(Clone, Copy, Debug, PartialEq, Eq, Hash)]
pub enum RectKind {
    /// By substitution.
    S,
    /// By differences.
    I,
}

impl Kind {
    ghost use Rattle.invoice_kinds.specs.declared.kind.Kind.{Kind};
    ghost use Rattle.invoice_kinds.specs.Kinds.{is_f2, is_f3, is_simplified, kind_text};

    /// The kind with that code, `None` exactly where the text is the code of none.
    pub fn read(text: &str) -> Option<Kind>
        //= A kind is read from its own text alone.
        ensures value { IfSome result (λ kind. text.now ≡ kind_text kind) }
        ensures complete { (kind : Kind) → text.now ≡ kind_text kind → result ≡ Some kind }
    {
        match text {
            "F1" => Some(Kind::F1),
            "F2" => Some(Kind::F2),
            "F3" => Some(Kind::F3),
            "R1" => Some(Kind::R1),
            "R2" => Some(Kind::R2),
            "R3" => Some(Kind::R3),
            "R4" => Some(Kind::R4),
            "R5" => Some(Kind::R5),
            _ => None,
        }
    }

    /// Its code.
    pub fn text(self) -> &'static str
        ensures { result.now ≡ kind_text self }
    {
        match self {
            Kind::F1 => "F1",
            Kind::F2 => "F2",
            Kind::F3 => "F3",
            Kind::R1 => "R1",
            Kind::R2 => "R2",
            Kind::R3 => "R3",
            Kind::R4 => "R4",
            Kind::R5 => "R5",
        }
    }

    /// Whether it is a simplified invoice: F2, or R5, which rectifies one.
    pub fn is_simplified(self) -> bool
        ensures { result ≡ is_simplified self }
    {
        matches!(self, Kind::F2 | Kind::R5)
    }

    /// Whether it is F2, a simplified invoice that an F3 may take the place of.
    pub fn is_f2(self) -> bool
        ensures { result ≡ is_f2 self }
    {
        matches!(self, Kind::F2)
    }

    /// Whether it is F3, an invoice in place of simplified ones.
    pub fn is_f3(self) -> bool
        ensures { result ≡ is_f3 self }
    {
        matches!(self, Kind::F3)
    }
}
