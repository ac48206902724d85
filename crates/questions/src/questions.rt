//! What a till asks.
use amounts::Cents;
use series::NumSerie;
use tax_lines::LineKey;
use verify_link::Host;

/// A question of a till.
#[derive(Clone, Copy, Debug, PartialEq, Eq)]
pub enum TillQuestion {
    /// What is printed on the ticket of an invoice, with the link at this host.
    Ticket { num: NumSerie, host: Host },
    /// The listing's line of the record at this place, from 1.
    Record { place: u32 },
    /// The listing's line of the record under this till and serial.
    Serial { till: u8, serial: u32 },
    /// The greatest serial of a till.
    Last { till: u8 },
    /// Lines of this key that have this total, tax and surcharge included.
    Lines { key: LineKey, total: Cents },
    /// How many records and noted lines there are.
    Chain,
}
