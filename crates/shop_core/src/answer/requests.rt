//! What a till asks.
ghost use Rattle.std.specs.Prelude.{◌≡◌, IfOk};
ghost use Rattle.std.specs.Int.{IsInRange};
ghost use Rattle.record_codec.specs.declared.entry.TheConstants.{LAST_TILL};
ghost use Rattle.shop_core.specs.Answer.Requests.{IsAsked, IsRequest};

use ports::NoMemory;
use record_fields::Draft;
use series::{NumSerie, SeriesName};
use std::alloc::Global;
use std::marker::Model;

/// What a till asks for.
#[derive(Drop)]
pub enum Request {
    /// A new invoice, with the next number of its series.
    Sale { series: SeriesName, draft: Draft },
    /// The invoice of this number, said anew.
    Fix { num: NumSerie, draft: Draft },
    /// The invoice of this number, cancelled.
    Cancel { num: NumSerie },
}

impl Request {
    /// The same request, in memory of its own.
    pub fn copied(&self, alloc: Global) -> Result<Request, NoMemory>
        ensures { IfOk result (λ request. request ≡ self.now) }
    {
        match self {
            Request::Sale { series, draft } => Ok(Request::Sale {
                series: *series,
                draft: draft.copied(alloc)?,
            }),
            Request::Fix { num, draft } => Ok(Request::Fix {
                num: *num,
                draft: draft.copied(alloc)?,
            }),
            Request::Cancel { num } => Ok(Request::Cancel { num: *num }),
        }
    }

    // Its names, numbers and drafts are of their forms.
    fn is_valid(&self)
        ensures { IsRequest self.now }
    {
        match self {
            Request::Sale { series, draft } => {
                let _name = series.as_slice();
                draft.is_valid();
            }
            Request::Fix { num, draft } => {
                let _number = num.as_slice();
                draft.is_valid();
            }
            Request::Cancel { num } => {
                let _number = num.as_slice();
            }
        }
    }
}

/// What a till asks, under a serial of its own. Tills are numbered from 1 to `LAST_TILL`, serials from 1.
#[derive(Drop)]
pub struct Ask {
    /// From 1 to `LAST_TILL`.
    pub till: u8,
    /// The till's own number of the ask, from 1.
    pub serial: u32,
    pub request: Request,
}

impl Model for Ask {
    ghost use Rattle.shop_core.specs.Answer.Requests.{Asked, IsAsked};

    ghost Value = { Asked };

    ghost view = { λ a. record { till = a.till; serial = a.serial; request = a.request } };

    ghost invariant = { λ a. IsAsked (record { till = a.till; serial = a.serial; request = a.request }) };
}

impl Ask {
    /// The ask of a till under a serial.
    pub fn new(till: u8, serial: u32, request: Request) -> Ask
        requires till { IsInRange 1 LAST_TILL till }
        requires serial { IsInRange 1 4_294_967_295 serial }
        ensures { result ≡ record { till = till; serial = serial; request = request } }
    {
        request.is_valid();
        Ask {
            till,
            serial,
            request,
        }
    }

    /// The same ask, in memory of its own.
    pub fn copied(&self, alloc: Global) -> Result<Ask, NoMemory>
        ensures { IfOk result (λ ask. ask ≡ self.now) }
    {
        Ok(Ask {
            till: self.till,
            serial: self.serial,
            request: self.request.copied(alloc)?,
        })
    }

    /// The same ask, whose request stays here.
    pub fn borrowed(&self) -> Asking<'_>
        //= An ask whose request stays with who asks is the same ask.
        //= No body: both have one view
        ensures { result ≡ self.now }
    {
        Asking {
            till: self.till,
            serial: self.serial,
            request: &self.request,
        }
    }

    /// What every ask keeps: its till, serial, names, numbers and draft are in their ranges.
    pub fn is_valid(&self)
        //= Every ask is in its ranges.
        //= No body: it is the type's invariant
        ensures { IsAsked self.now }
    {
        let _till = self.till;
    }
}

/// An ask whose request stays with who asks.
#[derive(Drop)]
pub struct Asking<'a> {
    /// From 1 to `LAST_TILL`.
    pub till: u8,
    /// The till's own number of the ask, from 1.
    pub serial: u32,
    pub request: &'a Request,
}

impl<'a> Model for Asking<'a> {
    ghost use Rattle.shop_core.specs.Answer.Requests.{Asked, IsAsked};

    ghost Value = { Asked };

    ghost view = { λ a. record { till = a.till; serial = a.serial; request = a.request.now } };

    ghost invariant = { λ a. IsAsked (record { till = a.till; serial = a.serial; request = a.request.now }) };
}

impl<'a> Asking<'a> {
    /// The ask of a till under a serial.
    pub fn new(till: u8, serial: u32, request: &'a Request) -> Asking<'a>
        requires till { IsInRange 1 LAST_TILL till }
        requires serial { IsInRange 1 4_294_967_295 serial }
        ensures { result ≡ record { till = till; serial = serial; request = request.now } }
    {
        request.is_valid();
        Asking {
            till,
            serial,
            request,
        }
    }

    /// What every ask keeps: its till, serial, names, numbers and draft are in their ranges.
    pub fn is_valid(&self)
        ensures { IsAsked self.now }
    {
        let _till = self.till;
    }
}
