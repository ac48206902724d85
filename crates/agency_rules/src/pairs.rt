//! The records that the agency has processed, each with its line.
ghost use Rattle.std.specs.Prelude.{◌≡◌, ◌≤◌, ◌+◌, ◌-◌, ◌^◌, ◌<◌, [], ◌∷◌, ◌++◌, length, take, true, false, IfOk, OnOk, OnErr};
ghost use Rattle.record_fields.specs.Records.{id_of};
ghost use Rattle.agency_rules.specs.Judging as spec;
ghost use Rattle.agency_rules.specs.Pairs.{line_of, delivered_record, after_record, delivered, DeliversFront};
ghost use Rattle.agency_rules.specs.Indexes.{line_at};

use crate::indexes::{Pasts, Places};
use crate::{Past, Verdicts, judge};
use ports::NoMemory;
use record_fields::{Line, Record, Sealed};
use series::InvoiceId;
use std::alloc::Global;
use std::marker::Model;

/// What a delivered record met.
#[derive(Clone, Copy, Debug, PartialEq, Eq)]
pub enum Delivered {
    /// It is new, and this is its line.
    First(Line),
    /// Its Huella stands there, with this line.
    Again(Line),
}

/// The most pairs that a list holds, so that one more can still be counted.
pub const MAX_PAIRS: u32 = 4_294_967_294;

/// The processed records with their lines, in order, at most `MAX_PAIRS`.
#[derive(Drop)]
pub struct Pairs {
    list: Vec<(Sealed, Line)>,
    places: Places,
    pasts: Pasts,
}

impl Model for Pairs {
    ghost use Rattle.std.specs.Prelude.{List};
    ghost use Rattle.record_fields.specs.declared.records.Sealed.{Sealed};
    ghost use Rattle.record_fields.specs.declared.lines.Line.{Line};
    ghost use Rattle.agency_rules.specs.Indexes.{IsIndexed};

    ghost Value = { List (Sealed × Line) };

    ghost view = { λ p. p.list.items };

    ghost invariant = { λ p. IsIndexed p.list.items p.places p.pasts };
}

impl Pairs {
    /// No pair.
    pub fn new(alloc: Global) -> Pairs
        ensures { result ≡ [] }
    {
        Pairs {
            list: Vec::new(alloc),
            places: Places::new(alloc),
            pasts: Pasts::new(alloc),
        }
    }

    /// The list of these pairs, in memory of its own. Lack of memory where they are more than there may be.
    pub fn of(alloc: Global, pairs: &[(Sealed, Line)]) -> Result<Pairs, NoMemory>
        ensures { IfOk result (λ list. list ≡ pairs.now) }
    {
        let mut list = Pairs::new(alloc);
        for i in 0..pairs.len() {
            let pair = &pairs[i];
            list.push(pair.0.copied(alloc)?, pair.1)?;
        }
        Ok(list)
    }

    /// The pairs, in order.
    pub fn as_slice(&self) -> &[(Sealed, Line)]
        ensures { result.now ≡ self.now }
    {
        &self.list
    }

    /// How many there are.
    pub fn len(&self) -> u32
        ensures { result ≡ length self.now }
    {
        self.list.len() as u32
    }

    /// The line that stands there for this Huella, where one does.
    pub fn line_of(&self, huella: &[u8; 32]) -> Option<Line>
        ensures { result ≡ line_of self.now huella.now }
    {
        line_at(&self.list, self.places.at(huella), huella)
    }

    /// What was processed of an invoice.
    pub fn past_of(&self, id: &InvoiceId) -> Past
        //= An invoice's past is read off the processed records of its number and day, by a filter and a last
        //= match.
        ensures value { result ≡ spec.past_of self.now id.now }
        ensures bound { result.count < 2 ^ 32 - 1 }
    {
        self.pasts.at(id)
    }

    // The line of a record after these pairs.
    fn judgement(&self, verdicts: &Verdicts, body: &Record) -> Line
        ensures { result ≡ spec.judgement verdicts.now self.now body.now }
    {
        let id = body.id();
        let past = self.past_of(&id);
        let verdict = verdicts.for_record(&id.num, past.count + 1);
        judge(&past, verdict, body)
    }

    /// Adds a pair, in memory that the list finds. Without memory, or where there are as many as there may be, the list
    /// stays as it was.
    pub fn push(&mut self, sealed: Sealed, line: Line) -> Result<(), NoMemory>
        ensures ok { OnOk result (self.new ≡ self.old ++ (sealed, line) ∷ []) }
        ensures err { OnErr result (self.new ≡ self.old) }
    {
        let place = self.len();
        if place >= MAX_PAIRS {
            return Err(NoMemory);
        }
        let id = sealed.body.id();
        let past = self.past_of(&id).after(&sealed.body, &line);
        let known = self.line_of(&sealed.huella).is_some();
        self.list.reserve(1)?;
        self.places
            .note_first(known, &sealed.huella, place as usize)?;
        self.pasts.note(id, past)?;
        let Ok(()) = self.list.push((sealed, line)) else {
            unreachable!()
        };
        Ok(())
    }

    /// A record arrives: it is added with its judgement, unless its Huella stands there. Without memory the list stays
    /// as it was.
    pub fn deliver_record(
        &mut self,
        alloc: Global,
        verdicts: &Verdicts,
        sealed: &Sealed,
    ) -> Result<Delivered, NoMemory>
        ensures met { IfOk result (λ met. met ≡ delivered_record verdicts.now self.old sealed.now) }
        //= A record whose Huella stands there changes nothing; any other is added with its judgement.
        ensures ok { OnOk result (self.new ≡ after_record verdicts.now self.old sealed.now) }
        ensures err { OnErr result (self.new ≡ self.old) }
    {
        if let Some(line) = self.line_of(&sealed.huella) {
            return Ok(Delivered::Again(line));
        }
        let line = self.judgement(verdicts, &sealed.body);
        self.push(sealed.copied(alloc)?, line)?;
        Ok(Delivered::First(line))
    }

    /// A batch arrives, its records in order. Without memory a front of it has arrived, and no record after it.
    pub fn deliver(
        &mut self,
        alloc: Global,
        verdicts: &Verdicts,
        batch: &[Sealed],
    ) -> Result<(), NoMemory>
        ensures ok { OnOk result (self.new ≡ delivered verdicts.now self.old batch.now) }
        //= After out of memory a prefix of the batch is delivered, and no record after it.
        //= No body: the loop ends at the first such answer
        ensures err { OnErr result (DeliversFront verdicts.now self.old self.new batch.now) }
        ensures front { take (length self.old) self.new ≡ self.old }
    {
        for i in 0..batch.len() {
            self.deliver_record(alloc, verdicts, &batch[i])?;
        }
        Ok(())
    }

    /// Keeps the first `count` pairs.
    pub fn truncate(&mut self, count: u32)
        ensures { self.new ≡ take count self.old }
    {
        for _cut in count..self.len() {
            self.pop();
        }
    }

    // Takes the last pair away. What was processed of its invoice is read off the list.
    fn pop(&mut self)
        requires { 0 < length self.old }
        ensures { self.new ≡ take (length self.old - 1) self.old }
    {
        let Some(pair) = self.list.pop() else {
            unreachable!()
        };
        let id = pair.0.body.id();
        let past = past_in(&self.list, &id);
        self.pasts.put_back(id, past);
    }
}

// The line of the pair at this place, where it has this Huella.
fn line_at(pairs: &[(Sealed, Line)], place: Option<usize>, huella: &[u8; 32]) -> Option<Line>
    ensures { result ≡ line_at pairs.now huella.now place }
{
    let pair = pairs.get(place?)?;
    if pair.0.huella == *huella {
        Some(pair.1)
    } else {
        None
    }
}

// What these pairs say of an invoice.
fn past_in(pairs: &[(Sealed, Line)], id: &InvoiceId) -> Past
    requires { length pairs.now < 2 ^ 32 - 1 }
    ensures value { result ≡ spec.past_of pairs.now id.now }
    ensures bound { result.count ≤ length pairs.now }
{
    let mut past = Past {
        count: 0,
        held: false,
        gone: false,
    };
    for i in 0..pairs.len() {
        let pair = &pairs[i];
        past = past_with(past, id, &pair.0.body, &pair.1);
    }
    past
}

// The past of an invoice after one more record of any.
fn past_with(past: Past, id: &InvoiceId, body: &Record, line: &Line) -> Past
    requires { past.count < 2 ^ 32 - 1 }
    ensures same { spec.same_id (id_of body.now) id.now ≡ true → result ≡ spec.past_after past body.now line.now }
    ensures other { spec.same_id (id_of body.now) id.now ≡ false → result ≡ past }
    ensures bound { result.count ≤ past.count + 1 }
{
    if same_id(&body.id(), id) {
        past.after(body, line)
    } else {
        past
    }
}

fn same_id(a: &InvoiceId, b: &InvoiceId) -> bool
    ensures { result ≡ spec.same_id a.now b.now }
{
    a.num.as_slice() == b.num.as_slice() && a.day == b.day
}
