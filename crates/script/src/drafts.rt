//! The draft of an invoice, from the fields past its kind.
ghost use Rattle.std.specs.Prelude.{◌≡◌, ◌++◌, ◌∷◌, [], List, ℕ};
ghost use Rattle.invoice_kinds.specs.declared.kind.Kind.{Kind as AnyKind};
ghost use Rattle.script.specs.declared.options.Item.{Item as AnyItem};
ghost use Rattle.script.specs.Options.{draft_said};
ghost use Rattle.script.specs.SoFar.{IsSaid, party_of};
ghost use Rattle.script.specs.Gathered.{IsGathered, Gathers, breakdown_said, gathered_said};

use crate::customers::Customers;
use crate::faults::Fault;
use crate::fields::Fields;
use crate::options::{FieldsSeen, Item, said_by};
use invoice_kinds::{Kind, RectKind};
use parties::Party;
use ports::NoMemory;
use record_fields::{Draft, Refs};
use series::InvoiceId;
use shop_core::Word;
use std::alloc::Global;
use tax_lines::{Breakdown, LinesFault, TaxLine};

// The items of the fields so far.
#[derive(Drop)]
struct Gathered {
    customer: Option<Party>,
    rect: Option<RectKind>,
    refs: Vec<InvoiceId>,
    lines: Vec<TaxLine>,
}

impl Gathered {
    fn nothing(alloc: Global) -> Gathered
        ensures { IsGathered [] result }
    {
        Gathered {
            customer: None,
            rect: None,
            refs: Vec::new(alloc),
            lines: Vec::new(alloc),
        }
    }

    // One more item.
    fn add(&mut self, item: Item) -> Result<(), NoMemory>
        ensures { (items : List AnyItem) → IsGathered items self.old → Gathers (items ++ item ∷ []) self.new result }
    {
        match item {
            Item::To(party) => {
                if self.customer.is_none() {
                    self.customer = Some(party);
                }
            }
            Item::Rect(rect) => {
                if self.rect.is_none() {
                    self.rect = Some(rect);
                }
            }
            Item::Ref(id) => self.refs.push(id)?,
            Item::Line(line) => self.lines.push(line)?,
        }
        Ok(())
    }
}

fn breakdown_of(alloc: Global, lines: &[TaxLine]) -> Result<Breakdown, Fault>
    ensures { IsSaid (breakdown_said lines.now) result }
{
    match Breakdown::of(alloc, lines) {
        Ok(breakdown) => Ok(breakdown),
        Err(fault) => match fault {
            LinesFault::NoMemory => Err(Fault::NoMemory),
            _ => Err(Fault::Bad(Word::Lines)),
        },
    }
}

// The draft that was gathered.
fn draft_of(alloc: Global, kind: Kind, gathered: Gathered) -> Result<Draft, Fault>
    ensures { (items : List AnyItem) → IsGathered items gathered → IsSaid (gathered_said kind items) result }
{
    let lines = breakdown_of(alloc, &gathered.lines)?;
    Ok(Draft {
        kind,
        rect: gathered.rect,
        customer: gathered.customer,
        refs: Refs::of(gathered.refs),
        lines,
    })
}

/// The draft of an invoice of this kind that the fields make.
pub fn draft(
    alloc: Global,
    customers: &Customers,
    kind: Kind,
    fields: &mut Fields,
) -> Result<Draft, Fault>
    ensures { IsSaid (draft_said (party_of customers.now) kind fields.old) result }
{
    let mut seen = FieldsSeen::nothing();
    let mut gathered = Gathered::nothing(alloc);
    while let Some(field) = fields.next() {
        match said_by(alloc, customers, seen, field) {
            Ok(item) => gathered.add(item)?,
            Err(fault) => return Err(fault),
        }
        seen = seen.with(field);
    }
    draft_of(alloc, kind, gathered)
}
