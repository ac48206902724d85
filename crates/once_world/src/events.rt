//! What may happen to a shop and its agency.
ghost use Rattle.once_world.specs.Laws.{IsEvent};

use shop_core::Ask;

/// An event. One whose condition fails changes nothing.
#[derive(Drop)]
pub enum Event {
    /// The shop answers an ask, with the clock at these seconds since 1970, and keeps the record that is made.
    Append { ask: Ask, seconds: u64 },
    /// The first `count` waiting records, 1 to `MAX_BATCH`, are sent as a batch.
    Send { count: u16 },
    /// The batch of this index, from 0, among those that were ever sent comes to the agency.
    Deliver { index: u32 },
    /// The agency is asked for the first `MAX_CONSULTED` waiting records.
    Look,
    /// The lines that were learnt are noted.
    Note,
    /// The shop stops while it keeps the record that is made: it stands in the history or not.
    Tear { ask: Ask, seconds: u64, kept: bool },
    /// The shop stops while it notes the lines that were learnt: they stand in the history or not.
    TearNote { kept: bool },
    /// The shop is opened again.
    Reopen,
}

impl Event {
    /// What every event keeps: an ask in it is in its ranges. So `every_world_is_sound` speaks of any list of events.
    pub fn is_valid(&self)
        ensures { IsEvent self.now }
    {
        match self {
            Event::Append { ask, .. } | Event::Tear { ask, .. } => ask.is_valid(),
            _ => {}
        }
    }
}
