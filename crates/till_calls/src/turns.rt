//! What a turn does.
ghost use Rattle.std.specs.Int.{IsInRange};
ghost use Rattle.std.specs.Prelude.{length};
ghost use Rattle.record_codec.specs.declared.entry.TheConstants.{MAX_NOTES};

use crate::clockless::Clockless;
use crate::kept::Kept;
use crate::questions::Question;
use chain_disk::Disk;
use chain_lock::Act;
use journal::StoreFault;
use ports::{Clock, NoMemory};
use record_fields::Line;
use shop_core::{Asking, Reply, Waiting};
use std::alloc::Global;

/// A till's ask. It tells the reply.
#[derive(Drop)]
pub(crate) struct Taking<'a> {
    pub(crate) alloc: Global,
    pub(crate) ask: Asking<'a>,
}

impl<D: Disk, C: Clock> Act<Kept<D, C>> for Taking<'_> {
    type Told = Result<Reply, StoreFault>;

    ghost use Rattle.till_calls.specs.Turns.{TillTurn};

    ghost relates = { λ old root before new after told. TillTurn C.coming old.ask told root before after };

    fn act(&mut self, value: &mut Kept<D, C>) -> Result<Reply, StoreFault> {
        value.take(self.alloc, &self.ask)
    }
}

/// A till's ask at a reading that is given. It tells the reply.
#[derive(Drop)]
pub(crate) struct TakingAt<'a> {
    pub(crate) alloc: Global,
    pub(crate) ask: Asking<'a>,
    pub(crate) seconds: u64,
}

impl<D: Disk> Act<Kept<D, Clockless>> for TakingAt<'_> {
    type Told = Result<Reply, StoreFault>;

    ghost use Rattle.std.specs.Prelude.{Some};
    ghost use Rattle.till_calls.specs.Turns.{TillTurn};

    ghost relates = { λ old root before new after told.
        TillTurn (λ c k. Some old.seconds) old.ask told root before after };

    fn act(&mut self, value: &mut Kept<D, Clockless>) -> Result<Reply, StoreFault> {
        value.take_at(self.alloc, &self.ask, self.seconds)
    }
}

/// The seat's note of some lines. It tells whether they were noted.
#[derive(Drop)]
pub(crate) struct Noting<'a> {
    pub(crate) alloc: Global,
    pub(crate) lines: &'a [Line],
    ghost count: { IsInRange 1 MAX_NOTES (length lines.now) },
}

impl<D: Disk, C: Clock> Act<Kept<D, C>> for Noting<'_> {
    type Told = Result<(), StoreFault>;

    ghost use Rattle.till_calls.specs.Turns.{SeatTurn};

    ghost relates = { λ old root before new after told. SeatTurn old.lines.now told root before after };

    fn act(&mut self, value: &mut Kept<D, C>) -> Result<(), StoreFault> {
        value.note(self.alloc, self.lines)
    }
}

/// The seat's look at what waits. It tells what it saw.
#[derive(Drop)]
pub(crate) struct Looking {
    pub(crate) alloc: Global,
    pub(crate) max: u16,
}

impl<D: Disk, C: Clock> Act<Kept<D, C>> for Looking {
    type Told = Result<Waiting, NoMemory>;

    ghost use Rattle.till_calls.specs.Turns.{LookTurn};

    ghost relates = { λ old root before new after told. LookTurn old.max told root before after };

    fn act(&mut self, value: &mut Kept<D, C>) -> Result<Waiting, NoMemory> {
        value.look(self.alloc, self.max)
    }
}

/// A till's question. It tells what was learnt.
#[derive(Drop)]
pub(crate) struct Learning<'a, Q: Question> {
    pub(crate) alloc: Global,
    pub(crate) question: &'a Q,
}

impl<D: Disk, C: Clock, Q: Question> Act<Kept<D, C>> for Learning<'_, Q> {
    type Told = Result<Q::Learnt, NoMemory>;

    ghost use Rattle.till_calls.specs.Turns.{LearnTurn};

    ghost relates = { λ old root before new after told. LearnTurn (Q.learns old.question.now) told root before after };

    fn act(&mut self, value: &mut Kept<D, C>) -> Result<Q::Learnt, NoMemory> {
        value.learn(self.alloc, self.question)
    }
}
