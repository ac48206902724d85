//! The clock of an issuer's commands.
ghost use Rattle.std.specs.Prelude.{◌≡◌, ℕ, option_map, refl};
ghost use Rattle.chain_store.specs.Readings.{readings_of};
ghost use Rattle.many_issuers.specs.OwnClock as spec;
ghost use Rattle.std.proofs.Common.{◌∙◌};

use ports::{Clock, CountingClock};

/// The clock that was handed in, or that of a script's clock line, with the one in whose place it stands.
#[derive(Drop)]
pub(crate) enum OwnClock<C> {
    Given(C),
    Line(CountingClock, C),
}

impl<C: Clock> OwnClock<C> {
    /// The clock of a script with this clock line.
    pub(crate) fn of(line: Option<(u64, u64)>, clock: C) -> OwnClock<C>
        ensures coming { (k : ℕ) → spec.coming_of C.coming result k ≡ readings_of line (C.coming clock) k }
        ensures given { spec.given_of result ≡ clock }
        ensures replaced { spec.replaced_of result ≡ option_map (λ _. clock) line }
    {
        match line {
            None => OwnClock::Given(clock),
            Some((start, step)) => OwnClock::Line(CountingClock::new(start, step), clock),
        }
    }

    /// The clock that was handed in.
    pub(crate) fn given(self) -> C
        ensures { result ≡ spec.given_of self }
    {
        match self {
            OwnClock::Given(clock) => clock,
            OwnClock::Line(_, clock) => clock,
        }
    }
}

impl<C: Clock> Clock for OwnClock<C> {
    ghost last = { spec.last_of C.last };

    ghost coming = { spec.coming_of C.coming };

    ghost by_readings = { spec.IsReadOn };

    ghost unread = { λ _. refl };

    ghost reading_goes_on = { λ _ _ _ first later. later ∙ first };

    fn now(&mut self) -> u64 {
        match self {
            OwnClock::Given(clock) => clock.now(),
            OwnClock::Line(own, _) => own.now(),
        }
    }
}
