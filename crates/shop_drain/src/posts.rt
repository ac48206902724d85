//! What a command works on: a file and what goes with it.
use ports::{Clock, CountingClock, LeapSleeper, Sleeper};
use record_fields::ListOf;

/// A file, and the clock, the sleeper and the agency of its chain. All four come back from each call.
#[derive(Drop)]
pub struct Post<D, C, Z, G> {
    /// The file.
    pub disk: D,
    pub clock: C,
    pub sleeper: Z,
    pub agency: G,
}

/// Posts, in the order of the words that name their files.
pub type Posts<D, C, Z, G> = ListOf<Post<D, C, Z, G>>;

impl<D, C, Z, G> Post<D, C, Z, G> {
    ghost use Rattle.std.specs.Prelude.{◌≡◌, ℕ, Some};
    ghost use Rattle.ports.specs.Counting.{counting};

    /// The clock and the sleeper of a script's clock line in their places, and those that it replaces.
    pub fn with_own_time(
        self,
        start: u64,
        step: u64,
    ) -> (Post<D, CountingClock, LeapSleeper, G>, C, Z)
        ensures clock { (k : ℕ) → ⟦<CountingClock as Clock>⟧.coming result.0.clock k ≡ Some (counting start step k) }
        ensures sleeper { ⟦<LeapSleeper as Sleeper>⟧.moment result.0.sleeper ≡ start }
        ensures kept { (result.0.disk ≡ self.disk) × (result.0.agency ≡ self.agency) }
        ensures replaced { (result.1 ≡ self.clock) × (result.2 ≡ self.sleeper) }
    {
        let Post {
            disk,
            clock,
            sleeper,
            agency,
        } = self;
        let own = Post {
            disk,
            clock: CountingClock::new(start, step),
            sleeper: LeapSleeper::new(start),
            agency,
        };
        (own, clock, sleeper)
    }
}

impl<D, G> Post<D, CountingClock, LeapSleeper, G> {
    ghost use Rattle.std.specs.Prelude.{◌≡◌};

    /// This clock and this sleeper in place of a clock line's.
    pub fn with_time<C, Z>(self, clock: C, sleeper: Z) -> Post<D, C, Z, G>
        ensures kept { (result.disk ≡ self.disk) × (result.agency ≡ self.agency) }
        ensures time { (result.clock ≡ clock) × (result.sleeper ≡ sleeper) }
    {
        let Post { disk, agency, .. } = self;
        Post {
            disk,
            clock,
            sleeper,
            agency,
        }
    }
}
