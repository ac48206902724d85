//! The clock of a shop that has none.
ghost use Rattle.std.specs.Prelude.{None, ⊤};

use ports::Clock;

/// No clock. Whoever asks such a shop gives the reading (`Shop::ask_at`).
#[derive(Drop)]
pub struct Clockless;

impl Clock for Clockless {
    ghost last = { λ c. 0 };

    ghost coming = { λ c k. None };

    ghost by_readings = { λ _ _. ⊤ };

    ghost unread = { λ _. tt };

    ghost reading_goes_on = { λ _ _ _ _ _. tt };

    fn now(&mut self) -> u64 {
        0
    }
}
