//! The waiting time between submissions, by the tax agency's description of the submission service.
ghost use Rattle.std.specs.Prelude.{◌≡◌, MatchResult, true, false};
ghost use Rattle.pacing.specs.Pace.{is_due, due_at};
ghost use Rattle.pacing.specs.declared.pace.TheConstants.{FIRST_WAIT};

/// The agency's first waiting time, in seconds: it holds until a reply sets another.
pub const FIRST_WAIT: u32 = 60;

/// The most records of one submission, by the tax agency's description of the submission service. Where this many wait, one is due
/// at once. The agency takes no more; fewer would only make more submissions.
pub const MAX_BATCH: u16 = 1000;

/// No submission is due before this second.
#[derive(Clone, Copy, Debug, PartialEq, Eq)]
pub struct WaitUntil(pub u64);

/// When the last submission was made, and how long the next one waits after it, in seconds.
#[derive(Clone, Copy, Debug, PartialEq, Eq)]
pub struct Pace {
    pub last: u64,
    pub wait: u64,
}

impl Pace {
    /// Before the first submission: none was made, and the next one waits `FIRST_WAIT` seconds.
    pub fn start() -> Pace
        ensures { result ≡ record { last = 0; wait = FIRST_WAIT } }
    {
        Pace {
            last: 0,
            wait: u64::from(FIRST_WAIT),
        }
    }

    /// Whether a submission is due at this second, with this many records waiting. Refused exactly where fewer than
    /// `MAX_BATCH` wait and the waiting time hasn't passed, with the second at which it will have passed.
    pub fn due(&self, now: u64, waiting: u32) -> Result<(), WaitUntil>
        //= A submission is refused exactly where fewer than 1000 records wait and the waiting time hasn't passed,
        //= with the second at which it will have.
        ensures { MatchResult result
            (λ _. is_due self.now now waiting ≡ true)
            (λ w. (is_due self.now now waiting ≡ false) × (w.0 ≡ due_at self.now)) }
    {
        let at = self.last.saturating_add(self.wait);
        if waiting < MAX_BATCH as u32 && now < at {
            return Err(WaitUntil(at));
        }
        Ok(())
    }

    /// A submission was made at this second.
    pub fn sent(&mut self, now: u64)
        ensures { self.new ≡ record { last = now; wait = self.old.wait } }
    {
        self.last = now;
    }

    /// A reply set the waiting time, in seconds.
    pub fn told(&mut self, wait: u32)
        //= A reply's seconds are the waiting time from then on.
        //= No body: it keeps the number that it was told
        ensures { self.new ≡ record { last = self.old.last; wait = wait } }
    {
        self.wait = u64::from(wait);
    }
}
