//! A clock that waits, in memory and over the system's.
ghost use Rattle.std.specs.Prelude.{◌≡◌, ◌≤◌, ℕ, Bool, IsTrue, max};

use std::rt::Clock as SystemTimeSource;
use std::sync::Wait;
use std::thread;
use std::time::Duration;

/// How long the system's sleeper rests, in milliseconds.
pub const REST: u64 = 50;

/// Tells the second, and waits for one.
pub trait Sleeper {
    /// Whether what it answers is its moment.
    ghost tells: { Bool };

    /// Its moment, in seconds since 1970-01-01T00:00:00Z. What it answers is never below it.
    ghost moment: { Self → ℕ };

    /// The one became the other without a rest. Of a sleeper of any type only `now` and `wait_until` say so.
    ghost without_rest: { Self → Self → Type 0 };

    /// Seconds since 1970-01-01T00:00:00Z.
    fn now(&mut self) -> u64
        //= A sleeper never answers a second below its moment.
        //= No body: its value is the moment of `LeapSleeper`, and the greater of two of the system's
        ensures later { moment self.old ≤ result }
        ensures told { IsTrue tells → result ≡ moment self.old }
        //= Asking for the second leaves the moment.
        //= No body: it is a trait's clause, which each sleeper proves
        ensures same { moment self.new ≡ moment self.old }
        ensures no_rest { without_rest self.old self.new };

    /// Waits until this second. After it the moment is at least this second.
    fn wait_until<R: Wait>(&mut self, rt: &R, at: u64)
        //= Waiting moves the moment to the greater of it and the second given.
        ensures moment { moment self.new ≡ max (moment self.old) at }
        ensures no_rest { without_rest self.old self.new };

    /// Waits a short while.
    fn rest<R: Wait>(&mut self, rt: &R)
        ensures { moment self.new ≡ moment self.old };

    /// A sleeper that stays as it is doesn't rest.
    ghost unrested: { (sleeper : Self) → without_rest sleeper sleeper };

    /// Without a rest up to one, and without one from there on, there was none at all.
    ghost no_rest_goes_on: { (a b c : Self) → without_rest a b → without_rest b c → without_rest a c };
}

/// A sleeper that never waits: it leaps to the second for which it is asked to wait.
#[derive(Drop)]
pub struct LeapSleeper {
    at: u64,
}

impl LeapSleeper {
    /// A sleeper at this second.
    pub fn new(at: u64) -> Self
        ensures { ⟦<LeapSleeper as Sleeper>⟧.moment result ≡ at }
    {
        LeapSleeper { at }
    }
}

impl Sleeper for LeapSleeper {
    ghost use Rattle.std.specs.Prelude.{true, ⊤};

    ghost tells = { true };

    ghost moment = { λ s. s.at };

    ghost without_rest = { λ _ _. ⊤ };

    ghost unrested = { λ _. tt };

    ghost no_rest_goes_on = { λ _ _ _ _ _. tt };

    fn now(&mut self) -> u64 {
        self.at
    }

    fn wait_until<R: Wait>(&mut self, _rt: &R, at: u64) {
        self.at = self.at.max(at);
    }

    fn rest<R: Wait>(&mut self, _rt: &R) {}
}

// What the system's two clocks told at one moment.
#[derive(Clone, Copy)]
struct Begun {
    second: u64,
    at: Duration,
}

// What both clocks tell now, `None` where one can't be read.
fn both_clocks<R: SystemTimeSource>(rt: &R) -> Option<Begun> {
    match (rt.since_1970(), rt.monotonic()) {
        (Ok(since), Ok(at)) => Some(Begun {
            second: since.as_secs(),
            at,
        }),
        _ => None,
    }
}

/// Waiting that sleeps. It begins at the system's wall clock and goes on by the clock that only goes forward, so that a
/// wall clock that is set back lengthens no wait. It answers no second below one for which it has waited, and 0 where a
/// clock can't be read.
#[derive(Drop)]
pub struct ThreadSleeper<R> {
    rt: R,
    reached: u64,
    begun: Option<Begun>,
}

impl<R: SystemTimeSource> ThreadSleeper<R> {
    /// The sleeper of a runtime, which is given by reference.
    pub fn new(rt: R) -> Self
        ensures { ⟦<ThreadSleeper<R> as Sleeper>⟧.moment result ≡ 0 }
    {
        ThreadSleeper {
            rt,
            reached: 0,
            begun: None,
        }
    }

    // The second of its own clock, which begins at the first call.
    fn second(&mut self) -> u64
        ensures { self.new.reached ≡ self.old.reached }
    {
        let begun = match self.begun {
            Some(begun) => begun,
            None => match both_clocks(&self.rt) {
                Some(begun) => begun,
                None => return 0,
            },
        };
        self.begun = Some(begun);
        match self.rt.monotonic() {
            Ok(now) => begun
                .second
                .saturating_add(now.saturating_sub(begun.at).as_secs()),
            Err(_) => 0,
        }
    }
}

impl<R: SystemTimeSource> Sleeper for ThreadSleeper<R> {
    ghost use Rattle.std.specs.Prelude.{false, ⊤};

    ghost tells = { false };

    ghost moment = { λ s. s.reached };

    ghost without_rest = { λ _ _. ⊤ };

    ghost unrested = { λ _. tt };

    ghost no_rest_goes_on = { λ _ _ _ _ _. tt };

    fn now(&mut self) -> u64 {
        self.second().max(self.reached)
    }

    fn wait_until<W: Wait>(&mut self, _rt: &W, at: u64) {
        let left = at.saturating_sub(self.second());
        thread::sleep(&self.rt, Duration::from_secs(left));
        self.reached = self.reached.max(at);
    }

    fn rest<W: Wait>(&mut self, _rt: &W) {
        thread::sleep(&self.rt, Duration::from_millis(REST));
    }
}
