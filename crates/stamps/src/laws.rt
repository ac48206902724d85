//! What holds of every day, and of every moment.
ghost use Rattle.std.specs.Prelude.{◌≡◌, ℕ};
ghost use Rattle.stamps.specs.Clock.{IsStampSeconds, IsStampOffset};
ghost use Rattle.stamps.specs.Stamp.{Moment, moment_text_of};
ghost use Rattle.stamps.specs.Text.{date_text_of};

/// Two days with one text are equal.
pub fn text_determines_day()
    //= A date's text determines its day.
    //= No body: a law over definitions, which has no body
    ensures { (n m : ℕ) → date_text_of n ≡ date_text_of m → n ≡ m }
{}

/// Two moments with one text are equal, the offset of the local clock included.
pub fn text_determines_moment()
    //= A moment's text determines the moment.
    //= No body: a law over definitions, which has no body
    ensures { (m k : Moment) → IsStampSeconds m.seconds × IsStampOffset m.offset_minutes
        → IsStampSeconds k.seconds × IsStampOffset k.offset_minutes → moment_text_of m ≡ moment_text_of k → m ≡ k }
{}
