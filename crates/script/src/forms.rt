//! What may stand in a script.
ghost use Rattle.std.specs.Prelude.{◌≡◌};
ghost use Rattle.script.specs.Forms as spec;

/// What may stand in a script.
#[derive(Clone, Copy, Debug, PartialEq, Eq)]
pub enum Form {
    /// Every form of line.
    Full,
    /// Every form but `sale`, `fix` and `cancel`.
    NoCommands,
    /// `clock`, `customer`, `sale`, `fix` and `cancel`: the first line of what tills say line by line.
    First,
    /// The same without `clock`: each later line of it.
    Later,
}

impl Form {
    /// Whether a clock line may stand in it.
    pub(crate) fn has_clock(self) -> bool
        ensures { result ≡ spec.has_clock self }
    {
        match self {
            Form::Full | Form::NoCommands | Form::First => true,
            Form::Later => false,
        }
    }

    /// Whether lines that plan what the practice agency does may stand in it.
    pub(crate) fn has_plans(self) -> bool
        ensures { result ≡ spec.has_plans self }
    {
        match self {
            Form::Full | Form::NoCommands => true,
            Form::First | Form::Later => false,
        }
    }
}
