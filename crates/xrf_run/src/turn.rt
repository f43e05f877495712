//! What a turn comes to.

ghost use Rattle.std.specs.Prelude.{◌≡◌, ◌||◌};
ghost use Rattle.xrf_run.specs.Turns.{did};

/// What a turn comes to.
#[derive(Clone, Copy, Debug, PartialEq, Eq)]
pub enum Turn {
    /// It adds one choice.
    Applied,
    /// It passes one line of the plan that is refused.
    Dropped,
    /// It changes nothing.
    Nothing,
}

impl Turn {
    pub(crate) fn did(self) -> bool
        ensures { result ≡ did self }
    {
        match self {
            Turn::Applied | Turn::Dropped => true,
            Turn::Nothing => false,
        }
    }
}

/// Whether one of three turns did something.
pub(crate) fn any_did(environment: Turn, a: Turn, b: Turn) -> bool
    ensures { result ≡ (did environment || (did a || did b)) }
{
    environment.did() || a.did() || b.did()
}
