//! The sections of a text.

/// The section of a text that the next line is of.
#[derive(Clone, Copy, Debug, PartialEq, Eq)]
pub enum Section {
    /// The header.
    Start,
    /// The scenario.
    Settings,
    /// The choices.
    Making,
    /// What stands behind END.
    Whole,
}

impl Section {
    ghost use Rattle.std.specs.Prelude.{◌≡◌};
    ghost use Rattle.xrf_scenario.specs.SoFar.{is_whole};

    /// Whether END has come.
    pub fn is_whole(self) -> bool
        ensures { result ≡ is_whole self }
    {
        matches!(self, Section::Whole)
    }
}
