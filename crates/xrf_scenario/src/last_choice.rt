//! The line of a choice that came last, since many lines of a text are the same as the line before.

ghost use Rattle.std.specs.Prelude.{◌≡◌, IfSome};
ghost use Rattle.xrf_scenario.specs.Machine.{SaysOnce};

use std::marker::Model;
use xrf_setup::Choice;

/// A line that says a choice once, and the choice; or no line. Contracts see the choice.
#[derive(Drop)]
pub struct LastChoice<'a> {
    line: &'a [u8],
    choice: Option<Choice>,
}

impl<'a> Model for LastChoice<'a> {
    ghost use Rattle.std.specs.Prelude.{Option, IfSome};
    ghost use Rattle.xrf_setup.specs.declared.choice.Choice.{Choice};
    ghost use Rattle.xrf_scenario.specs.Machine.{SaysOnce};

    ghost Value = { Option Choice };

    ghost view = { λ w. w.choice };

    ghost invariant = { λ w. IfSome w.choice (λ c. SaysOnce w.line.now c) };
}

impl<'a> LastChoice<'a> {
    /// No line.
    pub fn none() -> LastChoice<'a> {
        LastChoice {
            line: &[],
            choice: None,
        }
    }

    /// A line that says a choice once.
    pub fn new(line: &'a [u8], choice: Choice) -> LastChoice<'a>
        requires { SaysOnce line.now choice }
    {
        LastChoice {
            line,
            choice: Some(choice),
        }
    }

    /// The choice that a line says once, where it is the same line.
    #[tactic(auto, using(crate::proofs::AgainLaws::same_says))]
    pub fn of(&self, line: &[u8]) -> Option<Choice>
        ensures { IfSome result (λ c. SaysOnce line.now c) }
    {
        if line != self.line {
            return None;
        }
        self.choice
    }
}
