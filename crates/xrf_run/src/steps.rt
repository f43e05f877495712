//! The steps of a tick, by which the sites are paced.

ghost use Rattle.std.specs.Prelude.{◌≡◌, ◌+◌, ◌≤◌};
ghost use Rattle.xrf_setup.specs.declared.ranges.TheConstants.{CHOICES_MOST};
ghost use Rattle.xrf_run.specs.Pacing.{is_alone, steps_of, one_more, steps_after};

use xrf_base::Site;
use xrf_setup::Choice;

/// The part of a threaded run: its threads, and the turns after them.
#[derive(Clone, Copy, Debug, PartialEq, Eq)]
pub(crate) enum Phase {
    Threads,
    Alone,
}

impl Phase {
    pub(crate) fn is_alone(self) -> bool
        ensures { result ≡ is_alone self }
    {
        match self {
            Phase::Threads => false,
            Phase::Alone => true,
        }
    }
}

/// How many steps each site has made since the last tick.
#[derive(Clone, Copy)]
pub(crate) struct Steps {
    pub(crate) a: u32,
    pub(crate) b: u32,
}

impl Steps {
    pub(crate) fn of(&self, site: Site) -> u32
        ensures { result ≡ steps_of self.now site }
    {
        match site {
            Site::A => self.a,
            Site::B => self.b,
        }
    }

    /// After a choice.
    pub(crate) fn after(&self, choice: &Choice) -> Steps
        requires a { self.now.a ≤ CHOICES_MOST }
        requires b { self.now.b ≤ CHOICES_MOST }
        ensures { result ≡ steps_after self.now choice.now }
    {
        match choice {
            Choice::Step(site) => self.one_more(*site),
            Choice::Tick => Steps { a: 0, b: 0 },
            _ => *self,
        }
    }

    fn one_more(&self, site: Site) -> Steps
        requires a { self.now.a ≤ CHOICES_MOST }
        requires b { self.now.b ≤ CHOICES_MOST }
        ensures { result ≡ one_more self.now site }
    {
        match site {
            Site::A => Steps {
                a: self.a + 1,
                b: self.b,
            },
            Site::B => Steps {
                a: self.a,
                b: self.b + 1,
            },
        }
    }
}
