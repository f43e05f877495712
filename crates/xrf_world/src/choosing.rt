//! One choice to a pair: a tick, a confirmation, or a choice of a site.

ghost use Rattle.std.specs.Prelude.{◌≡◌, List, Some, None, Ok};
ghost use Rattle.xrf_setup.specs.declared.choice.Choice.TheVariants as choice;
ghost use Rattle.xrf_trace.specs.declared.entry.Entry.{Entry as Made};
ghost use Rattle.xrf_trace.specs.Refusals.{refusal};
ghost use Rattle.xrf_trace.specs.Words.{reserve_is_free};
ghost use Rattle.xrf_world.specs.Making.{Makes, MakesAt, site_of};
ghost use Rattle.xrf_world.specs.Standing.{StandsAt, Stands, Goes};

use crate::middle::Middle;
use crate::pair::Pair;
use crate::place::Place;
use crate::reaching::{abend, command, exit, exit_said, reply};
use crate::starting::{start_active, start_standby};
use crate::steps::{fail, lose, step};
use crate::stopping::stop;
use xrf_base::{Inc, Site};
use xrf_exit::ExitAnswer;
use xrf_setup::Choice;
use xrf_trace::{Act, Entry, Land, Refused, Who};

/// The site of a choice, none of a tick and of a confirmation.
pub(crate) fn site_of(choice: &Choice) -> Option<Site>
    ensures { result ≡ site_of choice.now }
{
    match choice {
        Choice::Tick => None,
        Choice::Confirm(_) => None,
        Choice::Step(site) => Some(*site),
        Choice::Lose(site) => Some(*site),
        Choice::Stop(site, _) => Some(*site),
        Choice::StartActive(site) => Some(*site),
        Choice::StartStandby(site) => Some(*site),
        Choice::Abend(site) => Some(*site),
        Choice::Reply(site, _) => Some(*site),
        Choice::Cebt(site, _) => Some(*site),
        Choice::Exit(site, _) => Some(*site),
        Choice::Fail(site, _) => Some(*site),
    }
}

// a choice of a site, the reserve being free or not
fn choose_at(
    middle: &mut Middle,
    place: &mut Place,
    site: Site,
    choice: &Choice,
    is_free: bool,
) -> Result<(), Refused>
    requires { (t : List Made) × StandsAt middle.old place.old t site × Goes middle.old.scenario t × (is_free ≡ reserve_is_free t)
        × (site_of choice.now ≡ Some site) }
    ensures { (t : List Made) → StandsAt middle.old place.old t site → Goes middle.old.scenario t → is_free ≡ reserve_is_free t
        → site_of choice.now ≡ Some site → MakesAt middle.old place.old t site choice.now result middle.new place.new }
{
    match choice {
        Choice::Step(_) => step(middle, place, site, is_free),
        Choice::Lose(_) => lose(middle, place, site),
        Choice::Stop(_, cut) => stop(middle, place, site, cut),
        Choice::StartActive(_) => start_active(middle, place, site),
        Choice::StartStandby(_) => start_standby(middle, place, site),
        Choice::Abend(_) => abend(middle, place, site),
        Choice::Reply(_, go) => reply(middle, place, site, *go),
        Choice::Cebt(_, asked) => command(middle, place, site, *asked),
        Choice::Exit(_, said) => exit(middle, place, site, *said),
        Choice::Fail(_, cut) => fail(middle, place, site, cut),
        Choice::Tick => Err(Refused::NotEnabled),
        Choice::Confirm(_) => Err(Refused::NotEnabled),
    }
}

impl Pair {
    /// Whether nobody holds the reserve.
    pub(crate) fn is_reserve_free(&self) -> bool
        ensures { (t : List Made) → Stands self.now t → result ≡ reserve_is_free t }
    {
        !self.a.kept.reserves && !self.b.kept.reserves
    }

    // a choice of a site
    fn choose_of(&mut self, site: Site, choice: &Choice) -> Result<(), Refused>
        requires { (t : List Made) × Stands self.old t × Goes self.old.middle.scenario t × (site_of choice.now ≡ Some site) }
        ensures { (t : List Made) → Stands self.old t → Goes self.old.middle.scenario t → site_of choice.now ≡ Some site
            → Makes self.old t choice.now result self.new }
    {
        let is_free = self.is_reserve_free();
        match site {
            Site::A => choose_at(&mut self.middle, &mut self.a, site, choice, is_free),
            Site::B => choose_at(&mut self.middle, &mut self.b, site, choice, is_free),
        }
    }

    /// STEP.
    pub(crate) fn step(&mut self, site: Site) -> Result<(), Refused>
        requires { (t : List Made) × Stands self.old t × Goes self.old.middle.scenario t }
        ensures { (t : List Made) → Stands self.old t → Goes self.old.middle.scenario t → Makes self.old t (choice.Step site) result self.new }
    {
        let is_free = self.is_reserve_free();
        match site {
            Site::A => step(&mut self.middle, &mut self.a, site, is_free),
            Site::B => step(&mut self.middle, &mut self.b, site, is_free),
        }
    }

    /// An EXIT that is not refused.
    pub(crate) fn exit_said(&mut self, site: Site, said: ExitAnswer)
        requires { (t : List Made) × Stands self.old t × Goes self.old.middle.scenario t
            × (refusal self.old.middle.scenario t (choice.Exit site said) ≡ None) }
        ensures { (t : List Made) → Stands self.old t → Goes self.old.middle.scenario t
            → refusal self.old.middle.scenario t (choice.Exit site said) ≡ None
            → Makes self.old t (choice.Exit site said) (Ok tt) self.new }
    {
        match site {
            Site::A => exit_said(&mut self.middle, &mut self.a, site, said),
            Site::B => exit_said(&mut self.middle, &mut self.b, site, said),
        }
    }

    /// TICK.
    pub(crate) fn tick(&mut self)
        requires { (t : List Made) × Stands self.old t × Goes self.old.middle.scenario t }
        ensures { (t : List Made) → Stands self.old t → Goes self.old.middle.scenario t → Makes self.old t choice.Tick (Ok tt) self.new }
    {
        let tick = self.middle.counts.tick + 1;
        let entry = Entry {
            tick,
            who: Who::Env,
            inc: 0,
            act: Act::Tick,
            land: Land::Full,
        };
        self.a.seat.ticked(tick);
        self.b.seat.ticked(tick);
        self.middle.follow(&entry);
    }

    // CONFIRM
    fn confirm(&mut self, number: Inc) -> Result<(), Refused>
        requires { (t : List Made) × Stands self.old t × Goes self.old.middle.scenario t }
        ensures { (t : List Made) → Stands self.old t → Goes self.old.middle.scenario t → Makes self.old t (choice.Confirm number) result self.new }
    {
        if !self.may_confirm(number) {
            return Err(Refused::Dishonest);
        }
        let entry = Entry {
            tick: self.middle.counts.tick,
            who: Who::Env,
            inc: 0,
            act: Act::Confirm(number),
            land: Land::Full,
        };
        self.middle.follow(&entry);
        Ok(())
    }

    /// Makes a choice: its entry is added, or it is refused and nothing changes.
    pub(crate) fn choose(&mut self, choice: &Choice) -> Result<(), Refused>
        requires { (t : List Made) × Stands self.old t × Goes self.old.middle.scenario t }
        ensures { (t : List Made) → Stands self.old t → Goes self.old.middle.scenario t → Makes self.old t choice.now result self.new }
    {
        match choice {
            Choice::Tick => {
                self.tick();
                Ok(())
            }
            Choice::Confirm(number) => self.confirm(*number),
            other => match site_of(other) {
                Some(site) => self.choose_of(site, other),
                None => Err(Refused::NotEnabled),
            },
        }
    }
}
