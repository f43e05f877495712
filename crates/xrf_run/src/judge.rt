//! A judge of threaded runs: it follows some choices through a World of its own, and tests each by the rules.

use std::alloc::{AllocError, Global};
use xrf_base::Site;
use xrf_exit::ExitAnswer;
use xrf_setup::ranges::CHOICES_MOST;
use xrf_setup::{Choice, Landing, Scenario};
use xrf_world::World;

/// What is known after some choices of a run.
#[derive(Drop)]
pub(crate) struct Judge<'a> {
    scenario: &'a Scenario,
    world: World,
    // for each number of lines of the plan, whether so many may have been offered
    offered: Vec<bool>,
    // steps since the last tick
    a: u32,
    b: u32,
}

// whether two planned choices are the same; of the choices that a plan may have, those of the tests
fn is_same(one: &Choice, other: &Choice) -> bool {
    match (one, other) {
        (Choice::StartActive(x), Choice::StartActive(y)) => x == y,
        (Choice::StartStandby(x), Choice::StartStandby(y)) => x == y,
        (Choice::Abend(x), Choice::Abend(y)) => x == y,
        (Choice::Stop(x, Landing::Nothing), Choice::Stop(y, Landing::Nothing)) => x == y,
        (Choice::Confirm(x), Choice::Confirm(y)) => x == y,
        _ => false,
    }
}

impl<'a> Judge<'a> {
    // before the first choice
    fn new(alloc: Global, scenario: &'a Scenario) -> Result<Judge<'a>, AllocError> {
        let mut offered = Vec::new(alloc);
        offered.push(true)?;
        for _ in scenario.plan() {
            offered.push(false)?;
        }
        Ok(Judge {
            scenario,
            world: World::new(alloc, scenario)?,
            offered,
            a: 0,
            b: 0,
        })
    }

    // the choice of a line of the plan whose tick has come
    fn due(&self, line: usize) -> Option<Choice> {
        match self.scenario.plan().get(line) {
            Some(planned) => {
                if planned.0 <= self.world.now() {
                    Some(planned.1)
                } else {
                    None
                }
            }
            None => None,
        }
    }

    fn may_be(&self, line: usize) -> bool {
        match self.offered.get(line) {
            Some(may) => *may,
            None => false,
        }
    }

    // where a line that is due is refused, it may have been passed
    fn pass_lines(&mut self, alloc: Global) -> Result<(), AllocError> {
        let mut passed = Vec::new(alloc);
        let mut is_passed = false;
        for line in 0..self.offered.len() {
            let may = self.may_be(line) || is_passed;
            is_passed = may
                && match self.due(line) {
                    Some(choice) => !self.world.is_enabled(&choice),
                    None => false,
                };
            passed.push(may)?;
        }
        self.offered = passed;
        Ok(())
    }

    // the lines after a choice of the plan
    fn take_line(&mut self, alloc: Global, choice: &Choice) -> Result<(), AllocError> {
        let mut taken = Vec::new(alloc);
        let mut is_taken = false;
        for line in 0..self.offered.len() {
            taken.push(is_taken)?;
            is_taken = self.may_be(line)
                && match self.due(line) {
                    Some(planned) => is_same(&planned, choice),
                    None => false,
                };
        }
        self.offered = taken;
        Ok(())
    }

    // the lines after a tick: none of them was due
    fn tick_lines(&mut self, alloc: Global) -> Result<(), AllocError> {
        let mut left = Vec::new(alloc);
        for line in 0..self.offered.len() {
            left.push(self.may_be(line) && self.due(line).is_none())?;
        }
        self.offered = left;
        Ok(())
    }

    fn steps(&self, site: Site) -> u32 {
        match site {
            Site::A => self.a,
            Site::B => self.b,
        }
    }

    fn is_through(&self, site: Site) -> bool {
        self.steps(site) == self.scenario.pace() || !self.world.is_enabled(&Choice::Step(site))
    }

    fn may_tick(&self) -> bool {
        self.world.now() < self.scenario.ticks()
            && self.world.notice(Site::A).is_none()
            && self.world.notice(Site::B).is_none()
            && self.is_through(Site::A)
            && self.is_through(Site::B)
    }

    fn may_step(&self, site: Site) -> bool {
        self.steps(site) < self.scenario.pace() || self.world.now() >= self.scenario.ticks()
    }

    fn count_step(&mut self, site: Site) {
        match site {
            Site::A => self.a = self.a.wrapping_add(1),
            Site::B => self.b = self.b.wrapping_add(1),
        }
    }

    // whether the rules allow a choice, and what is known behind it
    fn allow(&mut self, alloc: Global, choice: &Choice) -> Result<bool, AllocError> {
        match choice {
            Choice::Step(site) => {
                let may = self.may_step(*site);
                self.count_step(*site);
                Ok(may)
            }
            Choice::Tick => {
                let may = self.may_tick();
                self.tick_lines(alloc)?;
                self.a = 0;
                self.b = 0;
                Ok(may)
            }
            Choice::Exit(_, said) => Ok(*said != ExitAnswer::Drop),
            _ => {
                self.take_line(alloc, choice)?;
                Ok(true)
            }
        }
    }

    // follows one choice more, and says whether the rules allow it.
    fn follow(&mut self, alloc: Global, choice: &Choice) -> Result<bool, AllocError> {
        self.pass_lines(alloc)?;
        let is_allowed = self.allow(alloc, choice)?;
        if self.world.journal().len() >= CHOICES_MOST {
            return Ok(false);
        }
        let is_made = self.world.apply(choice).is_ok();
        Ok(is_allowed && is_made && self.is_offered())
    }

    // some number of lines may have been offered
    fn is_offered(&self) -> bool {
        for may in self.offered.iter() {
            if *may {
                return true;
            }
        }
        false
    }

    fn is_at_rest(&self, site: Site) -> bool {
        !self.world.is_enabled(&Choice::Step(site)) && self.world.notice(site).is_none()
    }

    // whether the run has ended
    fn has_ended(&mut self, alloc: Global) -> Result<bool, AllocError> {
        self.pass_lines(alloc)?;
        self.tick_lines(alloc)?;
        let is_over = self.world.now() >= self.scenario.ticks()
            && self.is_at_rest(Site::A)
            && self.is_at_rest(Site::B);
        Ok(self.world.journal().len() >= CHOICES_MOST || (is_over && self.is_offered()))
    }

    // the rules allow all choices, and the run has ended with them
    fn follow_to_the_end(&mut self, alloc: Global, choices: &[Choice]) -> Result<bool, AllocError> {
        for choice in choices {
            if !self.follow(alloc, choice)? {
                return Ok(false);
            }
        }
        self.has_ended(alloc)
    }
}

/// Whether some choices are those of a threaded run, from its beginning to its end, whose exit answers TakeoverSeen
/// with Abend and AlternateLost with Keep.
pub(crate) fn is_threaded_run(
    alloc: Global,
    scenario: &Scenario,
    choices: &[Choice],
) -> Result<bool, AllocError> {
    let mut judge = Judge::new(alloc, scenario)?;
    judge.follow_to_the_end(alloc, choices)
}
