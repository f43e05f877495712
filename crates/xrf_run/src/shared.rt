//! What lies under the lock: the World, the choices made so far, and how far the plan was offered.

ghost use Rattle.std.specs.Prelude.{◌≡◌, ◌≤◌, ◌<◌, ◌+◌, true, false, Some, None, IfOk, reverse, length, slice_get};
ghost use Rattle.std.specs.Option.{option_map};
ghost use Rattle.xrf_exit.specs.Exit.{AnswersAllowed};
ghost use Rattle.xrf_setup.specs.declared.ranges.TheConstants.{CHOICES_MOST};
ghost use Rattle.xrf_trace.specs.Runs.{outcome};
ghost use Rattle.xrf_trace.specs.Scenario.{IsScen};
ghost use Rattle.xrf_world.specs.Report.{notice_at};
ghost use Rattle.xrf_run.specs.Answering.{MayBe, UponLoss};
ghost use Rattle.xrf_run.specs.Offering.{due_of, due};
ghost use Rattle.xrf_run.specs.Pacing.{steps_of, steps_made, is_in_pace, is_through, may_tick};
ghost use Rattle.xrf_run.specs.Threaded.{IsThreaded, is_full, has_ended};
ghost use Rattle.xrf_run.specs.Turns.{begun, passed, IsSiteTurn, IsEnvironmentTurn, GoesOn, IsRefused, WasOffered, WasTicked, WasStepped, IsPending, WasSaid, Added, MayFollow, left};

use crate::steps::{Phase, Steps};
use crate::turn::{Turn, any_did};
use std::alloc::{AllocError, Global};
use std::marker::{Model, PhantomData};
use xrf_base::{Site, Tick};
use xrf_exit::{ExitAnswer, Notice, StatusExit};
use xrf_setup::ranges::CHOICES_MOST;
use xrf_setup::{Choice, Scenario};
use xrf_world::World;

/// Which run it is: its scenario, and what may be answered to the loss of the alternate. It has no call.
pub trait RunName {
    ghost use Rattle.xrf_exit.specs.declared.ExitAnswer.{ExitAnswer};
    ghost use Rattle.xrf_setup.specs.Scenario.{Scen};

    ghost scenario: { Scen };

    ghost may: { ExitAnswer → Type 0 };
}

/// The value behind the lock. Contracts see how far the run is (`Progress` of the specs), which is always a
/// threaded run of the scenario that its name says.
#[derive(Drop)]
pub struct Shared<N: RunName> {
    world: World,
    // oldest first, with room for all of a run
    choices: Vec<Choice>,
    plan: Vec<(Tick, Choice)>,
    // lines of the plan
    offered: usize,
    // since the last tick
    steps: Steps,
    pace: u32,
    ticks: Tick,
    of: PhantomData<N>,
}

impl<N: RunName> Model for Shared<N> {
    ghost use Rattle.std.specs.Prelude.{reverse, vec_capacity};
    ghost use Rattle.xrf_run.specs.Threaded.{Progress, IsThreaded};
    ghost use Rattle.xrf_run.specs.Turns.{IsKept};

    ghost Value = { Progress };

    ghost view = { λ s. record { trace = s.world.trace; choices = reverse s.choices.items; offered = s.offered } };

    ghost invariant = { λ s. IsThreaded N.scenario N.may (record { trace = s.world.trace; choices = reverse s.choices.items; offered = s.offered })
        × IsKept N.scenario (record { trace = s.world.trace; choices = reverse s.choices.items; offered = s.offered }) s.world.scenario s.steps s.pace s.ticks s.plan.items (vec_capacity s.choices) };
}

fn due_of(now: Tick, line: Option<&(Tick, Choice)>) -> Option<Choice>
    ensures { result ≡ due_of now (option_map (λ x. x.now) line.entry) }
{
    match line {
        Some(line) => { if line.0 <= now { Some(line.1) } else { None } }
        None => None,
    }
}

fn due_in(plan: &[(Tick, Choice)], now: Tick, offered: usize) -> Option<Choice>
    ensures { result ≡ due_of now (slice_get plan.now offered) }
{
    due_of(now, plan.get(offered))
}

impl<N: RunName> Shared<N> {
    /// Before the first choice. It takes all memory of a run.
    pub fn new(alloc: Global, scenario: &Scenario) -> Result<Shared<N>, AllocError>
        requires scenario { N.scenario ≡ scenario.now }
        ensures { IfOk result (λ shared. shared ≡ begun) }
    {
        let world = World::new(alloc, scenario)?;
        let choices = Vec::with_capacity(alloc, CHOICES_MOST)?;
        let plan = Vec::from_slice(alloc, scenario.plan())?;
        Ok(Shared {
            world,
            choices,
            plan,
            offered: 0,
            steps: Steps { a: 0, b: 0 },
            pace: scenario.pace(),
            ticks: scenario.ticks(),
            of: PhantomData,
        })
    }

    fn is_full(&self) -> bool
        ensures { result ≡ is_full self.now.trace }
    {
        self.choices.len() >= CHOICES_MOST
    }

    // the notice that is pending at a site
    fn notice(&self, site: Site) -> Option<Notice>
        ensures { result ≡ notice_at N.scenario self.now.trace site }
    {
        self.world.notice(site)
    }

    // the planned choice that is due
    fn due(&self) -> Option<Choice>
        ensures { result ≡ due N.scenario self.now.trace self.now.offered }
    {
        due_in(self.plan.as_slice(), self.world.now(), self.offered)
    }

    // whether a site has made its steps of this tick, or has none to make
    fn is_through(&self, site: Site) -> bool
        ensures { result ≡ is_through N.scenario self.now.trace (steps_made self.now.choices) site }
    {
        self.steps.of(site) >= self.pace || !self.world.is_enabled(&Choice::Step(site))
    }

    fn may_tick(&self) -> bool
        ensures { result ≡ may_tick N.scenario self.now.trace (steps_made self.now.choices) }
    {
        self.world.now() < self.ticks
            && self.notice(Site::A).is_none()
            && self.notice(Site::B).is_none()
            && self.is_through(Site::A)
            && self.is_through(Site::B)
    }

    fn is_in_pace(&self, phase: Phase, site: Site) -> bool
        ensures { result ≡ is_in_pace phase N.scenario self.now.trace (steps_of (steps_made self.now.choices) site) }
    {
        self.steps.of(site) < self.pace || (phase.is_alone() && self.ticks <= self.world.now())
    }

    // Adds a choice where it is accepted, and says how many lines of the plan are offered then.
    fn add(&mut self, choice: Choice, offered: usize) -> bool
        requires room { length self.old.trace < CHOICES_MOST }
        requires follows { MayFollow N.scenario N.may self.old choice offered }
        ensures { Added self.old choice offered (outcome N.scenario self.old.trace choice) result self.new }
    {
        if self.world.apply(&choice).is_err() {
            return false;
        }
        self.steps = self.steps.after(&choice);
        self.choices.push_reserved(choice);
        self.offered = offered;
        true
    }

    // passes the line of the plan that is refused
    fn pass_line(&mut self)
        requires { IsRefused N.scenario self.old }
        ensures { self.new ≡ passed self.old }
    {
        self.offered += 1;
    }

    // offers the line of the plan that is due
    fn offer(&mut self, choice: Choice) -> Turn
        requires room { length self.old.trace < CHOICES_MOST }
        requires due { due N.scenario self.old.trace self.old.offered ≡ Some choice }
        ensures { WasOffered N.scenario self.old choice result self.new }
    {
        if self.add(choice, self.offered + 1) {
            Turn::Applied
        } else {
            self.pass_line();
            Turn::Dropped
        }
    }

    // a tick comes if it may
    fn tick(&mut self) -> Turn
        requires room { length self.old.trace < CHOICES_MOST }
        requires none_due { due N.scenario self.old.trace self.old.offered ≡ None }
        ensures { WasTicked N.scenario self.old result self.new }
    {
        if !self.may_tick() {
            return Turn::Nothing;
        }
        self.add(Choice::Tick, self.offered);
        Turn::Applied
    }

    // what the exit of a site said
    fn say(&mut self, site: Site, answer: ExitAnswer)
        requires room { length self.old.trace < CHOICES_MOST }
        requires pending { IsPending N.scenario self.old site answer }
        requires may { MayBe N.may answer }
        ensures { WasSaid N.scenario self.old site answer self.new }
    {
        let choice = Choice::Exit(site, answer);
        self.world.exit_said(site, answer);
        self.steps = self.steps.after(&choice);
        self.choices.push_reserved(choice);
    }

    // makes the step of a site where it is in its pace and enabled
    fn step(&mut self, phase: Phase, site: Site) -> Turn
        requires room { length self.old.trace < CHOICES_MOST }
        ensures { WasStepped phase N.scenario self.old site result self.new }
    {
        if !self.is_in_pace(phase, site) {
            return Turn::Nothing;
        }
        if self.add(Choice::Step(site), self.offered) {
            Turn::Applied
        } else {
            Turn::Nothing
        }
    }

    fn turn_of<F: Fn(Notice) -> ExitAnswer>(
        &mut self,
        phase: Phase,
        site: Site,
        exit: &StatusExit<F>,
    ) -> Turn
        requires callable { F.IsAlwaysCallable exit.now.closure }
        requires allowed { AnswersAllowed (F.post exit.now.closure) }
        requires may { UponLoss (F.post exit.now.closure) N.may }
        ensures { IsSiteTurn phase N.scenario (F.post exit.now.closure) self.old site result self.new }
    {
        if self.is_full() {
            return Turn::Nothing;
        }
        match self.notice(site) {
            Some(notice) => {
                let answer = exit.ask(notice);
                self.say(site, answer);
                Turn::Applied
            }
            None => self.step(phase, site),
        }
    }

    /// One turn of the worker of a site: a pending notice is answered by the exit, and else a step is made, where
    /// the site has made fewer than PACE in this tick and the step is enabled.
    pub fn site_turn<F: Fn(Notice) -> ExitAnswer>(
        &mut self,
        site: Site,
        exit: &StatusExit<F>,
    ) -> Turn
        requires callable { F.IsAlwaysCallable exit.now.closure }
        requires allowed { AnswersAllowed (F.post exit.now.closure) }
        requires may { UponLoss (F.post exit.now.closure) N.may }
        ensures { IsSiteTurn Phase.Threads N.scenario (F.post exit.now.closure) self.old site result self.new }
    {
        self.turn_of(Phase::Threads, site, exit)
    }

    /// One turn of the environment: the line of the plan that is due is offered, and where none is, a tick comes if
    /// it may.
    pub fn environment_turn(&mut self) -> Turn
        ensures { IsEnvironmentTurn N.scenario self.old result self.new }
    {
        if self.is_full() {
            return Turn::Nothing;
        }
        match self.due() {
            Some(choice) => self.offer(choice),
            None => self.tick(),
        }
    }

    // a turn of each, and whether one of them did something
    fn round<F: Fn(Notice) -> ExitAnswer>(&mut self, exit: &StatusExit<F>) -> bool
        requires callable { F.IsAlwaysCallable exit.now.closure }
        requires allowed { AnswersAllowed (F.post exit.now.closure) }
        requires may { UponLoss (F.post exit.now.closure) N.may }
        ensures on { GoesOn self.old self.new }
        ensures less { result ≡ true → left N.scenario self.new < left N.scenario self.old }
        ensures ends { result ≡ false → has_ended N.scenario self.new.trace self.new.offered ≡ true }
    {
        let environment = self.environment_turn();
        let a = self.turn_of(Phase::Alone, Site::A, exit);
        let b = self.turn_of(Phase::Alone, Site::B, exit);
        any_did(environment, a, b)
    }

    /// The turns after the threads: of the environment, of site A and of site B, in turn to the end. The steps of
    /// the last tick are not bounded by PACE here.
    pub fn finish_alone<F: Fn(Notice) -> ExitAnswer>(&mut self, exit: &StatusExit<F>)
        requires callable { F.IsAlwaysCallable exit.now.closure }
        requires allowed { AnswersAllowed (F.post exit.now.closure) }
        requires may { UponLoss (F.post exit.now.closure) N.may }
        ensures on { GoesOn self.old self.new }
        ensures ended { has_ended N.scenario self.new.trace self.new.offered ≡ true }
    {
        while self.round(exit) {}
    }

    /// The choices made so far, the oldest first.
    pub fn choices(&self) -> &[Choice]
        ensures choices { result.now ≡ reverse self.now.choices }
        ensures threaded { IsThreaded N.scenario N.may self.now }
    {
        self.choices.as_slice()
    }

    /// The World.
    pub fn world(&self) -> &World
        ensures world { result.now ≡ record { scenario = N.scenario; trace = self.now.trace } }
        ensures threaded { IsThreaded N.scenario N.may self.now }
    {
        &self.world
    }

    /// The World and the choices, as they are.
    pub fn into_parts(self) -> (World, Vec<Choice>)
        ensures world { result.0 ≡ record { scenario = N.scenario; trace = self.trace } }
        ensures scen { IsScen N.scenario }
        ensures few { length self.trace ≤ CHOICES_MOST }
        ensures choices { reverse result.1.items ≡ self.choices }
        ensures threaded { IsThreaded N.scenario N.may self }
    {
        (self.world, self.choices)
    }
}
