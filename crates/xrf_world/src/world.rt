//! The World: a scenario at work, with the journal of what has happened.

ghost use Rattle.std.specs.Prelude.{◌≡◌, ◌<◌, ◌≤◌, [], Some, None, Ok, IfOk, IsTrue, length, reverse};
ghost use Rattle.xrf_exit.specs.Exit.{is_allowed};
ghost use Rattle.xrf_exit.specs.declared.Notice.{Notice as Told};
ghost use Rattle.xrf_log.specs.Flight.{flight};
ghost use Rattle.xrf_setup.specs.declared.choice.Choice.TheVariants as choice;
ghost use Rattle.xrf_trace.specs.FileIsBook.{IsBookAt};
ghost use Rattle.xrf_trace.specs.Log.{log};
ghost use Rattle.xrf_trace.specs.Promises.{Promises};
ghost use Rattle.xrf_trace.specs.Refusals.{refusal};
ghost use Rattle.xrf_trace.specs.Runs.{IsRun};
ghost use Rattle.xrf_trace.specs.Safe.{Safe};
ghost use Rattle.xrf_trace.specs.Scenario.{IsScen};
ghost use Rattle.xrf_world.specs.Report.{notice_at};
ghost use Rattle.xrf_world.specs.Runs.{Applied};
ghost use Rattle.xrf_world.specs.Standing.{IsWorld, run_of};

use crate::pair::Pair;
use std::alloc::{AllocError, Global};
use std::marker::Model;
use xrf_base::Site;
use xrf_exit::ExitAnswer;
use xrf_setup::ranges::CHOICES_MOST;
use xrf_setup::{Choice, Scenario};
use xrf_trace::{Entry, Refused};

/// A scenario at work. Contracts see the scenario and the trace, the newest entry first (`Run` of the specs).
#[derive(Drop)]
pub struct World {
    pub(crate) pair: Pair,
}

impl Model for World {
    ghost use Rattle.xrf_world.specs.Runs.{Run};

    ghost Value = { Run };

    ghost use Rattle.xrf_world.specs.Standing.{IsWorld, run_of};

    ghost view = { λ w. run_of w.pair };

    ghost invariant = { λ w. IsWorld w.pair };
}

// a choice
fn advance(pair: &mut Pair, choice: &Choice) -> Result<(), Refused>
    requires world { IsWorld pair.old }
    requires room { length pair.old.middle.journal.items < CHOICES_MOST }
    ensures world { IsWorld pair.new }
    ensures applied { Applied (run_of pair.old) choice.now result (run_of pair.new) }
{
    pair.choose(choice)
}

// STEP of a site
fn advance_step(pair: &mut Pair, site: Site) -> Result<(), Refused>
    requires world { IsWorld pair.old }
    requires room { length pair.old.middle.journal.items < CHOICES_MOST }
    ensures world { IsWorld pair.new }
    ensures applied { Applied (run_of pair.old) (choice.Step site) result (run_of pair.new) }
{
    pair.step(site)
}

// TICK
fn advance_tick(pair: &mut Pair)
    requires world { IsWorld pair.old }
    requires room { length pair.old.middle.journal.items < CHOICES_MOST }
    ensures world { IsWorld pair.new }
    ensures applied { Applied (run_of pair.old) choice.Tick (Ok tt) (run_of pair.new) }
{
    pair.tick();
}

// an EXIT that is not refused
fn advance_exit(pair: &mut Pair, site: Site, said: ExitAnswer)
    requires world { IsWorld pair.old }
    requires room { length pair.old.middle.journal.items < CHOICES_MOST }
    requires accepted { refusal pair.old.middle.scenario (reverse pair.old.middle.journal.items) (choice.Exit site said) ≡ None }
    ensures world { IsWorld pair.new }
    ensures applied { Applied (run_of pair.old) (choice.Exit site said) (Ok tt) (run_of pair.new) }
{
    pair.exit_said(site, said);
}

impl World {
    /// A World before the first choice. It takes all memory that a run needs.
    pub fn new(alloc: Global, scenario: &Scenario) -> Result<World, AllocError>
        ensures world { IfOk result (λ world. world ≡ record { scenario = scenario.now; trace = [] }) }
        ensures scenario { IfOk result (λ world. IsScen scenario.now) }
    {
        let pair = Pair::new(alloc, scenario)?;
        Ok(World { pair })
    }

    /// Makes a choice: one entry is added, or the choice is refused and nothing changes. It takes no memory. The run
    /// stays safe, and wherever no unit is in flight the file is the book.
    #[tactic(auto, using(crate::proofs::WorldLaws::is_safe, crate::proofs::WorldLaws::keeps_promises, crate::proofs::WorldLaws::file_is_book))]
    pub fn apply(&mut self, choice: &Choice) -> Result<(), Refused>
        requires room { length self.old.trace < CHOICES_MOST }
        ensures applied { Applied self.old choice.now result self.new }
        ensures safe { Safe self.new.scenario self.new.trace }
        ensures promises { Promises self.new.scenario self.new.trace }
        ensures book { flight (log self.new.trace) ≡ [] → IsBookAt self.new.scenario self.new.trace }
    {
        advance(&mut self.pair, choice)
    }

    /// STEP of a site, as `apply` makes it.
    #[tactic(auto, using(crate::proofs::WorldLaws::is_safe, crate::proofs::WorldLaws::keeps_promises, crate::proofs::WorldLaws::file_is_book))]
    pub fn step(&mut self, site: Site) -> Result<(), Refused>
        requires room { length self.old.trace < CHOICES_MOST }
        ensures applied { Applied self.old (choice.Step site) result self.new }
        ensures safe { Safe self.new.scenario self.new.trace }
        ensures promises { Promises self.new.scenario self.new.trace }
        ensures book { flight (log self.new.trace) ≡ [] → IsBookAt self.new.scenario self.new.trace }
    {
        advance_step(&mut self.pair, site)
    }

    /// TICK, as `apply` makes it: it is never refused.
    #[tactic(auto, using(crate::proofs::WorldLaws::is_safe, crate::proofs::WorldLaws::keeps_promises, crate::proofs::WorldLaws::file_is_book))]
    pub fn tick(&mut self)
        requires room { length self.old.trace < CHOICES_MOST }
        ensures applied { Applied self.old choice.Tick (Ok tt) self.new }
        ensures safe { Safe self.new.scenario self.new.trace }
        ensures promises { Promises self.new.scenario self.new.trace }
        ensures book { flight (log self.new.trace) ≡ [] → IsBookAt self.new.scenario self.new.trace }
    {
        advance_tick(&mut self.pair);
    }

    /// The exit of the job at a site has answered the notice that is pending: the entry of that EXIT is added. It takes
    /// no memory.
    #[tactic(auto, using(crate::proofs::WorldLaws::is_safe, crate::proofs::WorldLaws::keeps_promises, crate::proofs::WorldLaws::file_is_book))]
    pub fn exit_said(&mut self, site: Site, answer: ExitAnswer)
        requires room { length self.old.trace < CHOICES_MOST }
        requires pending { (told : Told) × (notice_at self.old.scenario self.old.trace site ≡ Some told) × IsTrue (is_allowed told answer) }
        ensures said { Applied self.old (choice.Exit site answer) (Ok tt) self.new }
        ensures safe { Safe self.new.scenario self.new.trace }
        ensures promises { Promises self.new.scenario self.new.trace }
        ensures book { flight (log self.new.trace) ≡ [] → IsBookAt self.new.scenario self.new.trace }
    {
        advance_exit(&mut self.pair, site, answer);
    }

    /// The journal, the oldest entry first: that of a run.
    pub fn journal(&self) -> &[Entry]
        ensures journal { result.now ≡ reverse self.now.trace }
        ensures length { length result.now ≡ length self.now.trace }
        ensures run { IsRun self.now.scenario self.now.trace }
        ensures scenario { IsScen self.now.scenario }
        ensures few { length self.now.trace ≤ CHOICES_MOST }
    {
        self.pair.middle.journal.as_slice()
    }
}
