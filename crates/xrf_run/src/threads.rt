//! The threaded run: three workers on one lock, and the turns after them.

ghost use Rattle.std.specs.Prelude.{◌≡◌, reverse, Ok, IfOk};
ghost use Rattle.xrf_exit.specs.Exit.{AnswersAllowed};
ghost use Rattle.xrf_exit.specs.declared.Notice.TheVariants.{AlternateLost};
ghost use Rattle.xrf_scenario.specs.Canonical.{AreChoices};
ghost use Rattle.xrf_trace.specs.Promises.{Promises};
ghost use Rattle.xrf_trace.specs.Runs.{run};
ghost use Rattle.xrf_trace.specs.Safe.{Safe};
ghost use Rattle.xrf_run.specs.Answering.{UponLoss};
ghost use Rattle.xrf_run.specs.Threaded.{IsThreadedRun};
ghost use Rattle.xrf_run.specs.Turns.{IsLive};

use crate::gate::{Actor, Gate};
use crate::shared::{RunName, Shared};
use std::alloc::{AllocError, Global};
use std::marker::Brand;
use std::sync::{Mutex, Wait};
use std::thread::{Threads, join};
use xrf_base::Site;
use xrf_exit::{ExitAnswer, Notice, StatusExit};
use xrf_setup::{Choice, Scenario};
use xrf_world::World;

/// How many turns each worker has.
pub const TURNS: u32 = 4096;

// A name that stands for any run: each call of `live` says which it is.
impl RunName for Brand {
    ghost use Rattle.xrf_scenario.specs.Settled.{scenario_of};
    ghost use Rattle.xrf_scenario.specs.SoFar.{nothing_said};

    ghost scenario = { scenario_of nothing_said };

    ghost may = { λ said. Unit {0} };
}

// the worker of a site
fn work_at<N: RunName, R: Wait, G: Gate, F: Fn(Notice) -> ExitAnswer>(
    rt: &R,
    gate: &G,
    shared: &Mutex<Shared<N>>,
    site: Site,
    exit: &StatusExit<F>,
)
    requires callable { F.IsAlwaysCallable exit.now.closure }
    requires allowed { AnswersAllowed (F.post exit.now.closure) }
    requires may { UponLoss (F.post exit.now.closure) N.may }
{
    let actor = match site {
        Site::A => Actor::SiteA,
        Site::B => Actor::SiteB,
    };
    for turn in 1..TURNS + 1 {
        gate.pass(actor, turn);
        shared.lock(rt).site_turn(site, exit);
    }
}

// the worker of the environment
fn work_around<N: RunName, R: Wait, G: Gate>(rt: &R, gate: &G, shared: &Mutex<Shared<N>>) {
    for turn in 1..TURNS + 1 {
        gate.pass(Actor::Environment, turn);
        shared.lock(rt).environment_turn();
    }
}

// the worker of site B, and that of the environment beside it
fn work_beside<
    N: RunName + Send + Sync,
    R: Threads + Wait + Sync,
    G: Gate + Sync,
    F: Fn(Notice) -> ExitAnswer + Sync,
>(rt: &R, gate: &G, shared: &Mutex<Shared<N>>, exit: &StatusExit<F>)
    requires callable { F.IsAlwaysCallable exit.now.closure }
    requires allowed { AnswersAllowed (F.post exit.now.closure) }
    requires may { UponLoss (F.post exit.now.closure) N.may }
{
    join(
        rt,
        || work_at(rt, gate, shared, Site::B, exit),
        || work_around(rt, gate, shared),
    );
}

// all three threads: the worker of site A beside the other two
fn work_together<
    N: RunName + Send + Sync,
    R: Threads + Wait + Sync,
    G: Gate + Sync,
    F: Fn(Notice) -> ExitAnswer + Sync,
>(rt: &R, gate: &G, shared: &Mutex<Shared<N>>, exit: &StatusExit<F>)
    requires callable { F.IsAlwaysCallable exit.now.closure }
    requires allowed { AnswersAllowed (F.post exit.now.closure) }
    requires may { UponLoss (F.post exit.now.closure) N.may }
{
    join(
        rt,
        || work_at(rt, gate, shared, Site::A, exit),
        ||
            requires callable { F.IsAlwaysCallable exit.now.closure }
            requires allowed { AnswersAllowed (F.post exit.now.closure) }
            requires may { UponLoss (F.post exit.now.closure) N.may }
        { work_beside(rt, gate, shared, exit) },
    );
}

fn live_as<
    N: RunName + Send + Sync,
    R: Threads + Wait + Sync,
    G: Gate + Sync,
    F: Fn(Notice) -> ExitAnswer + Sync,
>(
    rt: &R,
    alloc: Global,
    scenario: &Scenario,
    gate: &G,
    exit: &StatusExit<F>,
) -> Result<(World, Vec<Choice>), AllocError>
    requires scenario { N.scenario ≡ scenario.now }
    requires callable { F.IsAlwaysCallable exit.now.closure }
    requires allowed { AnswersAllowed (F.post exit.now.closure) }
    requires may { UponLoss (F.post exit.now.closure) N.may }
    ensures { IfOk result (λ r. IsLive N.scenario N.may r.0 r.1.items) }
{
    let lock = Mutex::new(Shared::<N>::new(alloc, scenario)?);
    work_together(rt, gate, &lock, exit);
    let mut alone = lock.into_inner();
    alone.finish_alone(exit);
    Ok(alone.into_parts())
}

/// Runs the scenario by three threads: a worker for each site and one for the environment, of 4,096 turns each, on
/// one pair under a lock. Each turn passes the gate first. The turns that are left are made after them. The World
/// that comes out has run the choices that come with it, the oldest first, which a text can hold; they are a threaded
/// run of the scenario from its beginning to its end, in which the exit has answered the notices. The run is safe and
/// keeps the promises. The one error is want of memory.
pub fn live<R: Threads + Wait + Sync, G: Gate + Sync, F: Fn(Notice) -> ExitAnswer + Sync>(
    rt: &R,
    alloc: Global,
    scenario: &Scenario,
    gate: &G,
    exit: &StatusExit<F>,
) -> Result<(World, Vec<Choice>), AllocError>
    requires callable { F.IsAlwaysCallable exit.now.closure }
    requires allowed { AnswersAllowed (F.post exit.now.closure) }
    ensures scenario { IfOk result (λ r. r.0.scenario ≡ scenario.now) }
    ensures run { IfOk result (λ r. run scenario.now r.1.items ≡ Ok r.0.trace) }
    ensures choices { IfOk result (λ r. AreChoices r.1.items) }
    ensures safe { IfOk result (λ r. Safe scenario.now r.0.trace) }
    ensures promises { IfOk result (λ r. Promises scenario.now r.0.trace) }
    ensures threaded { IfOk result (λ r. IsThreadedRun scenario.now (λ said. F.post exit.now.closure AlternateLost said) r.0.trace (reverse r.1.items)) }
{
    live_as::<Brand, R, G, F>(rt, alloc, scenario, gate, exit)
}
