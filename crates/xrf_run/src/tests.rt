//! Tests of the threaded run.

ghost use Rattle.std.specs.Prelude.{◌≡◌};
ghost use Rattle.xrf_exit.specs.Exit.{AnswersAllowed};
ghost use Rattle.xrf_exit.specs.declared.ExitAnswer.TheVariants.{Keep};
ghost use Rattle.xrf_run.specs.Answering.{UponLoss};

use super::*;
use crate::judge::is_threaded_run;
use std::alloc::{AllocError, Global};
use std::marker::Brand;
use std::process::Abort;
use std::sync::Wait;
use std::sync::atomic::{AtomicBool, AtomicU64, Ordering};
use std::test::Fail;
use std::thread::{self, Threads};
use xrf_base::{Site, Tick};
use xrf_exit::{ExitAnswer, Notice, StatusExit};
use xrf_scenario::read;
use xrf_setup::ranges::PACE_MOST;
use xrf_setup::{Choice, Scenario};
use xrf_world::{JobState, World};

// A works, B stands by, A ends abnormally, and B takes over.
const TAKEOVER: &[u8] = b"XRF 1
TAKEOVR AUTO
TICKS 10
WORK A LOGON T1 1
WORK A LOGON T2 2
WORK A LOGON T3 3
PLAN 0 START A ACTIVE
PLAN 1 START B STANDBY
PLAN 3 ABEND A
CHOICES
END
";

// A loses its alternate.
const LOSS: &[u8] = b"XRF 1
PDI 5
TICKS 12
PLAN 0 START A ACTIVE
PLAN 1 START B STANDBY
PLAN 3 STOP B NONE
CHOICES
END
";

// as many steps in a tick, and as many ticks, as there may be
const LONG: &[u8] = b"XRF 1
TAKEOVR AUTO
PACE 200
TICKS 200
WORK A LOGON T1 1
PLAN 0 START A ACTIVE
PLAN 1 START B STANDBY
PLAN 150 ABEND A
CHOICES
END
";

// Both sites start as active.
const BOTH: &[u8] = b"XRF 1
TICKS 0
PLAN 0 START A ACTIVE
PLAN 0 START B ACTIVE
CHOICES
END
";

// A line of the plan that is refused.
const REFUSED: &[u8] = b"XRF 1
TICKS 10
PLAN 0 START A ACTIVE
PLAN 1 START A ACTIVE
CHOICES
END
";

// how often a gate looks for what it waits for
const TRIES: u32 = 20_000_000;

fn waits_for(flag: &AtomicBool) -> bool {
    for _ in 0..TRIES {
        if flag.load(Ordering::SeqCst) {
            return true;
        }
        thread::yield_now();
    }
    false
}

// A gate at which the first turns of both sites meet.
#[derive(Drop)]
struct Meeting {
    a: AtomicBool,
    b: AtomicBool,
    has_failed: AtomicBool,
}

impl Gate for Meeting {
    fn pass(&self, actor: Actor, turn: u32) {
        if turn != 1 {
            return;
        }
        let has_met = match actor {
            Actor::SiteA => {
                self.a.store(true, Ordering::SeqCst);
                waits_for(&self.b)
            }
            Actor::SiteB => {
                self.b.store(true, Ordering::SeqCst);
                waits_for(&self.a)
            }
            Actor::Environment => true,
        };
        if !has_met {
            self.has_failed.store(true, Ordering::SeqCst);
        }
    }
}

fn waits_until(count: &AtomicU64, least: u64) -> bool {
    for _ in 0..TRIES {
        if count.load(Ordering::SeqCst) >= least {
            return true;
        }
        thread::yield_now();
    }
    false
}

// A gate that lets one site begin once the environment has made two turns, and the other once the first has made 19.
#[derive(Drop)]
struct Order {
    first: Actor,
    environment: AtomicU64,
    ahead: AtomicU64,
    has_failed: AtomicBool,
}

impl Order {
    fn new(first: Actor) -> Order {
        Order {
            first,
            environment: AtomicU64::new(0),
            ahead: AtomicU64::new(0),
            has_failed: AtomicBool::new(false),
        }
    }
}

impl Gate for Order {
    fn pass(&self, actor: Actor, turn: u32) {
        let has_come = if actor == Actor::Environment {
            self.environment.store(turn as u64, Ordering::SeqCst);
            true
        } else if actor == self.first {
            let has_come = turn != 1 || waits_until(&self.environment, 3);
            self.ahead.store(turn as u64, Ordering::SeqCst);
            has_come
        } else {
            turn != 1 || waits_until(&self.ahead, 20)
        };
        if !has_come {
            self.has_failed.store(true, Ordering::SeqCst);
        }
    }
}

// A run whose exit keeps an alternate that is lost.
fn run<R: Threads + Wait + Sync, G: Gate + Sync>(
    rt: &R,
    alloc: Global,
    scenario: &Scenario,
    gate: &G,
) -> Result<(World, Vec<Choice>), AllocError> {
    let exit = StatusExit::new(|notice| match notice {
        Notice::TakeoverSeen => ExitAnswer::Abend,
        Notice::AlternateLost => ExitAnswer::Keep,
    });
    live(rt, alloc, scenario, gate, &exit)
}

// What a run comes to.
#[derive(Clone, Copy)]
struct Outcome {
    now: Tick,
    a: JobState,
    b: JobState,
    has_kept: bool,
    // the choices are those of a threaded run, as the judge finds
    is_judged: bool,
}

fn outcome_of(alloc: Global, scenario: &Scenario, world: &World, choices: &[Choice]) -> Outcome {
    Outcome {
        now: world.now(),
        a: world.job(Site::A),
        b: world.job(Site::B),
        has_kept: has_kept(choices),
        is_judged: is_judged(alloc, scenario, choices),
    }
}

fn run_outcome<R: Threads + Wait + Sync, G: Gate + Sync>(
    rt: &R,
    alloc: Global,
    scenario: &Scenario,
    gate: &G,
) -> Result<Outcome, AllocError> {
    let (world, choices) = run(rt, alloc, scenario, gate)?;
    Ok(outcome_of(alloc, scenario, &world, choices.as_slice()))
}

// the choices are those of a threaded run, as the judge finds
fn is_judged(alloc: Global, scenario: &Scenario, choices: &[Choice]) -> bool {
    match is_threaded_run(alloc, scenario, choices) {
        Ok(is) => is,
        Err(_) => false,
    }
}

fn has_kept(choices: &[Choice]) -> bool {
    for choice in choices {
        if let Choice::Exit(Site::A, ExitAnswer::Keep) = choice {
            return true;
        }
    }
    false
}

#[test]
fn the_first_turns_of_both_sites_meet(rt: HostRuntime) -> Result<(), Fail> {
    let (scenario, _) = read(rt.alloc(), TAKEOVER)?;
    let gate = Meeting {
        a: AtomicBool::new(false),
        b: AtomicBool::new(false),
        has_failed: AtomicBool::new(false),
    };
    let came = run_outcome(&rt, rt.alloc(), &scenario, &gate)?;
    assert!(rt; !gate.has_failed.load(Ordering::SeqCst));
    assert_eq!(rt; came.now, 10);
    assert_eq!(rt; came.b, JobState::Active(2));
    assert!(rt; came.is_judged);
    Ok(())
}

#[test]
fn the_site_that_the_gate_lets_through_first_is_the_owner(rt: HostRuntime) -> Result<(), Fail> {
    let (scenario, _) = read(rt.alloc(), BOTH)?;
    let gate = Order::new(Actor::SiteA);
    let came = run_outcome(&rt, rt.alloc(), &scenario, &gate)?;
    assert!(rt; !gate.has_failed.load(Ordering::SeqCst));
    assert_eq!(rt; came.a, JobState::Active(1));
    assert_eq!(rt; came.b, JobState::Absent);
    assert!(rt; came.is_judged);
    let gate = Order::new(Actor::SiteB);
    let came = run_outcome(&rt, rt.alloc(), &scenario, &gate)?;
    assert!(rt; !gate.has_failed.load(Ordering::SeqCst));
    assert_eq!(rt; came.a, JobState::Absent);
    assert_eq!(rt; came.b, JobState::Active(1));
    assert!(rt; came.is_judged);
    Ok(())
}

#[test]
fn a_hundred_runs_are_threaded_runs(rt: HostRuntime) -> Result<(), Fail> {
    let (scenario, _) = read(rt.alloc(), TAKEOVER)?;
    for number in 0..100u32 {
        let came = run_outcome(&rt, rt.alloc(), &scenario, &OpenGate)?;
        assert!(rt; came.is_judged, "run {number}");
        assert_eq!(rt; came.now, 10, "run {number}");
        assert_eq!(rt; came.a, JobState::Absent, "run {number}");
        assert_eq!(rt; came.b, JobState::Active(2), "run {number}");
    }
    Ok(())
}

#[test]
fn thirty_two_runs_at_once(rt: HostRuntime) -> Result<(), Fail> {
    let (scenario, _) = read(rt.alloc(), TAKEOVER)?;
    let alloc = rt.alloc();
    let are = thread::map_indices(
        &rt,
        alloc,
        32,
        &|_number| match run_outcome(&rt, alloc, &scenario, &OpenGate) {
            Ok(came) => came.is_judged,
            Err(_) => false,
        },
    )?;
    for is in are.iter() {
        assert!(rt; *is);
    }
    Ok(())
}

#[test]
fn the_exit_answers_the_loss_of_the_alternate(rt: HostRuntime) -> Result<(), Fail> {
    let (scenario, _) = read(rt.alloc(), LOSS)?;
    let came = run_outcome(&rt, rt.alloc(), &scenario, &OpenGate)?;
    assert!(rt; came.has_kept);
    assert!(rt; came.is_judged);
    Ok(())
}

#[test]
fn a_run_of_the_longest_ticks(rt: HostRuntime) -> Result<(), Fail> {
    let (scenario, _) = read(rt.alloc(), LONG)?;
    let came = run_outcome(&rt, rt.alloc(), &scenario, &OpenGate)?;
    assert_eq!(rt; came.now, 200);
    assert!(rt; came.is_judged);
    Ok(())
}

// The turns of a run, made one after the other.
fn make_turns<N: RunName, R: Abort, F: Fn(Notice) -> ExitAnswer>(
    rt: &R,
    shared: &mut Shared<N>,
    exit: &StatusExit<F>,
)
    requires callable { F.IsAlwaysCallable exit.now.closure }
    requires allowed { AnswersAllowed (F.post exit.now.closure) }
    requires may { UponLoss (F.post exit.now.closure) N.may }
{
    assert_eq!(rt; shared.site_turn(Site::A, exit), Turn::Nothing);
    assert_eq!(rt; shared.environment_turn(), Turn::Applied);
    assert_eq!(rt; shared.environment_turn(), Turn::Nothing);
    for _ in 0..PACE_MOST {
        if shared.site_turn(Site::A, exit) == Turn::Nothing {
            break;
        }
    }
    assert_eq!(rt; shared.site_turn(Site::A, exit), Turn::Nothing);
    assert_eq!(rt; shared.site_turn(Site::B, exit), Turn::Nothing);
    assert_eq!(rt; shared.environment_turn(), Turn::Applied);
    assert_eq!(rt; shared.world().now(), 1);
    assert_eq!(rt; shared.environment_turn(), Turn::Dropped);
    assert_eq!(rt; shared.environment_turn(), Turn::Nothing);
    assert_eq!(rt; shared.site_turn(Site::A, exit), Turn::Applied);
    shared.finish_alone(exit);
    assert_eq!(rt; shared.world().now(), 10);
    assert_eq!(rt; shared.environment_turn(), Turn::Nothing);
}

// a run that is made by turns, whose choices the judge finds to be a threaded run
fn by_turns<N: RunName, R: Abort>(
    rt: &R,
    alloc: Global,
    scenario: &Scenario,
) -> Result<bool, AllocError>
    requires scenario { N.scenario ≡ scenario.now }
    requires keep { N.may Keep }
{
    let exit = StatusExit::new(|notice| match notice {
        Notice::TakeoverSeen => ExitAnswer::Abend,
        Notice::AlternateLost => ExitAnswer::Keep,
    });
    let mut shared = Shared::<N>::new(alloc, scenario)?;
    make_turns(rt, &mut shared, &exit);
    Ok(is_judged(alloc, scenario, shared.choices()))
}

#[test]
fn turns_by_hand(rt: HostRuntime) -> Result<(), Fail> {
    let (scenario, _) = read(rt.alloc(), REFUSED)?;
    assert!(rt; by_turns::<Brand, _>(&rt, rt.alloc(), &scenario)?);
    Ok(())
}

#[test]
fn the_judge_finds_what_breaks_a_rule(rt: HostRuntime) -> Result<(), Fail> {
    let table: [(&[u8], bool); 11] = [
        (b"XRF 1\nTICKS 0\nCHOICES\nEND\n", true),
        (b"XRF 1\nTICKS 1\nCHOICES\nTICK\nEND\n", true),
        // it has not ended
        (b"XRF 1\nTICKS 1\nCHOICES\nEND\n", false),
        (
            b"XRF 1\nTICKS 0\nPLAN 0 START A ACTIVE\nCHOICES\nSTART A ACTIVE\nEND\n",
            false,
        ),
        // a tick behind the last
        (b"XRF 1\nTICKS 0\nCHOICES\nTICK\nEND\n", false),
        // a line of the plan is left out, or another one made
        (
            b"XRF 1\nTICKS 1\nPLAN 0 START A ACTIVE\nCHOICES\nTICK\nEND\n",
            false,
        ),
        (
            b"XRF 1\nTICKS 1\nPLAN 0 START A ACTIVE\nCHOICES\nSTART B ACTIVE\nEND\n",
            false,
        ),
        (
            b"XRF 1\nTICKS 1\nPLAN 1 START A ACTIVE\nCHOICES\nSTART A ACTIVE\nEND\n",
            false,
        ),
        // a line that is refused is passed
        (
            b"XRF 1\nTICKS 1\nPLAN 0 ABEND A\nCHOICES\nTICK\nEND\n",
            true,
        ),
        // a site still has a step to make
        (
            b"XRF 1\nTICKS 1\nPLAN 0 START A ACTIVE\nCHOICES\nSTART A ACTIVE\nTICK\nEND\n",
            false,
        ),
        // more steps than PACE
        (
            b"XRF 1\nPACE 10\nTICKS 1\nPLAN 0 START B ACTIVE\nCHOICES\nSTART B ACTIVE\nSTEP B 11\nEND\n",
            false,
        ),
    ];
    for (text, want) in table {
        let (scenario, numbered) = read(rt.alloc(), text)?;
        let mut choices = Vec::new(rt.alloc());
        for line in numbered.iter() {
            choices.push(line.choice)?;
        }
        assert_eq!(rt; is_judged(rt.alloc(), &scenario, choices.as_slice()), want);
    }
    Ok(())
}
