//! One turn of the generated run: the choice that a word draws, or what is made in its place.

ghost use Rattle.std.specs.Prelude.{◌≡◌, ◌<◌, ◌≤◌, ◌%◌, Bool, true, false, is_some, length, Some, None, Ok};
ghost use Rattle.xrf_setup.specs.declared.choice.Choice.TheVariants as choice;
ghost use Rattle.xrf_drive.specs.Turns.{choice_or, drawn_choice, exit_answer, exit_at, exit_of_any, exit_or_step, if_enabled, in_its_place, step_at, step_of_any, turn};
ghost use Rattle.xrf_drive.specs.Tries.{Tried};
ghost use Rattle.xrf_trace.specs.Scenario.{other};
ghost use Rattle.xrf_world.specs.Report.{least_confirmable};
ghost use Rattle.xrf_world.specs.Runs.{Applied};

use xrf_base::Site;
use xrf_exit::{ExitAnswer, Notice};
use xrf_setup::ranges::CHOICES_MOST;
use xrf_setup::{Choice, Landing};
use xrf_world::World;

// the choice that a byte draws which draws no STEP
fn drawn(world: &World, byte: u8) -> Option<Choice>
    requires { 240 ≤ byte }
    ensures { result ≡ drawn_choice (least_confirmable world.now.scenario world.now.trace) byte }
{
    match byte {
        244 => Some(Choice::Lose(Site::A)),
        245 => Some(Choice::Lose(Site::B)),
        246 => Some(Choice::Stop(Site::A, Landing::Nothing)),
        247 => Some(Choice::Stop(Site::B, Landing::Nothing)),
        248 => Some(Choice::StartActive(Site::A)),
        249 => Some(Choice::StartStandby(Site::B)),
        250 | 251 => world.least_confirmable().map(Choice::Confirm),
        252 => Some(Choice::StartStandby(Site::A)),
        253 => Some(Choice::StartActive(Site::B)),
        _ => Some(Choice::Tick),
    }
}

// makes a choice where it is enabled
fn make(world: &mut World, choice: &Choice) -> bool
    requires room { length world.old.trace < CHOICES_MOST }
    ensures { Tried world.old (if_enabled world.old.scenario world.old.trace (Some choice.now)) result world.new }
{
    world.apply(choice).is_ok()
}

// makes what is drawn where it is there and enabled
fn make_drawn(world: &mut World, drawn: &Option<Choice>) -> bool
    requires room { length world.old.trace < CHOICES_MOST }
    ensures { Tried world.old (if_enabled world.old.scenario world.old.trace drawn.now) result world.new }
{
    match drawn {
        Some(choice) => make(world, choice),
        None => false,
    }
}

fn exit_answer(notice: Notice) -> ExitAnswer
    ensures { result ≡ exit_answer notice }
{
    match notice {
        Notice::TakeoverSeen => ExitAnswer::Abend,
        Notice::AlternateLost => ExitAnswer::Drop,
    }
}

// EXIT at a site where a notice is pending there
#[inline(always)]
fn exit(world: &mut World, site: Site) -> bool
    requires room { length world.old.trace < CHOICES_MOST }
    ensures { Tried world.old (exit_at world.old.scenario world.old.trace site) result world.new }
{
    match world.notice(site) {
        Some(notice) => {
            world.exit_said(site, exit_answer(notice));
            true
        }
        None => false,
    }
}

fn make_step(world: &mut World, site: Site) -> bool
    requires room { length world.old.trace < CHOICES_MOST }
    ensures { Tried world.old (step_at world.old.scenario world.old.trace site) result world.new }
{
    world.step(site).is_ok()
}

// STEP of a site where it is enabled: none is where no job is there
#[tactic(auto, using(crate::proofs::TurnLaws::without_job))]
fn step(world: &mut World, site: Site) -> bool
    requires room { length world.old.trace < CHOICES_MOST }
    ensures { Tried world.old (step_at world.old.scenario world.old.trace site) result world.new }
{
    if world.has_job(site) {
        make_step(world, site)
    } else {
        false
    }
}

fn tick(world: &mut World)
    requires room { length world.old.trace < CHOICES_MOST }
    ensures { Applied world.old choice.Tick (Ok tt) world.new }
{
    world.tick();
}

// EXIT at the first site where a notice is pending
#[inline(always)]
fn exit_of_any(world: &mut World) -> bool
    requires room { length world.old.trace < CHOICES_MOST }
    ensures { Tried world.old (exit_of_any world.old.scenario world.old.trace) result world.new }
{
    if exit(world, Site::A) {
        return true;
    }
    exit(world, Site::B)
}

// STEP of the first site where it is enabled
fn step_of_any(world: &mut World) -> bool
    requires room { length world.old.trace < CHOICES_MOST }
    ensures { Tried world.old (step_of_any world.old.scenario world.old.trace) result world.new }
{
    if step(world, Site::A) {
        return true;
    }
    step(world, Site::B)
}

// an EXIT, else a STEP
fn exit_or_step(world: &mut World) -> bool
    requires room { length world.old.trace < CHOICES_MOST }
    ensures { Tried world.old (exit_or_step world.old.scenario world.old.trace) result world.new }
{
    if exit_of_any(world) {
        return true;
    }
    step_of_any(world)
}

// an EXIT, else a STEP, else TICK
fn make_in_its_place(world: &mut World)
    requires room { length world.old.trace < CHOICES_MOST }
    ensures { Applied world.old (in_its_place world.old.scenario world.old.trace) (Ok tt) world.new }
{
    if exit_or_step(world) {
        return;
    }
    tick(world);
}

// what is drawn, where it is there and enabled, else what takes its place
fn make_or(world: &mut World, drawn: &Option<Choice>)
    requires room { length world.old.trace < CHOICES_MOST }
    ensures { Applied world.old (choice_or world.old.scenario world.old.trace drawn.now) (Ok tt) world.new }
{
    if make_drawn(world, drawn) {
        return;
    }
    make_in_its_place(world);
}

// what a byte draws which draws no STEP, where it is there and enabled, else what takes its place
fn make_drawn_or(world: &mut World, byte: u8)
    requires room { length world.old.trace < CHOICES_MOST }
    requires no_step { 240 ≤ byte }
    ensures { Applied world.old
        (choice_or world.old.scenario world.old.trace (drawn_choice (least_confirmable world.old.scenario world.old.trace) byte)) (Ok tt) world.new }
{
    let drawn = drawn(world, byte);
    make_or(world, &drawn);
}

// STEP of the site that is not this one, where it is enabled
fn step_of_other(world: &mut World, site: Site) -> bool
    requires room { length world.old.trace < CHOICES_MOST }
    ensures { Tried world.old (step_at world.old.scenario world.old.trace (other site)) result world.new }
{
    match site {
        Site::A => step(world, Site::B),
        Site::B => step(world, Site::A),
    }
}

// STEP of a site that is drawn, where it is enabled, else what takes its place: the STEP that was refused is not asked again
#[inline(always)]
fn step_or(world: &mut World, site: Site)
    requires room { length world.old.trace < CHOICES_MOST }
    ensures { Applied world.old (choice_or world.old.scenario world.old.trace (Some (choice.Step site))) (Ok tt) world.new }
{
    if step(world, site) {
        return;
    }
    if exit_of_any(world) {
        return;
    }
    if step_of_other(world, site) {
        return;
    }
    tick(world);
}

/// Makes the choice that the lowest byte of a word draws, or what takes its place: one entry is added.
pub(crate) fn turn(world: &mut World, word: u32)
    requires room { length world.old.trace < CHOICES_MOST }
    ensures { Applied world.old (turn world.old.scenario world.old.trace word) (Ok tt) world.new }
{
    match (word % 256) as u8 {
        0..=119 => step_or(world, Site::A),
        120..=239 => step_or(world, Site::B),
        byte => make_drawn_or(world, byte),
    }
}
