//! What is made of an input before anything is written.

ghost use Rattle.std.specs.Prelude.{◌≡◌, ◌≤◌, [], IfOk, OnOk, length, ◌<◌, Some, slice_get, List, ℕ};
ghost use Rattle.xrf.specs.Made.{IsMade};
ghost use Rattle.xrf_scenario.specs.declared.numbered.Numbered.{Numbered};
ghost use Rattle.xrf.specs.declared.made.Made.TheVariants.{Refusal};
ghost use Rattle.xrf.specs.declared.refusal.Reason.TheVariants.{Choosing};
ghost use Rattle.xrf.specs.Refusals.{plain};
ghost use Rattle.xrf_scenario.specs.Canonical.{AreChoices};
ghost use Rattle.xrf_scenario.specs.Reading.{Reads};
ghost use Rattle.xrf_trace.specs.Scenario.{IsScen};

use crate::refusal::Reason;
use crate::running::{Stop, make_all};
use std::alloc::{AllocError, Global};
use xrf_report::document;
use xrf_scenario::{Choice, Numbered, ReadBad, Scenario, read};
use xrf_setup::ranges::INPUT_MOST;
use xrf_world::World;

/// What is made of an input.
#[derive(Drop)]
pub enum Made {
    /// The document.
    Document(Vec<u8>),
    /// The number of the line that is refused, and why.
    Refusal(u32, Reason),
    NoMemory,
}

fn plain(alloc: Global, numbered: &[Numbered]) -> Result<Vec<Choice>, AllocError>
    ensures { IfOk result (λ choices. choices.items ≡ plain numbered.now) }
{
    let mut choices = Vec::with_capacity(alloc, numbered.len())?;
    for one in numbered {
        choices.push(one.choice)?;
    }
    Ok(choices)
}

// the refusal of the choice at which a run stops
fn stopped(numbered: &[Numbered], stop: Stop) -> Made
    requires { stop.place < length numbered.now }
    ensures { (n : Numbered) × (slice_get numbered.now stop.place ≡ Some n) × (result ≡ Refusal n.line (Choosing stop.reason)) }
{
    Made::Refusal(numbered[stop.place].line, Reason::Choosing(stop.reason))
}

// the document of the choices that a World makes, or the refusal of one of them
fn made_in(
    alloc: Global,
    scenario: &Scenario,
    numbered: &[Numbered],
    choices: &[Choice],
    world: &mut World,
) -> Result<Made, AllocError>
    requires scenario { IsScen scenario.now }
    requires fresh { world.old ≡ record { scenario = scenario.now; trace = [] } }
    requires plain { choices.now ≡ plain numbered.now }
    requires choices { AreChoices (plain numbered.now) }
    ensures { (bytes : List ℕ) → length bytes ≤ INPUT_MOST → Reads bytes scenario.now numbered.now → IfOk result (IsMade bytes) }
{
    match make_all(world, choices) {
        Ok(()) => Ok(Made::Document(document(alloc, scenario, choices, world)?)),
        Err(stop) => Ok(stopped(numbered, stop)),
    }
}

// the document of a scenario and its choices, or the refusal of one of them
fn ran(alloc: Global, scenario: &Scenario, numbered: &[Numbered]) -> Result<Made, AllocError>
    requires choices { AreChoices (plain numbered.now) }
    ensures { (bytes : List ℕ) → length bytes ≤ INPUT_MOST → Reads bytes scenario.now numbered.now → IfOk result (IsMade bytes) }
{
    let choices = plain(alloc, numbered)?;
    let mut world = World::new(alloc, scenario)?;
    made_in(alloc, scenario, numbered, &choices, &mut world)
}

fn made_of_text(alloc: Global, text: &[u8]) -> Result<Made, AllocError>
    requires { length text.now ≤ INPUT_MOST }
    ensures { IfOk result (IsMade text.now) }
{
    match read(alloc, text) {
        Ok((scenario, numbered)) => ran(alloc, &scenario, &numbered),
        Err(ReadBad::Bad { line, reason }) => Ok(Made::Refusal(line, Reason::Grammar(reason))),
        Err(ReadBad::NoMemory) => Ok(Made::NoMemory),
    }
}

/// What is made of an input of at most 4,194,304 bytes.
pub fn made_of(alloc: Global, text: &[u8]) -> Made
    requires { length text.now ≤ INPUT_MOST }
    ensures { IsMade text.now result }
{
    match made_of_text(alloc, text) {
        Ok(made) => made,
        Err(_) => Made::NoMemory,
    }
}
