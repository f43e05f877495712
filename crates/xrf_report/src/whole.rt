//! The document and the report as a whole.

ghost use Rattle.std.specs.Prelude.{◌≡◌, ◌<◌, length, Ok, IfOk};
ghost use Rattle.xrf_report.specs.Document.{doc, ReadsAgain};
ghost use Rattle.xrf_report.specs.Report as told;
ghost use Rattle.xrf_scenario.specs.Canonical.{AreChoices};
ghost use Rattle.xrf_setup.specs.declared.ranges.TheConstants.{INPUT_MOST};
ghost use Rattle.xrf_trace.specs.Runs.{run};

use crate::reporting::put_report;
use std::alloc::{AllocError, Global};
use xrf_scenario::put_canonical;
use xrf_setup::{Choice, Scenario};
use xrf_world::World;

/// How many bytes an entry and its choice have mostly, for the memory that is asked for at first.
const MOSTLY: usize = 64;

/// The document of a scenario and the choices that the World has made of it: the canonical text, and the report of
/// their run. It is read again as that scenario and those choices, and has fewer bytes than an input may have.
pub fn document(
    alloc: Global,
    scenario: &Scenario,
    choices: &[Choice],
    world: &World,
) -> Result<Vec<u8>, AllocError>
    requires scenario { world.now.scenario ≡ scenario.now }
    requires run { run scenario.now choices.now ≡ Ok world.now.trace }
    requires choices { AreChoices choices.now }
    ensures document { IfOk result (λ text. text.items ≡ doc scenario.now choices.now) }
    ensures again { IfOk result (λ text. ReadsAgain scenario.now choices.now text.items) }
    ensures size { IfOk result (λ text. length text.items < INPUT_MOST) }
{
    let mut out = Vec::with_capacity(alloc, MOSTLY * choices.len())?;
    put_canonical(&mut out, scenario, choices)?;
    put_report(alloc, &mut out, scenario, world)?;
    Ok(out)
}

/// The report of the run that the World has made of a scenario.
pub fn report(alloc: Global, scenario: &Scenario, world: &World) -> Result<Vec<u8>, AllocError>
    requires { world.now.scenario ≡ scenario.now }
    ensures { IfOk result (λ text. text.items ≡ told.report scenario.now world.now.trace) }
{
    let mut out = Vec::with_capacity(alloc, MOSTLY * world.journal().len())?;
    put_report(alloc, &mut out, scenario, world)?;
    Ok(out)
}
