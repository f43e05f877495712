//! Running choices.

ghost use Rattle.std.specs.Prelude.{◌≡◌, ◌≤◌, ◌<◌, [], length, IfErr};
ghost use Rattle.xrf.specs.Made.{RunGives};

use xrf_scenario::Choice;
use xrf_setup::ranges::CHOICES_MOST;
use xrf_trace::Refused;
use xrf_world::World;

/// The choice at which a run stops, by its place from 0, and why.
#[derive(Clone, Copy)]
pub struct Stop {
    pub place: usize,
    pub reason: Refused,
}

/// Makes the choices in their order, up to the first that is refused.
pub fn make_all(world: &mut World, choices: &[Choice]) -> Result<(), Stop>
    requires fresh { world.old.trace ≡ [] }
    requires few { length choices.now ≤ CHOICES_MOST }
    ensures gives { RunGives world.old choices.now result world.new }
    ensures place { IfErr result (λ stop. stop.place < length choices.now) }
{
    for place in 0..choices.len() {
        match world.apply(&choices[place]) {
            Ok(()) => {}
            Err(reason) => return Err(Stop { place, reason }),
        }
    }
    Ok(())
}
