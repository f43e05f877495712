//! The generated run as a whole.

ghost use Rattle.std.specs.Prelude.{◌≡◌, ◌≤◌, ℕ, [], IfOk};
ghost use Rattle.xrf_drive.specs.Drawn.{IsGenerated};
ghost use Rattle.xrf_drive.specs.Scenario.{generated};
ghost use Rattle.xrf_drive.specs.Tries.{Drives};

use crate::drawing::turn;
use crate::scenario::generated;
use rand_core::utils::NextWord;
use rand_pcg::Lcg64Xsh32;
use std::alloc::{AllocError, Global};
use xrf_setup::ranges::CHOICES_MOST;
use xrf_world::World;

/// The stream of the generator.
pub const STREAM: u64 = 54;

// so many turns from a seed, in a World before its first choice
fn make_turns(world: &mut World, seed: u64, turns: u32)
    requires fresh { world.old.trace ≡ [] }
    requires few { turns ≤ CHOICES_MOST }
    ensures { Drives world.old.scenario seed turns world.new }
{
    let mut generator = Lcg64Xsh32::new(seed, STREAM);
    for _turn in 0..turns {
        let word: u32 = generator.next_word();
        turn(world, word);
    }
}

/// The World behind the generated run of a seed, of at most 8,192 turns.
pub fn drive(alloc: Global, seed: u64, turns: u32) -> Result<World, AllocError>
    requires few { turns ≤ CHOICES_MOST }
    ensures scenario { IfOk result (λ world. world.scenario ≡ generated) }
    ensures run { IfOk result (λ world. IsGenerated seed turns world.trace) }
{
    let scenario = generated(alloc)?;
    let mut world = World::new(alloc, &scenario)?;
    make_turns(&mut world, seed, turns);
    Ok(world)
}
