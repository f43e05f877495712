//! A caller that owns a World.

ghost use Rattle.std.specs.Prelude.{◌≡◌, ◌∷◌, [], IfOk, List, reverse};
ghost use Rattle.xrf_embed.specs.Becoming.{Becomes, IsUpdateBy};
ghost use Rattle.xrf_trace.specs.declared.entry.Entry.{Entry as Added};
ghost use Rattle.xrf_trace.specs.Safe.{Safe};
ghost use Rattle.xrf_trace.specs.Throughs.{is_update};

use std::alloc::{AllocError, Global};
use std::marker::Model;
use xrf_base::Inc;
use xrf_setup::ranges::CHOICES_MOST;
use xrf_setup::{Choice, Scenario};
use xrf_trace::{Act, Entry};
use xrf_world::World;

/// Why a choice was not made. Nothing has changed.
#[derive(Clone, Copy, Debug, PartialEq, Eq)]
pub enum NotMade {
    /// It may not come here.
    Refused(xrf_trace::Refused),
    /// The run has as many entries as a run may have.
    Full,
}

/// A model of a pair beside a system of the caller's own. Contracts see the scenario and the trace (`Run`).
#[derive(Drop)]
pub struct Caller {
    world: World,
}

impl Model for Caller {
    ghost use Rattle.xrf_world.specs.Runs.{Run};

    ghost Value = { Run };

    ghost view = { λ c. c.world };
}

// the act writes the messages, the log, a keypoint or the file
fn is_update(act: &Act) -> bool
    ensures { result ≡ is_update act.now }
{
    matches!(
        act,
        Act::MsgClose(_)
            | Act::MsgBody(_, _)
            | Act::MsgOpen(_, _)
            | Act::LogClose(_)
            | Act::LogBody(_, _)
            | Act::LogOpen(_, _)
            | Act::KpClose(_)
            | Act::KpBody(_, _)
            | Act::KpOpen(_, _)
            | Act::FileWrite(_, _, _)
            | Act::Undo(_, _)
    )
}

impl Caller {
    /// Before the first choice. It takes all memory of a run.
    pub fn new(alloc: Global, scenario: &Scenario) -> Result<Caller, AllocError>
        ensures { IfOk result (λ caller. caller ≡ record { scenario = scenario.now; trace = [] }) }
    {
        let world = World::new(alloc, scenario)?;
        Ok(Caller { world })
    }

    // the incarnation of the newest act, where it is an update
    #[tactic(auto, using(crate::proofs::CallerLaws::newest, crate::proofs::CallerLaws::is_safe, crate::proofs::CallerLaws::is_owners))]
    fn updater(&self) -> Option<Inc>
        ensures { (e : Added) (t : List Added) → self.now.trace ≡ e ∷ t → IsUpdateBy t e result }
    {
        let entry = self.world.journal().last()?;
        if is_update(&entry.act) {
            Some(entry.inc)
        } else {
            None
        }
    }

    /// Makes a choice, and tells the incarnation that has updated by it, where it was an update: that of the running
    /// owner. The run stays safe.
    #[tactic(auto, using(crate::proofs::CallerLaws::is_safe, crate::proofs::CallerLaws::is_made))]
    pub fn make(&mut self, choice: &Choice) -> Result<Option<Inc>, NotMade>
        ensures becomes { Becomes self.old choice.now result self.new }
        ensures safe { Safe self.new.scenario self.new.trace }
    {
        if self.world.journal().len() >= CHOICES_MOST {
            return Err(NotMade::Full);
        }
        match self.world.apply(choice) {
            Ok(()) => Ok(self.updater()),
            Err(reason) => Err(NotMade::Refused(reason)),
        }
    }

    /// The journal, the oldest entry first.
    pub fn journal(&self) -> &[Entry]
        ensures { result.now ≡ reverse self.now.trace }
    {
        self.world.journal()
    }
}
