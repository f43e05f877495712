//! The pair: what both sites share, and what is kept of each.

ghost use Rattle.std.specs.Prelude.{◌≡◌, List, [], IfOk};
ghost use Rattle.xrf_trace.specs.declared.entry.Entry.{Entry as Made};
ghost use Rattle.xrf_world.specs.Places.{PlaceIs};
ghost use Rattle.xrf_world.specs.Standing.{Stands};

use crate::counts::Counts;
use crate::middle::Middle;
use crate::place::Place;
use std::alloc::{AllocError, Global};
use xrf_base::Site;
use xrf_devices::DataSets;
use xrf_setup::Scenario;
use xrf_setup::ranges::CHOICES_MOST;

/// A pair at work. It stands for a trace of its scenario (`Stands` of the specs).
#[derive(Drop)]
pub(crate) struct Pair {
    pub(crate) middle: Middle,
    pub(crate) a: Place,
    pub(crate) b: Place,
}

impl Pair {
    /// Before the first choice, in memory of its own.
    pub(crate) fn new(alloc: Global, scenario: &Scenario) -> Result<Pair, AllocError>
        ensures stands { IfOk result (λ pair. Stands pair []) }
        ensures scenario { IfOk result (λ pair. pair.middle.scenario ≡ scenario.now) }
    {
        let journal = Vec::with_capacity(alloc, CHOICES_MOST)?;
        let data_sets = DataSets::new(alloc, scenario)?;
        let counts = Counts::new(alloc, scenario)?;
        let a = Place::new(alloc, scenario, Site::A)?;
        let b = Place::new(alloc, scenario, Site::B)?;
        let scenario = scenario.copy()?;
        let block = Box::new(alloc, [0; 4096])?;
        let middle = Middle {
            scenario,
            data_sets,
            counts,
            journal,
            block,
        };
        Ok(Pair { middle, a, b })
    }

    /// What is kept of a site.
    pub(crate) fn place(&self, site: Site) -> &Place
        ensures { (t : List Made) → Stands self.now t → PlaceIs result.now self.now.middle.scenario t site }
    {
        match site {
            Site::A => &self.a,
            Site::B => &self.b,
        }
    }
}
