//! What is kept of a site: its seat, whether it holds the reserve, and the items that it took.

ghost use Rattle.std.specs.Prelude.{◌≡◌, ◌&&◌, not, List, [], ◌∷◌, IfOk};
ghost use Rattle.xrf_base.specs.declared.site.Site.{Site as Of};
ghost use Rattle.xrf_trace.specs.declared.entry.Entry.{Entry as Made};
ghost use Rattle.xrf_trace.specs.Landing.{is_stop};
ghost use Rattle.xrf_trace.specs.Scenario.{Scen};
ghost use Rattle.xrf_trace.specs.Words.{holds_after};
ghost use Rattle.xrf_world.specs.Places.{KeptIs, PlaceIs, CanTake};
ghost use Rattle.xrf_world.specs.Wants.{is_item_left};

use crate::items::Items;
use crate::seat::Seat;
use crate::settings::settings_of;
use std::alloc::{AllocError, Global};
use xrf_base::{ItemAnswer, Site};
use xrf_setup::Scenario;
use xrf_trace::{Act, Entry, Land};

/// What is kept of a site beside its seat.
#[derive(Drop)]
pub(crate) struct Kept {
    pub(crate) reserves: bool,
    pub(crate) items: Items,
}

/// What is kept of a site.
#[derive(Drop)]
pub(crate) struct Place {
    pub(crate) seat: Seat,
    pub(crate) kept: Kept,
}

fn reserves_after(act: &Act, land: &Land, before: bool) -> bool
    ensures { result ≡ (not (is_stop land.now) && holds_after act.now before) }
{
    if let Land::Stop(_) = land {
        return false;
    }
    match act {
        Act::Reserve => true,
        Act::Release => false,
        Act::Ended(_) => false,
        _ => before,
    }
}

impl Kept {
    /// After one entry more, of this site, which gave the item taken last this answer.
    pub(crate) fn follow(&mut self, entry: &Entry, given: Option<ItemAnswer>)
        requires { (s : Scen) × (t : List Made) × (x : Of) × KeptIs self.old s t x × CanTake s t x entry.now given }
        ensures { (s : Scen) (t : List Made) (x : Of) → KeptIs self.old s t x → CanTake s t x entry.now given → KeptIs self.new s (entry.now ∷ t) x }
    {
        self.reserves = reserves_after(&entry.act, &entry.land, self.reserves);
        self.items.follow(entry, given);
    }
}

impl Place {
    /// Whether its site has an item left that it has not taken.
    pub(crate) fn has_left(&self, scenario: &Scenario, site: Site) -> bool
        ensures { (t : List Made) → PlaceIs self.now scenario.now t site → result ≡ is_item_left scenario.now t site }
    {
        self.kept.items.answers.len() < scenario.work(site).len()
    }

    /// Before the first choice.
    pub(crate) fn new(alloc: Global, scenario: &Scenario, site: Site) -> Result<Place, AllocError>
        ensures { IfOk result (λ place. PlaceIs place scenario.now [] site) }
    {
        let items = Items::new(alloc, scenario.work(site).len())?;
        let seat = Seat::new(alloc, &settings_of(scenario, site))?;
        Ok(Place {
            seat,
            kept: Kept {
                reserves: false,
                items,
            },
        })
    }
}
