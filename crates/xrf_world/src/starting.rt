//! START: a job is started at a site.

ghost use Rattle.std.specs.Prelude.{[], ◌∷◌, List, Some, Ok};
ghost use Rattle.xrf_history.specs.Events.{Event};
ghost use Rattle.xrf_setup.specs.declared.choice.Choice.{Choice as Chosen};
ghost use Rattle.xrf_setup.specs.declared.choice.Choice.TheVariants as choice;
ghost use Rattle.xrf_trace.specs.declared.entry.Entry.{Entry as Made};
ghost use Rattle.xrf_trace.specs.Scenario.{settings};
ghost use Rattle.xrf_world.specs.Making.{MakesAt, IsStarted};
ghost use Rattle.xrf_world.specs.Places.{KeptIs};
ghost use Rattle.xrf_world.specs.Seats.{SeatIs};
ghost use Rattle.xrf_world.specs.Standing.{StandsAt, MiddleIs, Goes};

use crate::making::who_at;
use crate::middle::Middle;
use crate::place::Place;
use xrf_base::Site;
use xrf_trace::{Act, Entry, Land, Refused};

// a job that was started at a site, by an act: its entry is added
fn add_start(middle: &mut Middle, place: &mut Place, site: Site, act: Act)
    requires { (t : List Made) × (made : Event) × (c : Chosen) × IsStarted middle.old.scenario t site act made c × MiddleIs middle.old t
        × KeptIs place.old.kept middle.old.scenario t site }
    ensures { (t : List Made) (made : Event) (c : Chosen) → IsStarted middle.old.scenario t site act made c → MiddleIs middle.old t
        → KeptIs place.old.kept middle.old.scenario t site → SeatIs place.old.seat (settings middle.old.scenario site) (Some (made ∷ []))
        → MakesAt middle.old place.old t site c (Ok tt) middle.new place.new }
{
    let entry = Entry {
        tick: middle.counts.tick,
        who: who_at(site),
        inc: 0,
        act,
        land: Land::Full,
    };
    middle.follow(&entry);
    place.kept.follow(&entry, None);
}

/// START ACTIVE.
pub(crate) fn start_active(
    middle: &mut Middle,
    place: &mut Place,
    site: Site,
) -> Result<(), Refused>
    requires { (t : List Made) × StandsAt middle.old place.old t site × Goes middle.old.scenario t }
    ensures { (t : List Made) → StandsAt middle.old place.old t site → Goes middle.old.scenario t
        → MakesAt middle.old place.old t site (choice.StartActive site) result middle.new place.new }
{
    if place.seat.has_job() {
        return Err(Refused::NotEnabled);
    }
    place.seat.start_active();
    add_start(middle, place, site, Act::StartActive);
    Ok(())
}

/// START STANDBY.
pub(crate) fn start_standby(
    middle: &mut Middle,
    place: &mut Place,
    site: Site,
) -> Result<(), Refused>
    requires { (t : List Made) × StandsAt middle.old place.old t site × Goes middle.old.scenario t }
    ensures { (t : List Made) → StandsAt middle.old place.old t site → Goes middle.old.scenario t
        → MakesAt middle.old place.old t site (choice.StartStandby site) result middle.new place.new }
{
    if place.seat.has_job() {
        return Err(Refused::NotEnabled);
    }
    place.seat.start_standby();
    add_start(middle, place, site, Act::StartStandby);
    Ok(())
}
