//! STOP: a region stops, inside its next write or without an act.

ghost use Rattle.std.specs.Prelude.{◌≡◌, List, Ok};
ghost use Rattle.xrf_setup.specs.declared.choice.Choice.TheVariants as choice;
ghost use Rattle.xrf_trace.specs.declared.entry.Entry.{Entry as Made};
ghost use Rattle.xrf_world.specs.Making.{MakesAt, IsStopped, cut_of_want};
ghost use Rattle.xrf_world.specs.Standing.{StandsAt, Goes};

use crate::making::{inc_of_want, who_at};
use crate::middle::Middle;
use crate::place::Place;
use crate::refused::stop_refused;
use crate::wants::{act_of_want, is_write};
use xrf_base::Site;
use xrf_history::Want;
use xrf_setup::Landing;
use xrf_trace::{Act, Entry, Land, Refused};

fn cut_of_want(want: &Want) -> Act
    ensures { result ≡ cut_of_want want.now }
{
    if is_write(want) {
        act_of_want(want)
    } else {
        Act::NoAct
    }
}

// the job is gone, and of its write this lands
fn cut_off(middle: &mut Middle, place: &mut Place, site: Site, want: &Want, cut: &Landing)
    requires { (t : List Made) × StandsAt middle.old place.old t site × IsStopped middle.old.scenario t site want.now cut.now }
    ensures { (t : List Made) → StandsAt middle.old place.old t site → IsStopped middle.old.scenario t site want.now cut.now
        → MakesAt middle.old place.old t site (choice.Stop site cut.now) (Ok tt) middle.new place.new }
{
    let entry = Entry {
        tick: middle.counts.tick,
        who: who_at(site),
        inc: inc_of_want(want, place.seat.inc()),
        act: cut_of_want(want),
        land: Land::Stop(*cut),
    };
    place.seat.vacate();
    middle.follow(&entry);
    place.kept.follow(&entry, None);
}

/// STOP.
pub(crate) fn stop(
    middle: &mut Middle,
    place: &mut Place,
    site: Site,
    cut: &Landing,
) -> Result<(), Refused>
    requires { (t : List Made) × StandsAt middle.old place.old t site × Goes middle.old.scenario t }
    ensures { (t : List Made) → StandsAt middle.old place.old t site → Goes middle.old.scenario t
        → MakesAt middle.old place.old t site (choice.Stop site cut.now) result middle.new place.new }
{
    let want = place.seat.job.want();
    match stop_refused(cut, place.seat.has_job(), &want) {
        Some(reason) => Err(reason),
        None => {
            cut_off(middle, place, site, &want, cut);
            Ok(())
        }
    }
}
