//! The refusal of a choice, found without a change.

ghost use Rattle.std.specs.Prelude.{◌≡◌, List, Some};
ghost use Rattle.xrf_trace.specs.declared.entry.Entry.{Entry as Made};
ghost use Rattle.xrf_base.specs.declared.site.Site.{Site as Of};
ghost use Rattle.xrf_trace.specs.Jobs.{hist};
ghost use Rattle.xrf_trace.specs.Refusals.{refusal};
ghost use Rattle.xrf_trace.specs.Words.{reserve_is_free};
ghost use Rattle.xrf_world.specs.Making.{site_of};
ghost use Rattle.xrf_world.specs.Seats.{FewEvents};
ghost use Rattle.xrf_world.specs.Standing.{StandsAt, Stands};
ghost use Rattle.xrf_world.specs.Wants.{wanted};

use crate::choosing::site_of;
use crate::middle::Middle;
use crate::pair::Pair;
use crate::place::Place;
use crate::refused::{exit_refused, fail_refused, stop_refused, unless};
use crate::wants::{is_signal, may_make};
use xrf_base::Site;
use xrf_setup::Choice;
use xrf_trace::Refused;

// the refusal of a choice that goes by what is wanted of a site, and of another of a site
fn refused_at(
    middle: &Middle,
    place: &Place,
    site: Site,
    choice: &Choice,
    is_free: bool,
) -> Option<Refused>
    requires { (t : List Made) × StandsAt middle.now place.now t site × FewEvents (hist middle.now.scenario t site) }
    ensures { (t : List Made) → StandsAt middle.now place.now t site → is_free ≡ reserve_is_free t → site_of choice.now ≡ Some site
        → result ≡ refusal middle.now.scenario t choice.now }
{
    let seat = &place.seat;
    let want = seat.job.want();
    match choice {
        Choice::Step(_) => unless(
            may_make(is_free, place.has_left(&middle.scenario, site), &want),
            Refused::NotEnabled,
        ),
        Choice::Lose(_) => unless(is_signal(&want), Refused::NotEnabled),
        Choice::Stop(_, cut) => stop_refused(cut, seat.has_job(), &want),
        Choice::Fail(_, cut) => fail_refused(cut, &want),
        Choice::StartActive(_) => unless(!seat.has_job(), Refused::NotEnabled),
        Choice::StartStandby(_) => unless(!seat.has_job(), Refused::NotEnabled),
        Choice::Abend(_) => unless(seat.may_abend(), Refused::NotEnabled),
        Choice::Reply(_, _) => unless(seat.may_reply(), Refused::NotEnabled),
        Choice::Cebt(_, _) => unless(seat.may_command(), Refused::NotEnabled),
        Choice::Exit(_, said) => exit_refused(seat.notice(), *said),
        Choice::Tick => None,
        Choice::Confirm(_) => None,
    }
}

impl Pair {
    /// Why a choice is refused, none where it is not.
    pub(crate) fn refused(&self, choice: &Choice) -> Option<Refused>
        requires { (t : List Made) × Stands self.now t × ((x : Of) → FewEvents (hist self.now.middle.scenario t x)) }
        ensures { (t : List Made) → Stands self.now t → result ≡ refusal self.now.middle.scenario t choice.now }
    {
        match choice {
            Choice::Tick => None,
            Choice::Confirm(number) => unless(self.may_confirm(*number), Refused::Dishonest),
            other => match site_of(other) {
                Some(site) => refused_at(
                    &self.middle,
                    self.place(site),
                    site,
                    other,
                    self.is_reserve_free(),
                ),
                None => None,
            },
        }
    }
}
