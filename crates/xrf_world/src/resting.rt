//! Whether a run is finished.

ghost use Rattle.std.specs.Prelude.{◌≡◌, List, length, nat_le};
ghost use Rattle.xrf_base.specs.declared.site.Site.{Site as Of};
ghost use Rattle.xrf_trace.specs.declared.entry.Entry.{Entry as Made};
ghost use Rattle.xrf_trace.specs.Jobs.{hist};
ghost use Rattle.xrf_trace.specs.Words.{now};
ghost use Rattle.xrf_world.specs.Report.{is_at_rest, is_finished};
ghost use Rattle.xrf_world.specs.Seats.{FewEvents};
ghost use Rattle.xrf_world.specs.Standing.{Stands};

use crate::pair::Pair;
use xrf_base::Site;
use xrf_setup::Choice;

impl Pair {
    // a site has no enabled STEP and no pending notice
    fn is_at_rest(&self, site: Site) -> bool
        requires { (t : List Made) × Stands self.now t × ((x : Of) → FewEvents (hist self.now.middle.scenario t x)) }
        ensures { (t : List Made) → Stands self.now t → result ≡ is_at_rest self.now.middle.scenario t site }
    {
        if self.refused(&Choice::Step(site)).is_none() {
            return false;
        }
        self.place(site).seat.notice().is_none()
    }

    // its time is over
    fn is_over(&self) -> bool
        ensures { (t : List Made) → Stands self.now t → result ≡ nat_le self.now.middle.scenario.settings.ticks (now t) }
    {
        self.middle.scenario.ticks() <= self.middle.counts.tick
    }

    /// Whether its run is finished: there is no room for another entry, or its time is over and both sites are at rest.
    pub(crate) fn is_finished(&self) -> bool
        requires { (t : List Made) × Stands self.now t × ((x : Of) → FewEvents (hist self.now.middle.scenario t x)) }
        ensures { (t : List Made) → Stands self.now t → result ≡ is_finished self.now.middle.scenario t }
    {
        if self.middle.is_full() {
            return true;
        }
        if !self.is_over() {
            return false;
        }
        if !self.is_at_rest(Site::A) {
            return false;
        }
        self.is_at_rest(Site::B)
    }
}
