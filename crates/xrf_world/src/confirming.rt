//! Which numbers may be confirmed: those that were given and that no job holds.

ghost use Rattle.std.specs.Prelude.{◌≡◌, ◌≤◌, List};
ghost use Rattle.xrf_trace.specs.declared.entry.Entry.{Entry as Made};
ghost use Rattle.xrf_trace.specs.Devices.{control};
ghost use Rattle.xrf_trace.specs.Jobs.{live};
ghost use Rattle.xrf_trace.specs.Refusals.{may_confirm};
ghost use Rattle.xrf_world.specs.Report.{least_confirmable, may_be_confirmed};
ghost use Rattle.xrf_world.specs.Standing.{Stands};

use crate::pair::Pair;
use xrf_base::Inc;

impl Pair {
    // the number that was given last
    fn last(&self) -> Inc
        requires { (t : List Made) × Stands self.now t }
        ensures { (t : List Made) → Stands self.now t → result ≡ (control t).last }
    {
        self.middle.data_sets.control().last()
    }

    // a job holds a number, which is not 0
    fn is_live(&self, number: Inc) -> bool
        requires { 1 ≤ number }
        ensures { (t : List Made) → Stands self.now t → result ≡ live self.now.middle.scenario t number }
    {
        self.a.seat.holds(number) || self.b.seat.holds(number)
    }

    /// Whether a number may be confirmed: it was given, and no job holds it.
    pub(crate) fn may_confirm(&self, number: Inc) -> bool
        requires { (t : List Made) × Stands self.now t }
        ensures { (t : List Made) → Stands self.now t → result ≡ may_confirm self.now.middle.scenario t number }
    {
        if number == 0 {
            return false;
        }
        if number > self.last() {
            return false;
        }
        !self.is_live(number)
    }

    // a number that was given may be confirmed, and is not yet
    fn may_be_confirmed(&self, number: Inc) -> bool
        requires { 1 ≤ number }
        ensures { (t : List Made) → Stands self.now t → number ≤ (control t).last
            → result ≡ may_be_confirmed self.now.middle.scenario t number }
    {
        !self.middle.counts.is_confirmed(number) && !self.is_live(number)
    }

    /// The least number that may be confirmed and is not yet, none where there is none.
    pub(crate) fn least_confirmable(&self) -> Option<Inc>
        requires { (t : List Made) × Stands self.now t }
        ensures { (t : List Made) → Stands self.now t → result ≡ least_confirmable self.now.middle.scenario t }
    {
        let last = self.last();
        for before in 0..last {
            if self.may_be_confirmed(before + 1) {
                return Some(before + 1);
            }
        }
        None
    }
}
