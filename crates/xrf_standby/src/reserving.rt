//! What an alternate does under the reserve.

ghost use Rattle.std.specs.Prelude.{◌≡◌, ◌||◌, ◌<◌, ◌∷◌, List, Some, None, false};
ghost use Rattle.xrf_cavm.specs.Record.{is_owner as names_owner};
ghost use Rattle.xrf_history.specs.Events.{Event, Reserved, ControlRead, ControlWritten, Released, EndedAs};
ghost use Rattle.xrf_history.specs.Holding.{number, is_owner};
ghost use Rattle.xrf_history.specs.Reserving.{purpose, purpose_now, abandons, has_abandoned};
ghost use Rattle.xrf_job.specs.declared.stage.Stage.{Stage as At};
ghost use Rattle.xrf_job.specs.Stages.{purpose_of};
ghost use Rattle.xrf_standby.specs.Alternate.{Stands};

use crate::alternate::Alternate;
use xrf_base::Inc;
use xrf_cavm::{Known, start_takeover};
use xrf_ctl::Control;
use xrf_history::EndWhy;
use xrf_job::Purpose;

// the record names this incarnation as its owner
fn names_owner(control: &Control, inc: Inc) -> bool
    ensures { result ≡ names_owner control.now inc }
{
    match control.owner() {
        Some(owner) => owner.inc == inc,
        None => false,
    }
}

impl Alternate {
    // what it reserves the control data set for
    #[tactic(auto, using(xrf_active::proofs::Alternates::started_standby))]
    fn purpose_now(&self) -> Purpose
        ensures { (h : List Event) → Stands self.now h → is_owner h ≡ false → purpose_of result ≡ purpose_now h }
    {
        if self.common.inc == 0 {
            return Purpose::SignOnStandby;
        }
        match self.leaves {
            Some(why) => Purpose::Leave(why),
            None => match self.start_due() {
                Some(cause) => Purpose::StartTakeover(cause),
                None => Purpose::GoThrough,
            },
        }
    }

    /// The control data set is reserved.
    pub(crate) fn reserved(&mut self)
        ensures settings { self.new.settings ≡ self.old.settings }
        ensures stands { (h : List Event) → Stands self.old h → is_owner h ≡ false → Stands self.new (Reserved ∷ h) }
    {
        let purpose = self.purpose_now();
        self.common.reserved(purpose);
        self.open_decision = None;
    }

    // its start is given up by this record, read under the reserve, or was by one before
    fn abandons(&self, held: &Control) -> bool
        ensures { (h : List Event) → Stands self.now h → result ≡ (abandons (purpose h) (number h) held.now || has_abandoned h) }
    {
        match self.common.purpose {
            Purpose::StartTakeover(cause) => {
                start_takeover(held, self.common.inc, cause).is_none() || self.has_abandoned
            }
            _ => self.has_abandoned,
        }
    }

    /// The control record is read.
    pub(crate) fn control_read(&mut self, held: &Control, known: Known)
        requires { held.now.last < 4294967295 }
        ensures settings { self.new.settings ≡ self.old.settings }
        ensures stands { (h : List Event) → Stands self.old h → is_owner h ≡ false → Stands self.new (ControlRead held.now known ∷ h) }
    {
        self.has_abandoned = self.abandons(held);
        self.common.control_read(&self.settings, held, known, 0);
    }

    /// The control record is written: that of a sign-on, of its start, of a leave, or by which it is let
    /// through.
    pub(crate) fn control_written(&mut self, written: &Control)
        ensures settings { self.new.settings ≡ self.old.settings }
        ensures stands { (h : List Event) → Stands self.old h → is_owner h ≡ false → self.old.common.stage ≡ At.CtlWrite written.now → Stands self.new (ControlWritten written.now ∷ h) }
    {
        self.common.control_written(written);
        self.is_through = names_owner(written, self.common.inc);
        self.has_started = self.has_started || (!self.is_through && written.taking().is_some());
        self.is_starting = false;
    }

    /// The control data set is released.
    pub(crate) fn released(&mut self)
        requires { (h : List Event) × Stands self.old h }
        ensures settings { self.new.settings ≡ self.old.settings }
        ensures stands { (h : List Event) → Stands self.old h → is_owner h ≡ false → Stands self.new (Released ∷ h) }
    {
        self.common.released(&self.settings);
    }

    /// It has ended.
    pub(crate) fn ended(&mut self, why: EndWhy)
        ensures settings { self.new.settings ≡ self.old.settings }
        ensures stands { (h : List Event) → Stands self.old h → is_owner h ≡ false → Stands self.new (EndedAs why ∷ h) }
    {
        self.common.ended(why);
    }
}
