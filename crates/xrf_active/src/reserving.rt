//! What an owner does under the reserve.

ghost use Rattle.std.specs.Prelude.{◌≡◌, ℕ, ◌<◌, ◌∷◌, List, Some, None, true, false};
ghost use Rattle.xrf_history.specs.Events.{Event, Reserved, ControlRead, ControlWritten, Released, EndedAs};
ghost use Rattle.xrf_job.specs.declared.stage.Stage.{Stage as At};
ghost use Rattle.xrf_active.specs.Standing.{Stands};

use crate::active::Active;
use xrf_base::Inc;
use xrf_cavm::Known;
use xrf_ctl::Control;
use xrf_exit::Notice;
use xrf_history::EndWhy;
use xrf_job::Purpose;

impl Active {
    /// The control data set is reserved.
    pub(crate) fn reserved(&mut self)
        ensures settings { self.new.settings ≡ self.old.settings }
        ensures stands { (h : List Event) → Stands self.old h → Stands self.new (Reserved ∷ h) }
    {
        let purpose = if self.common.inc == 0 {
            Purpose::SignOnActive
        } else {
            match self.sign_off {
                Some(state) => Purpose::SignOff(state),
                None => Purpose::DropAlternate,
            }
        };
        self.common.reserved(purpose);
        self.must_drop = false;
    }

    /// The control record is read.
    pub(crate) fn control_read(&mut self, held: &Control, known: Known)
        requires { held.now.last < 4294967295 }
        ensures settings { self.new.settings ≡ self.old.settings }
        ensures stands { (h : List Event) → Stands self.old h → Stands self.new (ControlRead held.now known ∷ h) }
    {
        let epoch = match self.sending {
            Some(sending) => sending.writer.epoch,
            None => 0,
        };
        self.common.control_read(&self.settings, held, known, epoch);
    }

    /// The control record is written.
    pub(crate) fn control_written(&mut self, written: &Control)
        ensures settings { self.new.settings ≡ self.old.settings }
        ensures stands { (h : List Event) → Stands self.old h → self.old.common.stage ≡ At.CtlWrite written.now → Stands self.new (ControlWritten written.now ∷ h) }
    {
        self.common.control_written(written);
    }

    /// The control data set is released. A drop that read a taking tells of it, and another ends the
    /// epoch.
    pub(crate) fn released(&mut self)
        requires { (h : List Event) × Stands self.old h }
        ensures settings { self.new.settings ≡ self.old.settings }
        ensures stands { (h : List Event) → Stands self.old h → Stands self.new (Released ∷ h) }
    {
        if let Purpose::DropAlternate = self.common.purpose {
            if self.common.read.taking().is_some() {
                self.notice = Some(Notice::TakeoverSeen);
            } else {
                self.sending = None;
            }
        }
        self.common.released(&self.settings);
    }

    /// It has ended.
    pub(crate) fn ended(&mut self, why: EndWhy)
        ensures settings { self.new.settings ≡ self.old.settings }
        ensures stands { (h : List Event) → Stands self.old h → Stands self.new (EndedAs why ∷ h) }
    {
        self.common.ended(why);
    }
}
