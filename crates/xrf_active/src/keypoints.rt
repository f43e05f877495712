//! The keypoints of an owner.

ghost use Rattle.std.specs.Prelude.{◌≡◌, ◌<◌, ◌∷◌, List, true, length};
ghost use Rattle.xrf_history.specs.Events.{Event, KeyLooked, KeyClosed, KeyBodied, KeyOpened};
ghost use Rattle.xrf_history.specs.Holding.{is_granted, is_restarted};
ghost use Rattle.xrf_history.specs.Working.{next_keypoint};
ghost use Rattle.xrf_active.specs.Standing.{Stands};

use crate::active::Active;
use xrf_gated::OPEN;
use xrf_job::Stage;
use xrf_logrec::Keypoint;

impl Active {
    /// It looked at the gate of a keypoint slot.
    pub(crate) fn key_looked(&mut self, place: u8, keypoint: Keypoint, gate: u8)
        ensures settings { self.new.settings ≡ self.old.settings }
        ensures stands { (h : List Event) → Stands self.old h → is_restarted h ≡ true → keypoint ≡ next_keypoint self.old.settings h → is_granted h ≡ true → Stands self.new (KeyLooked place gate ∷ h) }
    {
        self.common.stage = if gate == OPEN {
            Stage::KpClose(place, keypoint)
        } else {
            Stage::KpBody(place, keypoint)
        };
    }

    /// It closed the slot.
    pub(crate) fn key_closed(&mut self, place: u8, keypoint: Keypoint)
        ensures settings { self.new.settings ≡ self.old.settings }
        ensures stands { (h : List Event) → Stands self.old h → is_restarted h ≡ true → keypoint ≡ next_keypoint self.old.settings h → is_granted h ≡ true → Stands self.new (KeyClosed place ∷ h) }
    {
        self.common.stage = Stage::KpBody(place, keypoint);
    }

    /// It wrote the keypoint behind the gate.
    pub(crate) fn key_bodied(&mut self, place: u8, keypoint: Keypoint)
        ensures settings { self.new.settings ≡ self.old.settings }
        ensures stands { (h : List Event) → Stands self.old h → is_restarted h ≡ true → keypoint ≡ next_keypoint self.old.settings h → is_granted h ≡ true → Stands self.new (KeyBodied place keypoint ∷ h) }
    {
        self.common.stage = Stage::KpOpen(place, keypoint);
    }

    /// It opened the slot, and so the keypoint is in force.
    #[tactic(auto, using(crate::proofs::Small::small_numbers))]
    pub(crate) fn key_opened(&mut self, place: u8, keypoint: Keypoint)
        requires { (h : List Event) × Stands self.old h × (is_restarted h ≡ true) × (keypoint ≡ next_keypoint self.old.settings h) }
        ensures settings { self.new.settings ≡ self.old.settings }
        ensures stands { (h : List Event) → Stands self.old h → is_restarted h ≡ true → keypoint ≡ next_keypoint self.old.settings h → Stands self.new (KeyOpened place keypoint ∷ h) }
    {
        self.rooms.units.keyed(keypoint.start);
        self.keypoint = keypoint;
        self.common.stage = Stage::Boundary;
    }
}
