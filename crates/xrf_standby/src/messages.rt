//! The messages that an alternate reads.

ghost use Rattle.std.specs.Prelude.{◌≡◌, ℕ, ◌<◌, ◌∷◌, List, Some, false, length};
ghost use Rattle.xrf_history.specs.declared.want.Want.{Want as Act};
ghost use Rattle.xrf_history.specs.Events.{Event, MessageRead, ActFailed};
ghost use Rattle.xrf_history.specs.Holding.{is_owner};
ghost use Rattle.xrf_standby.specs.Alternate.{Stands};

use crate::alternate::Alternate;
use xrf_history::EndWhy;
use xrf_job::Stage;

impl Alternate {
    /// It read a slot for the message that it takes next.
    #[tactic(auto, using(xrf_job::proofs::Counts::counts))]
    pub(crate) fn slot_read(&mut self, slot: &[u8; 64])
        requires { (h : List Event) × Stands self.old h × (length h < 16385) }
        ensures settings { self.new.settings ≡ self.old.settings }
        ensures stands { (h : List Event) (place : ℕ) → Stands self.old h → is_owner h ≡ false → Stands self.new (MessageRead place slot.now ∷ h) }
    {
        if !self.common.message_read(slot, &mut self.rooms.table) {
            self.is_reading = false;
        }
    }

    /// The read of a slot failed, so it leaves.
    pub(crate) fn read_failed(&mut self)
        ensures settings { self.new.settings ≡ self.old.settings }
        ensures stands { (h : List Event) (place at : ℕ) → Stands self.old h → is_owner h ≡ false → Stands self.new (ActFailed (Act.MsgRead place) at ∷ h) }
    {
        self.leaves = Some(EndWhy::MsgError);
        self.is_reading = false;
        self.common.stage = Stage::Boundary;
    }
}
