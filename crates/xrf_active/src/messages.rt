//! The messages that an owner drains, and those that it writes.

ghost use Rattle.std.specs.Prelude.{◌≡◌, ℕ, ◌<◌, ◌∷◌, List, Some, true, false, length};
ghost use Rattle.xrf_history.specs.Events.{Event, MessageRead, MessageClosed, MessageBodied, MessageOpened};
ghost use Rattle.xrf_history.specs.Holding.{is_granted, is_restarted};
ghost use Rattle.xrf_history.specs.Taking.{is_draining};
ghost use Rattle.xrf_history.specs.Next.{message_at_hand};
ghost use Rattle.xrf_active.specs.Standing.{Stands};

use crate::active::Active;
use xrf_gated::OPEN;
use xrf_job::Stage;
use xrf_msg::Message;

impl Active {
    /// It read a slot for a message that it had not taken before it was let through.
    #[tactic(auto, using(xrf_job::proofs::Counts::counts))]
    pub(crate) fn slot_drained(&mut self, slot: &[u8; 64])
        requires { (h : List Event) × Stands self.old h × (length h < 16385) }
        ensures settings { self.new.settings ≡ self.old.settings }
        ensures stands { (h : List Event) (place : ℕ) → Stands self.old h → is_draining h ≡ true → is_restarted h ≡ false → Stands self.new (MessageRead place slot.now ∷ h) }
    {
        if !self.common.message_read(slot, &mut self.rooms.table) {
            self.is_draining = false;
        }
    }

    /// It read the slot into which it writes a message.
    pub(crate) fn slot_read(&mut self, place: u32, message: &Message, slot: &[u8; 64])
        ensures settings { self.new.settings ≡ self.old.settings }
        ensures stands { (h : List Event) → Stands self.old h → is_restarted h ≡ true → message_at_hand self.old.settings h ≡ Some message.now → is_granted h ≡ true → Stands self.new (MessageRead place slot.now ∷ h) }
    {
        self.common.stage = if slot[0] == OPEN {
            Stage::MsgClose(place, *message)
        } else {
            Stage::MsgBody(place, *message)
        };
    }

    /// It closed the slot.
    pub(crate) fn message_closed(&mut self, place: u32, message: &Message)
        ensures settings { self.new.settings ≡ self.old.settings }
        ensures stands { (h : List Event) → Stands self.old h → message_at_hand self.old.settings h ≡ Some message.now → is_granted h ≡ true → Stands self.new (MessageClosed place ∷ h) }
    {
        self.common.stage = Stage::MsgBody(place, *message);
    }

    /// It wrote the message behind the gate.
    pub(crate) fn message_bodied(&mut self, place: u32, message: &Message)
        ensures settings { self.new.settings ≡ self.old.settings }
        ensures stands { (h : List Event) → Stands self.old h → is_granted h ≡ true → Stands self.new (MessageBodied place message.now ∷ h) }
    {
        self.common.stage = Stage::MsgOpen(place, *message);
    }

    /// It opened the slot, and so the message is sent.
    #[tactic(auto, using(xrf_job::proofs::Counts::counts))]
    pub(crate) fn message_opened(&mut self, place: u32, message: &Message)
        requires { (h : List Event) × Stands self.old h × (length h < 16385) }
        ensures settings { self.new.settings ≡ self.old.settings }
        ensures stands { (h : List Event) → Stands self.old h → Stands self.new (MessageOpened place message.now ∷ h) }
    {
        if let Some(sending) = &mut self.sending {
            sending.sent(message);
        }
        self.common.stage = Stage::Boundary;
    }
}
