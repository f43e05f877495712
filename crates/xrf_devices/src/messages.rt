//! The slots of the message data set.

ghost use Rattle.std.specs.Prelude.{◌≡◌, ℕ, length};
ghost use Rattle.xrf_devices.specs.Standing.{SlotsAre};
ghost use Rattle.xrf_devices.specs.Writing.{FitsTorn, MessageMayLand};
ghost use Rattle.xrf_gated.specs.Slots.{slot_of};
ghost use Rattle.xrf_gated.specs.declared.gated.Slot.{Slot};
ghost use Rattle.xrf_trace.specs.Acts.{torn_size};
ghost use Rattle.xrf_trace.specs.Devices.{message_slot_after};

use crate::slots::{close_slot, open_slot, write_body};
use xrf_gated::Slots;
use xrf_msg::MsgBody;
use xrf_trace::{Act, Land};

/// What an act lands on the message slots.
pub(crate) fn land_message(slots: &mut Slots<MsgBody>, act: &Act, land: &Land)
    requires finds { MessageMayLand (length slots.old) (slot_of slots.old) act.now }
    requires torn { FitsTorn (torn_size act.now) land.now }
    ensures slots { (slot : ℕ → Slot) → SlotsAre slots.old slot
        → SlotsAre slots.new (λ i. message_slot_after act.now land.now i (slot i)) }
    ensures size { length slots.new ≡ length slots.old }
{
    match act {
        Act::MsgClose(k) => close_slot(slots, *k as usize, land),
        Act::MsgBody(k, message) => write_body(slots, *k as usize, &message.write(), land),
        Act::MsgOpen(k, _) => open_slot(slots, *k as usize, land),
        _ => {}
    }
}
