//! The slots of the keypoints.

ghost use Rattle.std.specs.Prelude.{◌≡◌, ℕ, length};
ghost use Rattle.xrf_devices.specs.Standing.{SlotsAre};
ghost use Rattle.xrf_devices.specs.Writing.{FitsTorn, KeyMayLand};
ghost use Rattle.xrf_gated.specs.Slots.{slot_of};
ghost use Rattle.xrf_gated.specs.declared.gated.Slot.{Slot};
ghost use Rattle.xrf_trace.specs.Acts.{torn_size};
ghost use Rattle.xrf_trace.specs.Devices.{key_slot_after};

use crate::slots::{close_slot, open_slot, write_body};
use xrf_gated::Slots;
use xrf_logrec::KeyBody;
use xrf_trace::{Act, Land};

/// What an act lands on the slots of the keypoints, of which there are two.
pub(crate) fn land_key(slots: &mut Slots<KeyBody>, act: &Act, land: &Land)
    requires count { length slots.old ≡ 2 }
    requires finds { KeyMayLand 2 (slot_of slots.old) act.now }
    requires torn { FitsTorn (torn_size act.now) land.now }
    ensures slots { (slot : ℕ → Slot) → SlotsAre slots.old slot
        → SlotsAre slots.new (λ i. key_slot_after act.now land.now i (slot i)) }
    ensures size { length slots.new ≡ length slots.old }
{
    match act {
        Act::KpClose(k) => close_slot(slots, *k as usize, land),
        Act::KpBody(k, keypoint) => write_body(slots, *k as usize, &keypoint.write(), land),
        Act::KpOpen(k, _) => open_slot(slots, *k as usize, land),
        _ => {}
    }
}
