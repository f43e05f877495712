//! Writes of gated slots.

ghost use Rattle.std.specs.Prelude.{◌≡◌, ◌<◌, ℕ, length, [], ◌∷◌};
ghost use Rattle.xrf_devices.specs.Standing.{SlotsAre};
ghost use Rattle.xrf_devices.specs.Writing.{HasTorn, IsOpened, IsWhole};
ghost use Rattle.xrf_gated.specs.Slots.{slot_of};
ghost use Rattle.xrf_gated.specs.declared.gated.Slot.{Slot};
ghost use Rattle.xrf_trace.specs.Devices.{close_at, body_at, open_at};

use crate::landing::landed;
use xrf_gated::{BodyRule, OPEN, Slots};
use xrf_trace::Land;

/// Closes slot `k`.
pub(crate) fn close_slot<B: BodyRule>(slots: &mut Slots<B>, k: usize, land: &Land)
    requires place { k < length slots.old }
    requires open { IsOpened (slot_of slots.old k) }
    requires torn { HasTorn 1 land.now }
    ensures slots { (slot : ℕ → Slot) → SlotsAre slots.old slot → SlotsAre slots.new (λ i. close_at k land.now i (slot i)) }
    ensures size { length slots.new ≡ length slots.old }
{
    if let Some(gate) = landed(land, &[0]) {
        slots.land_close(k, gate[0]);
    }
}

/// Writes the body of slot `k`.
pub(crate) fn write_body<B: BodyRule>(slots: &mut Slots<B>, k: usize, body: &[u8; 63], land: &Land)
    requires place { k < length slots.old }
    requires closed { ¬ IsOpened (slot_of slots.old k) }
    requires torn { HasTorn 63 land.now }
    ensures slots { (slot : ℕ → Slot) → SlotsAre slots.old slot → SlotsAre slots.new (λ i. body_at k land.now body.now i (slot i)) }
    ensures size { length slots.new ≡ length slots.old }
{
    if let Some(bytes) = landed(land, body) {
        slots.land_body(k, &bytes);
    }
}

/// Opens slot `k`.
pub(crate) fn open_slot<B: BodyRule>(slots: &mut Slots<B>, k: usize, land: &Land)
    requires place { k < length slots.old }
    requires whole { IsWhole B.is_whole (slot_of slots.old k) }
    requires torn { HasTorn 1 land.now }
    ensures slots { (slot : ℕ → Slot) → SlotsAre slots.old slot → SlotsAre slots.new (λ i. open_at k land.now i (slot i)) }
    ensures size { length slots.new ≡ length slots.old }
{
    if let Some(gate) = landed(land, &[OPEN]) {
        slots.land_gate(k, gate[0]);
    }
}
