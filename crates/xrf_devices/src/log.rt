//! The slots of the log.

ghost use Rattle.std.specs.Prelude.{◌≡◌, ◌%◌, ◌<◌, ◌≤◌, ℕ, length};
ghost use Rattle.xrf_devices.specs.Standing.{SlotsAre};
ghost use Rattle.xrf_devices.specs.Writing.{FitsTorn, LogMayLand};
ghost use Rattle.xrf_gated.specs.Slots.{slot_of};
ghost use Rattle.xrf_gated.specs.declared.gated.Slot.{Slot};
ghost use Rattle.xrf_trace.specs.Acts.{torn_size};
ghost use Rattle.xrf_trace.specs.Devices.{log_slot_after};

use crate::slots::{close_slot, open_slot, write_body};
use xrf_gated::Slots;
use xrf_logrec::LogBody;
use xrf_trace::{Act, Land};

/// The slot of a log record, of as many slots as there are.
pub(crate) fn place_of(number: u32, count: u16) -> usize
    requires some { 1 ≤ count }
    ensures place { result ≡ number % count }
    ensures inside { result < count }
{
    number as usize % count as usize
}

/// What an act lands on the slots of the log, of which there are `count`.
pub(crate) fn land_log(slots: &mut Slots<LogBody>, count: u16, act: &Act, land: &Land)
    requires some { 1 ≤ count }
    requires count { length slots.old ≡ count }
    requires finds { LogMayLand count (slot_of slots.old) act.now }
    requires torn { FitsTorn (torn_size act.now) land.now }
    ensures slots { (slot : ℕ → Slot) → SlotsAre slots.old slot
        → SlotsAre slots.new (λ i. log_slot_after count act.now land.now i (slot i)) }
    ensures size { length slots.new ≡ length slots.old }
{
    match act {
        Act::LogClose(p) => close_slot(slots, place_of(*p, count), land),
        Act::LogBody(p, rec) => write_body(slots, place_of(*p, count), &rec.write(*p), land),
        Act::LogOpen(p, _) => open_slot(slots, place_of(*p, count), land),
        _ => {}
    }
}
