//! The slots of the file's records.

ghost use Rattle.std.specs.Prelude.{◌≡◌, ◌==◌, ◌*◌, ◌≤◌, ℕ, List, true, false, length, IfOk};
ghost use Rattle.xrf_base.specs.Values.{slot_of};
ghost use Rattle.xrf_devices.specs.Standing.{FileIs};
ghost use Rattle.xrf_devices.specs.Places.{record_place};
ghost use Rattle.xrf_devices.specs.Writing.{FitsTorn, HasTorn};
ghost use Rattle.xrf_trace.specs.Acts.{torn_size};
ghost use Rattle.xrf_trace.specs.Devices.{file_at, image_after};
ghost use Rattle.xrf_trace.specs.Scenario.{value_in};

use crate::landing::landed;
use std::alloc::{AllocError, Global};
use xrf_base::Value;
use xrf_gated::Extent;
use xrf_trace::{Act, Land};

// there is no record of another number
fn write_record(file: &mut Extent, records: u16, k: u16, bytes: &[u8; 32])
    requires size { length file.old ≡ 32 * records }
    ensures file { (image : ℕ → List ℕ) → FileIs records file.old image
        → FileIs records file.new (λ i. elim (i == k) [ true ↦ bytes.now | false ↦ image i ]) }
    ensures size { length file.new ≡ 32 * records }
{
    if k >= 1 {
        if k <= records {
            file.land(32 * (k as usize - 1), bytes);
        }
    }
}

fn land_record(file: &mut Extent, records: u16, k: u16, own: &[u8; 32], land: &Land)
    requires size { length file.old ≡ 32 * records }
    requires torn { HasTorn 32 land.now }
    ensures file { (image : ℕ → List ℕ) → FileIs records file.old image
        → FileIs records file.new (λ i. file_at k land.now own.now i (image i)) }
    ensures size { length file.new ≡ 32 * records }
{
    if let Some(bytes) = landed(land, own) {
        write_record(file, records, k, &bytes);
    }
}

/// What an act lands on the file, which has this many records.
pub(crate) fn land_file(file: &mut Extent, records: u16, act: &Act, land: &Land)
    requires size { length file.old ≡ 32 * records }
    requires torn { FitsTorn (torn_size act.now) land.now }
    ensures file { (image : ℕ → List ℕ) → FileIs records file.old image
        → FileIs records file.new (λ i. image_after act.now land.now i (image i)) }
    ensures size { length file.new ≡ 32 * records }
{
    match act {
        Act::FileWrite(_, k, value) => land_record(file, records, *k, &value.to_slot(), land),
        Act::Undo(k, before) => land_record(file, records, *k, before, land),
        _ => {}
    }
}

/// The file with its first records, the last of them written first: of two of one number the first stands.
pub(crate) fn first_file(
    alloc: Global,
    records: u16,
    first: &[(u16, Value)],
) -> Result<Extent, AllocError>
    ensures file { IfOk result (λ file. FileIs records file (λ k. slot_of (value_in first.now k))) }
    ensures size { IfOk result (λ file. length file ≡ 32 * records) }
{
    let mut file = Extent::new(alloc, 32 * records as usize)?;
    for done in 0..first.len() {
        let record = first[first.len() - 1 - done];
        write_record(&mut file, records, record.0, &record.1.to_slot());
    }
    Ok(file)
}

/// The slot of a record.
pub(crate) fn read_record(file: &Extent, records: u16, k: u16) -> [u8; 32]
    requires size { length file.now ≡ 32 * records }
    requires least { 1 ≤ k }
    requires most { k ≤ records }
    ensures { (image : ℕ → List ℕ) → FileIs records file.now image → result ≡ image k }
{
    let mut slot = [0; 32];
    file.read(32 * (k as usize - 1), &mut slot);
    slot
}
