//! How the images of data sets are written.

ghost use Rattle.std.specs.Prelude.{◌≡◌, ◌≤◌, ◌<◌, ◌+◌, ◌*◌, ◌^◌, ◌++◌, ℕ, List, OnOk, length, codes, take, drop};
ghost use Rattle.xrf_devices.specs.Standing.{SlotsAre, FileIs, StandsFor};
ghost use Rattle.xrf_report.specs.Images.{is_zero, image_line, pieces_text, all_pieces, ctl_bytes, msg_signals, slot_lines, slots_text, records_text, images_text};
ghost use Rattle.xrf_report.specs.Fits.{SlotsFit, PiecesFit, ImagesFit};
ghost use Rattle.xrf_gated.specs.Landing.{part};
ghost use Rattle.xrf_gated.specs.declared.gated.Slot.{Slot};
ghost use Rattle.xrf_setup.specs.Scenario.{Scen};
ghost use Rattle.xrf_trace.specs.declared.entry.Entry.{Entry};

use crate::words::digits;
use Piece::{Hex, Text};
use std::alloc::AllocError;
use xrf_devices::DataSets;
use xrf_gated::{BodyRule, Extent, Slots};
use xrf_grammar::writing::{Piece, put};
use xrf_setup::Scenario;

fn is_zero(bytes: &[u8]) -> bool
    ensures { result ≡ is_zero bytes.now }
{
    bytes.iter().all(|b| *b == 0)
}

/// A piece of an extent, 32 bytes, by its place from 0.
pub(crate) fn piece_at(extent: &Extent, k: u32) -> [u8; 32]
    requires { 32 * k + 32 ≤ length extent.now }
    ensures bytes { result ≡ part extent.now (32 * k) 32 }
    ensures size { length result ≡ 32 }
{
    let mut piece = [0; 32];
    extent.read(32 * k as usize, &mut piece);
    piece
}

// the line of some bytes of a data set, by its name and their offset: none where all are zero
fn put_image_line<'a>(
    out: &mut Vec<u8>,
    name: &'a [u8],
    at: u32,
    bytes: &'a [u8],
) -> Result<(), AllocError>
    ensures { OnOk result (out.new.items ≡ out.old.items ++ image_line name.now at bytes.now) }
{
    if is_zero(bytes) {
        return Ok(());
    }
    put(
        out,
        &[
            Text(b"* IMAGE "),
            Text(name),
            Text(b" "),
            digits(at),
            Text(b" "),
            Hex(bytes),
            Text(b"\n"),
        ],
    )
}

// the first so many pieces of an extent
fn put_pieces(out: &mut Vec<u8>, name: &[u8], extent: &Extent, count: u32) -> Result<(), AllocError>
    requires within { 32 * count ≤ length extent.now }
    requires few { count ≤ 1000 }
    ensures { OnOk result (out.new.items ≡ out.old.items ++ pieces_text name.now extent.now count) }
{
    for k in 0..count {
        put_image_line(out, name, 32 * k, &piece_at(extent, k))?;
    }
    Ok(())
}

// all pieces of an extent, of which there are so many
fn put_extent(out: &mut Vec<u8>, name: &[u8], extent: &Extent, count: u32) -> Result<(), AllocError>
    requires size { length extent.now ≡ 32 * count }
    requires few { count ≤ 1000 }
    ensures { OnOk result (out.new.items ≡ out.old.items ++ all_pieces name.now extent.now) }
{
    put_pieces(out, name, extent, count)
}

fn put_slot(out: &mut Vec<u8>, name: &[u8], at: u32, bytes: &[u8; 64]) -> Result<(), AllocError>
    requires { at ≤ 1000000 }
    ensures text { OnOk result (out.new.items ≡ out.old.items ++ slot_lines name.now at bytes.now) }
    ensures size { length bytes.now ≡ 64 }
{
    let (first, second) = bytes.split_at(32);
    put_image_line(out, name, at, first)?;
    put_image_line(out, name, at + 32, second)
}

// the first so many slots of a data set, from an offset on
fn put_slots<B: BodyRule>(
    out: &mut Vec<u8>,
    name: &[u8],
    at: u32,
    slots: &Slots<B>,
    count: u32,
) -> Result<(), AllocError>
    requires within { count ≤ length slots.now }
    requires few { count ≤ 2000 }
    requires low { at ≤ 200 }
    ensures text { (slot : ℕ → Slot) → SlotsAre slots.now slot → OnOk result (out.new.items ≡ out.old.items ++ slots_text name.now at slot count) }
    ensures fits { (slot : ℕ → Slot) → SlotsAre slots.now slot → OnOk result (SlotsFit slot count) }
{
    for k in 0..count {
        put_slot(out, name, at + 64 * k, &slots.slot(k as usize))?;
    }
    Ok(())
}

// the first so many slots of the file
fn put_records(out: &mut Vec<u8>, file: &Extent, count: u32) -> Result<(), AllocError>
    requires within { 32 * count ≤ length file.now }
    requires few { count ≤ 1000 }
    ensures text { (image : ℕ → List ℕ) → FileIs count file.now image → OnOk result (out.new.items ≡ out.old.items ++ records_text image count) }
    ensures fits { (image : ℕ → List ℕ) → FileIs count file.now image → OnOk result (PiecesFit image count) }
{
    for k in 0..count {
        put_image_line(out, b"FILE", 32 * k, &piece_at(file, k))?;
    }
    Ok(())
}

fn put_control_images(out: &mut Vec<u8>, sets: &DataSets) -> Result<(), AllocError>
    requires { (s : Scen) × (t : List Entry) × StandsFor sets.now s t }
    ensures { (s : Scen) (t : List Entry) → StandsFor sets.now s t → OnOk result (out.new.items ≡ out.old.items ++ all_pieces (codes "CTL") (ctl_bytes t)) }
{
    put_extent(out, b"CTL", &sets.ctl, 12)
}

fn put_signal_images(out: &mut Vec<u8>, sets: &DataSets) -> Result<(), AllocError>
    requires { (s : Scen) × (t : List Entry) × StandsFor sets.now s t }
    ensures { (s : Scen) (t : List Entry) → StandsFor sets.now s t → OnOk result (out.new.items ≡ out.old.items ++ all_pieces (codes "MSG") (msg_signals t)) }
{
    put_extent(out, b"MSG", &sets.signals, 4)
}

/// Appends the images of data sets: a line for each 32 bytes that are not all zero.
pub(crate) fn put_images(
    out: &mut Vec<u8>,
    scenario: &Scenario,
    sets: &DataSets,
) -> Result<(), AllocError>
    requires { (t : List Entry) × StandsFor sets.now scenario.now t }
    ensures text { (t : List Entry) → StandsFor sets.now scenario.now t → OnOk result (out.new.items ≡ out.old.items ++ images_text scenario.now t) }
    ensures fits { (t : List Entry) → StandsFor sets.now scenario.now t → OnOk result (ImagesFit scenario.now t) }
{
    put_control_images(out, sets)?;
    put_signal_images(out, sets)?;
    put_slots(out, b"MSG", 128, &sets.messages, scenario.ring() as u32)?;
    put_slots(out, b"LOG", 0, &sets.log, scenario.log() as u32)?;
    put_records(out, &sets.file, scenario.file() as u32)?;
    put_slots(out, b"KEY", 0, &sets.key, 2)
}
