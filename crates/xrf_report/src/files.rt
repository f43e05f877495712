//! How the records of the file are written.

ghost use Rattle.std.specs.Prelude.{◌≡◌, ◌≤◌, ◌*◌, ◌++◌, ℕ, List, OnOk, length};
ghost use Rattle.xrf_devices.specs.Standing.{FileIs};
ghost use Rattle.xrf_base.specs.Values.{slot_reading};
ghost use Rattle.xrf_report.specs.Files.{slot_line, file_text};
ghost use Rattle.xrf_report.specs.Fits.{HeldFits, RecordsFit};

use crate::images::piece_at;
use crate::words::digits;
use Piece::Text;
use std::alloc::AllocError;
use xrf_base::Value;
use xrf_base::values::slot_read;
use xrf_gated::Extent;
use xrf_grammar::writing::{Piece, put};

fn put_held(out: &mut Vec<u8>, number: u32, held: &Option<Option<Value>>) -> Result<(), AllocError>
    ensures text { OnOk result (out.new.items ≡ out.old.items ++ slot_line number held.now) }
    ensures fits { OnOk result (HeldFits held.now) }
{
    match held {
        None => put(
            out,
            &[Text(b"* FILE "), digits(number), Text(b" DAMAGED\n")],
        ),
        Some(None) => Ok(()),
        Some(Some(value)) => put(
            out,
            &[
                Text(b"* FILE "),
                digits(number),
                Text(b" "),
                Text(value.text()),
                Text(b"\n"),
            ],
        ),
    }
}

fn put_slot_line(out: &mut Vec<u8>, number: u32, slot: &[u8; 32]) -> Result<(), AllocError>
    ensures text { OnOk result (out.new.items ≡ out.old.items ++ slot_line number (slot_reading slot.now)) }
    ensures fits { OnOk result (HeldFits (slot_reading slot.now)) }
{
    put_held(out, number, &slot_read(slot))
}

/// Appends the lines of the first so many slots of the file, by their record numbers.
pub(crate) fn put_file(out: &mut Vec<u8>, file: &Extent, count: u16) -> Result<(), AllocError>
    requires { 32 * count ≤ length file.now }
    ensures text { (image : ℕ → List ℕ) → FileIs count file.now image → OnOk result (out.new.items ≡ out.old.items ++ file_text image count) }
    ensures fits { (image : ℕ → List ℕ) → FileIs count file.now image → OnOk result (RecordsFit image count) }
{
    for k in 0..count as u32 {
        put_slot_line(out, k + 1, &piece_at(file, k))?;
    }
    Ok(())
}
