//! How log records and keypoints are written.

ghost use Rattle.std.specs.Prelude.{◌≡◌, ◌++◌, OnOk};
ghost use Rattle.xrf_report.specs.Logged.{unit_text, log_text, keypoint_text};
ghost use Rattle.xrf_report.specs.Fits.{UnitFits, LogFits, KeypointFits};

use crate::words::{digits, put_numbered, put_word};
use Piece::Text;
use std::alloc::AllocError;
use xrf_base::UnitId;
use xrf_grammar::writing::{Piece, put};
use xrf_logrec::{Keypoint, LogRec};

/// Appends a unit of work.
pub(crate) fn put_unit(out: &mut Vec<u8>, unit: UnitId) -> Result<(), AllocError>
    ensures text { OnOk result (out.new.items ≡ out.old.items ++ unit_text unit) }
    ensures fits { OnOk result (UnitFits unit) }
{
    put(out, &[digits(unit.inc), Text(b"."), digits(unit.serial)])
}

/// Appends a log record.
pub(crate) fn put_record(out: &mut Vec<u8>, rec: &LogRec) -> Result<(), AllocError>
    ensures text { OnOk result (out.new.items ≡ out.old.items ++ log_text rec.now) }
    ensures fits { OnOk result (LogFits rec.now) }
{
    match rec {
        LogRec::Put { unit, rrn, .. } => {
            put_word(out, b"PUT ")?;
            put_unit(out, *unit)?;
            put_numbered(out, b" ", *rrn as u32)
        }
        LogRec::Commit { unit } => {
            put_word(out, b"COMMIT ")?;
            put_unit(out, *unit)
        }
        LogRec::Backout { unit } => {
            put_word(out, b"BACKOUT ")?;
            put_unit(out, *unit)
        }
    }
}

/// Appends a keypoint.
pub(crate) fn put_keypoint(out: &mut Vec<u8>, keypoint: &Keypoint) -> Result<(), AllocError>
    ensures text { OnOk result (out.new.items ≡ out.old.items ++ keypoint_text keypoint.now) }
    ensures fits { OnOk result (KeypointFits keypoint.now) }
{
    put(
        out,
        &[
            Text(b"KEYPOINT "),
            digits(keypoint.number),
            Text(b" START "),
            digits(keypoint.start),
        ],
    )
}
