//! How the lines of what stands in the end are written: tick, control record and log.

ghost use Rattle.std.specs.Prelude.{◌≡◌, ◌++◌, OnOk};
ghost use Rattle.xrf_ctl.specs.Control.{IsControl};
ghost use Rattle.xrf_report.specs.Standing.{tick_line, control_line, log_line, done_line};
ghost use Rattle.xrf_report.specs.Fits.{Is32};

use crate::records::put_control;
use crate::words::{digits, put_word};
use Piece::Text;
use std::alloc::AllocError;
use xrf_base::Tick;
use xrf_ctl::Control;
use xrf_grammar::writing::{Piece, put};
use xrf_setup::Format;

/// Appends the line of the tick.
pub(crate) fn put_tick_line(out: &mut Vec<u8>, tick: Tick) -> Result<(), AllocError>
    ensures text { OnOk result (out.new.items ≡ out.old.items ++ tick_line tick) }
    ensures fits { OnOk result (Is32 tick) }
{
    put(out, &[Text(b"* TICK "), digits(tick), Text(b"\n")])
}

/// Appends the line of the control record, as a document of this format tells it.
pub(crate) fn put_control_line(
    out: &mut Vec<u8>,
    xrf: Format,
    control: &Control,
) -> Result<(), AllocError>
    ensures text { OnOk result (out.new.items ≡ out.old.items ++ control_line xrf control.now) }
    ensures fits { OnOk result (IsControl control.now) }
{
    put_word(out, b"* CONTROL ")?;
    put_control(out, xrf, control)?;
    put_word(out, b"\n")
}

/// Appends the line of the log: its records, the units that are committed, and those in flight.
pub(crate) fn put_log_line(
    out: &mut Vec<u8>,
    records: u32,
    committed: u32,
    flight: u32,
) -> Result<(), AllocError>
    ensures text { OnOk result (out.new.items ≡ out.old.items ++ log_line records committed flight) }
    ensures fits { OnOk result (Is32 records × Is32 committed × Is32 flight) }
{
    put(
        out,
        &[
            Text(b"* LOG "),
            digits(records),
            Text(b" COMMITTED "),
            digits(committed),
            Text(b" FLIGHT "),
            digits(flight),
            Text(b"\n"),
        ],
    )
}

/// Appends the last line.
pub(crate) fn put_done_line(out: &mut Vec<u8>) -> Result<(), AllocError>
    ensures { OnOk result (out.new.items ≡ out.old.items ++ done_line) }
{
    put_word(out, b"* DONE\n")
}
