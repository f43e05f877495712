//! How a control record is written.

ghost use Rattle.std.specs.Prelude.{◌≡◌, ◌++◌, OnOk};
ghost use Rattle.xrf_report.specs.Records.{state_word, cause_word, owner_text, alt_text, taking_text, format_text, control_text};
ghost use Rattle.xrf_ctl.specs.Control.{IsControl};

use crate::words::put_word;
use Piece::{Number, Text};
use std::alloc::AllocError;
use xrf_ctl::{Alt, Cause, Control, Owner, OwnerState, Taking};
use xrf_grammar::writing::{Piece, put, site_word};
use xrf_setup::Format;

fn state_word(state: OwnerState) -> &'static [u8]
    ensures { result.now ≡ state_word state }
{
    match state {
        OwnerState::Running => b"RUNNING",
        OwnerState::OffNormal => b"NORMAL",
        OwnerState::OffAbend => b"ABEND",
        OwnerState::OffTakeover => b"TAKEOVER",
    }
}

/// The word of a takeover's cause.
pub(crate) fn cause_word(cause: Cause) -> &'static [u8]
    ensures { result.now ≡ cause_word cause }
{
    match cause {
        Cause::Lost => b"LOST",
        Cause::Abend => b"ABEND",
        Cause::Shutdown => b"SHUTDOWN",
        Cause::Command => b"COMMAND",
    }
}

fn put_owner(out: &mut Vec<u8>, owner: Option<Owner>) -> Result<(), AllocError>
    ensures { OnOk result (out.new.items ≡ out.old.items ++ owner_text owner) }
{
    match owner {
        Some(owner) => put(
            out,
            &[
                Number(owner.inc as u64),
                Text(b"."),
                Text(site_word(owner.site)),
                Text(b"."),
                Text(state_word(owner.state)),
            ],
        ),
        None => put_word(out, b"NONE"),
    }
}

fn put_alt(out: &mut Vec<u8>, alt: Option<Alt>) -> Result<(), AllocError>
    ensures { OnOk result (out.new.items ≡ out.old.items ++ alt_text alt) }
{
    match alt {
        Some(alt) => put(
            out,
            &[
                Number(alt.inc as u64),
                Text(b"."),
                Text(site_word(alt.site)),
            ],
        ),
        None => put_word(out, b"NONE"),
    }
}

fn put_taking(out: &mut Vec<u8>, taking: Option<Taking>) -> Result<(), AllocError>
    ensures { OnOk result (out.new.items ≡ out.old.items ++ taking_text taking) }
{
    match taking {
        Some(taking) => put(
            out,
            &[
                Number(taking.inc as u64),
                Text(b"."),
                Text(cause_word(taking.cause)),
            ],
        ),
        None => put_word(out, b"NONE"),
    }
}

fn put_format(out: &mut Vec<u8>, xrf: Format, format: u16) -> Result<(), AllocError>
    ensures { OnOk result (out.new.items ≡ out.old.items ++ format_text xrf format) }
{
    match xrf {
        Format::One => Ok(()),
        Format::Two => put(out, &[Text(b" FORMAT "), Number(format as u64)]),
    }
}

/// Appends a control record, as a document of this format tells it.
pub(crate) fn put_control(
    out: &mut Vec<u8>,
    xrf: Format,
    control: &Control,
) -> Result<(), AllocError>
    ensures text { OnOk result (out.new.items ≡ out.old.items ++ control_text xrf control.now) }
    ensures fits { OnOk result (IsControl control.now) }
{
    put(out, &[Number(control.last() as u64), Text(b" OWNER ")])?;
    put_owner(out, control.owner())?;
    put_word(out, b" ALT ")?;
    put_alt(out, control.alt())?;
    put_word(out, b" TAKING ")?;
    put_taking(out, control.taking())?;
    put_format(out, xrf, control.format())
}
