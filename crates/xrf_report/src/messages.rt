//! How a message is written.

ghost use Rattle.std.specs.Prelude.{◌≡◌, ◌++◌, OnOk};
ghost use Rattle.xrf_cebt.specs.Command.{switch_word};
ghost use Rattle.xrf_report.specs.Messages.{user_text, place_text, terminal_text, message_text};
ghost use Rattle.xrf_report.specs.Fits.{Is32, UserFits, TerminalFits, MessageFits};

use crate::words::{digits, put_both, put_numbered, put_word};
use Piece::Text;
use std::alloc::AllocError;
use xrf_base::{Inc, Name8};
use xrf_grammar::writing::{Piece, put};
use xrf_msg::Message;

fn switch_word(on: bool) -> &'static [u8]
    ensures { result.now ≡ switch_word on }
{
    if on { b"ON" } else { b"OFF" }
}

/// The characters of a user's name, or `-` for none.
pub(crate) fn user_word(user: &Option<Name8>) -> &[u8]
    ensures text { result.now ≡ user_text user.now }
    ensures fits { UserFits user.now }
{
    match user {
        Some(user) => user.text(),
        None => b"-",
    }
}

fn put_place(out: &mut Vec<u8>, epoch: Inc, seq: u32) -> Result<(), AllocError>
    ensures text { OnOk result (out.new.items ≡ out.old.items ++ place_text epoch seq) }
    ensures fits { OnOk result (Is32 epoch × Is32 seq) }
{
    put(out, &[digits(epoch), Text(b" "), digits(seq)])
}

fn put_terminal(
    out: &mut Vec<u8>,
    epoch: Inc,
    seq: u32,
    term: &Name8,
    class: u8,
    on: bool,
) -> Result<(), AllocError>
    ensures text { OnOk result (out.new.items ≡ out.old.items ++ terminal_text epoch seq term.now class on) }
    ensures fits { OnOk result (TerminalFits epoch seq term.now class) }
{
    put_place(out, epoch, seq)?;
    put(
        out,
        &[
            Text(b" "),
            Text(term.text()),
            Text(b" "),
            digits(class as u32),
            Text(b" "),
            Text(switch_word(on)),
        ],
    )
}

/// Appends a message.
pub(crate) fn put_message(out: &mut Vec<u8>, message: &Message) -> Result<(), AllocError>
    ensures text { OnOk result (out.new.items ≡ out.old.items ++ message_text message.now) }
    ensures fits { OnOk result (MessageFits message.now) }
{
    match message {
        Message::Begin { epoch } => put_numbered(out, b"BEGIN ", *epoch),
        Message::Term {
            epoch,
            seq,
            term,
            class,
            on,
        } => {
            put_word(out, b"TERM ")?;
            put_terminal(out, *epoch, *seq, term, *class, *on)
        }
        Message::End { epoch, seq } => {
            put_word(out, b"END ")?;
            put_place(out, *epoch, *seq)
        }
        Message::User {
            epoch,
            seq,
            term,
            class,
            on,
            user,
        } => {
            put_word(out, b"USER ")?;
            put_terminal(out, *epoch, *seq, term, *class, *on)?;
            put_both(out, b" ", user_word(user))
        }
    }
}
