//! How acts are written.

ghost use Rattle.std.specs.Prelude.{◌≡◌, ◌++◌, OnOk, codes};
ghost use Rattle.std.specs.Fmt.{decimal};
ghost use Rattle.xrf_grammar.specs.Spelling.{answer_word};
ghost use Rattle.xrf_cebt.specs.Command.{command_text};
ghost use Rattle.xrf_cebt.specs.Reply.{reply_text};
ghost use Rattle.xrf_report.specs.Words.{blank};
ghost use Rattle.xrf_report.specs.Records.{control_text};
ghost use Rattle.xrf_report.specs.Messages.{message_text};
ghost use Rattle.xrf_report.specs.Logged.{unit_text, log_text, keypoint_text};
ghost use Rattle.xrf_report.specs.Decisions.{decided_text, ending_text};
ghost use Rattle.xrf_report.specs.Acts.{go_word, signal_text, clt_text, act_text};
ghost use Rattle.xrf_base.specs.Values.{IsValue};
ghost use Rattle.xrf_ctl.specs.Control.{IsControl};
ghost use Rattle.xrf_report.specs.Fits.{Is32, SignalFits, MessageFits, UnitFits, LogFits, KeypointFits, DecidedFits, EndingFits, ActFits};

use crate::decisions::{put_decided, put_ending};
use crate::logged::{put_keypoint, put_record, put_unit};
use crate::messages::put_message;
use crate::picked::Picked;
use crate::records::put_control;
use crate::words::{counter, digits, put_both, put_numbered, put_word};
use Piece::Text;
use std::alloc::AllocError;
use xrf_base::{Site, UnitId, Value};
use xrf_cavm::Decided;
use xrf_cebt::{Cebt, CebtReply};
use xrf_ctl::{Control, Signal};
use xrf_exit::ExitAnswer;
use xrf_grammar::writing::{Piece, put};
use xrf_history::EndWhy;
use xrf_logrec::{Keypoint, LogRec};
use xrf_msg::Message;
use xrf_trace::{Act, Who};

fn answer_word(answer: ExitAnswer) -> &'static [u8]
    ensures { result.now ≡ answer_word answer }
{
    match answer {
        ExitAnswer::Abend => b"ABEND",
        ExitAnswer::Keep => b"KEEP",
        ExitAnswer::Drop => b"DROP",
    }
}

fn go_word(go: bool) -> &'static [u8]
    ensures { result.now ≡ go_word go }
{
    if go { b"GO" } else { b"IGNORE" }
}

fn put_reply(out: &mut Vec<u8>, command: Cebt, reply: CebtReply) -> Result<(), AllocError>
    ensures { OnOk result (out.new.items ≡ out.old.items ++ codes "CEBT " ++ command_text command ++ codes " = " ++ reply_text reply) }
{
    put(
        out,
        &[
            Text(b"CEBT "),
            Text(command.text()),
            Text(b" = "),
            Text(reply.text()),
        ],
    )
}

fn put_write(out: &mut Vec<u8>, scenario: &Picked, control: &Control) -> Result<(), AllocError>
    ensures text { OnOk result (out.new.items ≡ out.old.items ++ codes "CTLWRITE " ++ control_text scenario.now.settings.format control.now) }
    ensures fits { OnOk result (IsControl control.now) }
{
    put_word(out, b"CTLWRITE ")?;
    put_control(out, scenario.format(), control)
}

fn put_signal(out: &mut Vec<u8>, word: &[u8], signal: &Signal) -> Result<(), AllocError>
    ensures text { OnOk result (out.new.items ≡ out.old.items ++ word.now ++ signal_text signal.now) }
    ensures fits { OnOk result (SignalFits signal.now) }
{
    put(
        out,
        &[
            Text(word),
            counter(signal.counter),
            Text(b" "),
            digits(signal.cursor),
        ],
    )
}

fn put_decide(out: &mut Vec<u8>, decided: Decided) -> Result<(), AllocError>
    ensures text { OnOk result (out.new.items ≡ out.old.items ++ codes "DECIDE " ++ decided_text decided) }
    ensures fits { OnOk result (DecidedFits decided) }
{
    put_word(out, b"DECIDE ")?;
    put_decided(out, decided)
}

// a word, the number of a slot, and behind a blank a message
fn put_sent(out: &mut Vec<u8>, word: &[u8], slot: u32, message: &Message) -> Result<(), AllocError>
    ensures text { OnOk result (out.new.items ≡ out.old.items ++ word.now ++ decimal slot ++ blank (message_text message.now)) }
    ensures fits { OnOk result (Is32 slot × MessageFits message.now) }
{
    put(out, &[Text(word), digits(slot), Text(b" ")])?;
    put_message(out, message)
}

// a word, the number of a log record, and behind a blank the record
fn put_logged(out: &mut Vec<u8>, word: &[u8], place: u32, rec: &LogRec) -> Result<(), AllocError>
    ensures text { OnOk result (out.new.items ≡ out.old.items ++ word.now ++ decimal place ++ blank (log_text rec.now)) }
    ensures fits { OnOk result (Is32 place × LogFits rec.now) }
{
    put(out, &[Text(word), digits(place), Text(b" ")])?;
    put_record(out, rec)
}

// a word, the number of a slot, and behind a blank a keypoint
fn put_keyed(
    out: &mut Vec<u8>,
    word: &[u8],
    slot: u8,
    keypoint: &Keypoint,
) -> Result<(), AllocError>
    ensures text { OnOk result (out.new.items ≡ out.old.items ++ word.now ++ decimal slot ++ blank (keypoint_text keypoint.now)) }
    ensures fits { OnOk result (Is32 slot × KeypointFits keypoint.now) }
{
    put(out, &[Text(word), digits(slot as u32), Text(b" ")])?;
    put_keypoint(out, keypoint)
}

fn put_file_write(
    out: &mut Vec<u8>,
    unit: UnitId,
    number: u16,
    value: &Value,
) -> Result<(), AllocError>
    ensures text { OnOk result (out.new.items ≡ out.old.items ++ codes "FILEWRITE " ++ unit_text unit ++ blank (decimal number) ++ blank value.now) }
    ensures fits { OnOk result (UnitFits unit × Is32 number × IsValue value.now) }
{
    put_word(out, b"FILEWRITE ")?;
    put_unit(out, unit)?;
    put(
        out,
        &[
            Text(b" "),
            digits(number as u32),
            Text(b" "),
            Text(value.text()),
        ],
    )
}

fn clt_line<'a>(scenario: &'a Picked, who: Who, number: u16) -> &'a [u8]
    ensures { result.now ≡ clt_text scenario.now who number }
{
    match who {
        Who::A => scenario.line(Site::A, number),
        Who::B => scenario.line(Site::B, number),
        Who::Env => b"",
    }
}

fn put_clt(out: &mut Vec<u8>, scenario: &Picked, who: Who, number: u16) -> Result<(), AllocError>
    ensures text { OnOk result (out.new.items ≡ out.old.items ++ codes "CLT " ++ decimal number ++ blank (clt_text scenario.now who number)) }
    ensures fits { OnOk result (Is32 number) }
{
    put(
        out,
        &[
            Text(b"CLT "),
            digits(number as u32),
            Text(b" "),
            Text(clt_line(scenario, who, number)),
        ],
    )
}

fn put_ended(out: &mut Vec<u8>, why: EndWhy) -> Result<(), AllocError>
    ensures text { OnOk result (out.new.items ≡ out.old.items ++ codes "ENDED " ++ ending_text why) }
    ensures fits { OnOk result (EndingFits why) }
{
    put_word(out, b"ENDED ")?;
    put_ending(out, why)
}

/// Appends an act.
pub(crate) fn put_act(
    out: &mut Vec<u8>,
    scenario: &Picked,
    who: Who,
    act: &Act,
) -> Result<(), AllocError>
    ensures text { OnOk result (out.new.items ≡ out.old.items ++ act_text scenario.now who act.now) }
    ensures fits { OnOk result (ActFits act.now) }
{
    match act {
        Act::Tick => put_word(out, b"TICK"),
        Act::StartActive => put_word(out, b"START ACTIVE"),
        Act::StartStandby => put_word(out, b"START STANDBY"),
        Act::Abend => put_word(out, b"ABEND"),
        Act::Confirm(inc) => put_numbered(out, b"CONFIRM ", *inc),
        Act::Reply(go) => put_both(out, b"REPLY ", go_word(*go)),
        Act::Cebt(command, reply) => put_reply(out, *command, *reply),
        Act::Exit(answer) => put_both(out, b"EXIT ", answer_word(*answer)),
        Act::Reserve => put_word(out, b"RESERVE"),
        Act::CtlRead => put_word(out, b"CTLREAD"),
        Act::CtlWrite(control) => put_write(out, scenario, control),
        Act::Release => put_word(out, b"RELEASE"),
        Act::Signal1(signal) => put_signal(out, b"SIGNAL1 ", signal),
        Act::Signal2(signal) => put_signal(out, b"SIGNAL2 ", signal),
        Act::Look1 => put_word(out, b"LOOK1"),
        Act::Look2 => put_word(out, b"LOOK2"),
        Act::Decide(decided) => put_decide(out, *decided),
        Act::MsgRead(slot) => put_numbered(out, b"MSGREAD ", *slot),
        Act::MsgClose(slot) => put_numbered(out, b"MSGCLOSE ", *slot),
        Act::MsgBody(slot, message) => put_sent(out, b"MSGBODY ", *slot, message),
        Act::MsgOpen(slot, message) => put_sent(out, b"MSGOPEN ", *slot, message),
        Act::LogRead(block) => put_numbered(out, b"LOGREAD ", *block),
        Act::LogLook(place) => put_numbered(out, b"LOGLOOK ", *place),
        Act::LogClose(place) => put_numbered(out, b"LOGCLOSE ", *place),
        Act::LogBody(place, rec) => put_logged(out, b"LOGBODY ", *place, rec),
        Act::LogOpen(place, rec) => put_logged(out, b"LOGOPEN ", *place, rec),
        Act::KpRead(slot) => put_numbered(out, b"KPREAD ", *slot as u32),
        Act::KpClose(slot) => put_numbered(out, b"KPCLOSE ", *slot as u32),
        Act::KpBody(slot, keypoint) => put_keyed(out, b"KPBODY ", *slot, keypoint),
        Act::KpOpen(slot, keypoint) => put_keyed(out, b"KPOPEN ", *slot, keypoint),
        Act::FileRead(number) => put_numbered(out, b"FILEREAD ", *number as u32),
        Act::FileWrite(unit, number, value) => put_file_write(out, *unit, *number, value),
        Act::Undo(number, _) => put_numbered(out, b"UNDO ", *number as u32),
        Act::Item(number) => put_numbered(out, b"ITEM ", *number),
        Act::Clt(number) => put_clt(out, scenario, who, *number),
        Act::Restarted => put_word(out, b"RESTARTED"),
        Act::Ended(why) => put_ended(out, *why),
        Act::NoAct => Ok(()),
    }
}
