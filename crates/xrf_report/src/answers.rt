//! How the answer of an item is written.

ghost use Rattle.std.specs.Prelude.{◌≡◌, ◌++◌, OnOk};
ghost use Rattle.xrf_report.specs.Answers.{answer_text};
ghost use Rattle.xrf_report.specs.Fits.{AnswerFits};

use crate::words::{put_both, put_word};
use std::alloc::AllocError;
use xrf_base::ItemAnswer;

/// Appends the answer of an item.
pub(crate) fn put_answer(out: &mut Vec<u8>, answer: &ItemAnswer) -> Result<(), AllocError>
    ensures text { OnOk result (out.new.items ≡ out.old.items ++ answer_text answer.now) }
    ensures fits { OnOk result (AnswerFits answer.now) }
{
    match answer {
        ItemAnswer::Done => put_word(out, b"DONE"),
        ItemAnswer::Got(value) => put_both(out, b"VALUE ", value.text()),
        ItemAnswer::Empty => put_word(out, b"EMPTY"),
        ItemAnswer::Locked => put_word(out, b"LOCKED"),
        ItemAnswer::LogFull => put_word(out, b"LOGFULL"),
        ItemAnswer::NotOpen => put_word(out, b"NOTOPEN"),
        ItemAnswer::NameUsed => put_word(out, b"NAMEUSED"),
        ItemAnswer::UnitsFull => put_word(out, b"UNITSFULL"),
        ItemAnswer::BadRrn => put_word(out, b"BADRRN"),
        ItemAnswer::TermUsed => put_word(out, b"TERMUSED"),
        ItemAnswer::TermsFull => put_word(out, b"TERMSFULL"),
        ItemAnswer::NotOn => put_word(out, b"NOTON"),
        ItemAnswer::UserOn => put_word(out, b"USERON"),
        ItemAnswer::NoUser => put_word(out, b"NOUSER"),
    }
}
