//! How decisions are written, and why a job ends.

ghost use Rattle.std.specs.Prelude.{◌≡◌, ◌++◌, OnOk};
ghost use Rattle.xrf_report.specs.Decisions.{leave_word, decision_text, waiting_word, acting_text, decided_text, ending_text};
ghost use Rattle.xrf_report.specs.Fits.{ActingFits, DecidedFits, EndingFits};

use crate::records::cause_word;
use crate::words::{put_both, put_numbered, put_word};
use std::alloc::AllocError;
use xrf_cavm::{Acting, Decided, Decision, Waiting, Why};
use xrf_history::EndWhy;

fn leave_word(why: Why) -> &'static [u8]
    ensures { result.now ≡ leave_word why }
{
    match why {
        Why::Shutdown => b"SHUTDOWN",
        Why::Dropped => b"DROPPED",
        Why::Normal => b"NORMAL",
    }
}

fn waiting_word(waiting: Waiting) -> &'static [u8]
    ensures { result.now ≡ waiting_word waiting }
{
    match waiting {
        Waiting::Wait => b"WAIT",
        Waiting::Through => b"THROUGH",
    }
}

fn put_decision(out: &mut Vec<u8>, decision: Decision) -> Result<(), AllocError>
    ensures { OnOk result (out.new.items ≡ out.old.items ++ decision_text decision) }
{
    match decision {
        Decision::Nothing => put_word(out, b"NOTHING"),
        Decision::Ask => put_word(out, b"ASK"),
        Decision::Start(cause) => put_both(out, b"START ", cause_word(cause)),
        Decision::Leave(why) => put_both(out, b"END ", leave_word(why)),
    }
}

fn put_acting(out: &mut Vec<u8>, acting: Acting) -> Result<(), AllocError>
    ensures text { OnOk result (out.new.items ≡ out.old.items ++ acting_text acting) }
    ensures fits { OnOk result (ActingFits acting) }
{
    match acting {
        Acting::Nothing => put_word(out, b"NOTHING"),
        Acting::Seen => put_word(out, b"SEEN"),
        Acting::CatchUp(inc) => put_numbered(out, b"CATCHUP ", inc),
        Acting::Forget => put_word(out, b"FORGET"),
        Acting::Lost => put_word(out, b"LOST"),
    }
}

/// Appends a decision.
pub(crate) fn put_decided(out: &mut Vec<u8>, decided: Decided) -> Result<(), AllocError>
    ensures text { OnOk result (out.new.items ≡ out.old.items ++ decided_text decided) }
    ensures fits { OnOk result (DecidedFits decided) }
{
    match decided {
        Decided::Alternate(decision) => put_decision(out, decision),
        Decided::Waiting(waiting) => put_word(out, waiting_word(waiting)),
        Decided::Owner(acting) => put_acting(out, acting),
    }
}

/// Appends why a job ends.
pub(crate) fn put_ending(out: &mut Vec<u8>, why: EndWhy) -> Result<(), AllocError>
    ensures text { OnOk result (out.new.items ≡ out.old.items ++ ending_text why) }
    ensures fits { OnOk result (EndingFits why) }
{
    match why {
        EndWhy::Refused(inc) => put_numbered(out, b"REFUSED ", inc),
        EndWhy::NoActive => put_word(out, b"NOACTIVE"),
        EndWhy::SignedOff => put_word(out, b"SIGNEDOFF"),
        EndWhy::Dropped => put_word(out, b"DROPPED"),
        EndWhy::Normal => put_word(out, b"NORMAL"),
        EndWhy::Shutdown => put_word(out, b"SHUTDOWN"),
        EndWhy::Abandoned => put_word(out, b"ABANDONED"),
        EndWhy::MsgError => put_word(out, b"MSGERROR"),
        EndWhy::Format => put_word(out, b"FORMAT"),
    }
}
