//! Where a job is in a sequence of acts.

ghost use Rattle.std.specs.Prelude.{◌≡◌};
ghost use Rattle.xrf_job.specs.Stages.{inside_of};

use xrf_base::{UnitId, Value};
use xrf_ctl::{Control, Signal};
use xrf_history::{EndWhy, Want};
use xrf_logrec::{Keypoint, LogRec, Undo};
use xrf_msg::Message;

/// The next act of the sequence that a job is in. An act that reads or looks at a gate keeps what is to
/// be written after it.
#[derive(Clone, Copy)]
pub enum Stage {
    /// It is in no sequence.
    Boundary,
    Reserve,
    CtlRead,
    CtlWrite(Control),
    Release,
    Ended(EndWhy),
    Signal2(Signal),
    Look1,
    Look2,
    Decide,
    MsgClose(u32, Message),
    MsgBody(u32, Message),
    MsgOpen(u32, Message),
    LogLook(u32, LogRec),
    LogClose(u32, LogRec),
    LogBody(u32, LogRec),
    LogOpen(u32, LogRec),
    KpClose(u8, Keypoint),
    KpBody(u8, Keypoint),
    KpOpen(u8, Keypoint),
    FileRead(u16),
    FileWrite(UnitId, u16, Value),
    Undo(Undo),
}

impl Stage {
    /// The act, none at a boundary.
    #[inline(always)]
    pub fn act(&self) -> Option<Want>
        ensures { result ≡ inside_of self.now }
    {
        Some(match *self {
            Stage::Boundary => return None,
            Stage::Reserve => Want::Reserve,
            Stage::CtlRead => Want::CtlRead,
            Stage::CtlWrite(written) => Want::CtlWrite(written),
            Stage::Release => Want::Release,
            Stage::Ended(why) => Want::Ended(why),
            Stage::Signal2(signal) => Want::Signal2(signal),
            Stage::Look1 => Want::Look1,
            Stage::Look2 => Want::Look2,
            Stage::Decide => Want::Decide,
            Stage::MsgClose(place, _) => Want::MsgClose(place),
            Stage::MsgBody(place, message) => Want::MsgBody(place, message),
            Stage::MsgOpen(place, message) => Want::MsgOpen(place, message),
            Stage::LogLook(place, _) => Want::LogLook(place),
            Stage::LogClose(place, _) => Want::LogClose(place),
            Stage::LogBody(place, record) => Want::LogBody(place, record),
            Stage::LogOpen(place, record) => Want::LogOpen(place, record),
            Stage::KpClose(place, _) => Want::KpClose(place),
            Stage::KpBody(place, keypoint) => Want::KpBody(place, keypoint),
            Stage::KpOpen(place, keypoint) => Want::KpOpen(place, keypoint),
            Stage::FileRead(rrn) => Want::FileRead(rrn),
            Stage::FileWrite(unit, rrn, value) => Want::FileWrite(unit, rrn, value),
            Stage::Undo(undo) => {
                let before = undo.before;
                Want::Undo(undo.rrn, before)
            }
        })
    }
}
