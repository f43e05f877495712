//! The entries of a trace.

use xrf_base::{Inc, Tick, UnitId, Value};
use xrf_cavm::Decided;
use xrf_cebt::{Cebt, CebtReply};
use xrf_ctl::{Control, Signal};
use xrf_exit::ExitAnswer;
use xrf_history::EndWhy;
use xrf_logrec::{Keypoint, LogRec};
use xrf_msg::Message;
use xrf_setup::Landing;

/// What an accepted choice did: at which tick, at which site, by which incarnation (0 where it has none), by
/// which act, and what of it landed.
#[derive(Clone, Copy)]
pub struct Entry {
    pub tick: Tick,
    pub who: Who,
    pub inc: Inc,
    pub act: Act,
    pub land: Land,
}

/// The site of an entry, or none: a tick and a confirmation belong to no site.
#[derive(Clone, Copy, Debug, PartialEq, Eq)]
pub enum Who {
    A,
    B,
    Env,
}

/// How an act landed.
#[derive(Clone, Copy)]
pub enum Land {
    /// It was made in full.
    Full,
    /// A signal that was lost; the job does not know.
    Lost,
    /// The region stopped inside it.
    Stop(Landing),
    /// The device failed it; the job knows.
    Fail(Landing),
}

/// An act. Slots, blocks and log records are numbered from 0, file records, items and lines of the command
/// list from 1.
#[derive(Clone, Copy)]
pub enum Act {
    Tick,
    StartActive,
    StartStandby,
    Abend,
    Confirm(Inc),
    /// The operator's reply: GO, or IGNORE.
    Reply(bool),
    Cebt(Cebt, CebtReply),
    Exit(ExitAnswer),
    Reserve,
    CtlRead,
    CtlWrite(Control),
    Release,
    Signal1(Signal),
    Signal2(Signal),
    Look1,
    Look2,
    Decide(Decided),
    MsgRead(u32),
    MsgClose(u32),
    MsgBody(u32, Message),
    MsgOpen(u32, Message),
    LogRead(u32),
    LogLook(u32),
    LogClose(u32),
    LogBody(u32, LogRec),
    LogOpen(u32, LogRec),
    KpRead(u8),
    KpClose(u8),
    KpBody(u8, Keypoint),
    KpOpen(u8, Keypoint),
    FileRead(u16),
    FileWrite(UnitId, u16, Value),
    Undo(u16, [u8; 32]),
    Item(u32),
    Clt(u16),
    Restarted,
    Ended(EndWhy),
    /// A stop where the next act is no write.
    NoAct,
}

/// Why a choice is refused.
#[derive(Clone, Copy, Debug, PartialEq, Eq)]
pub enum Refused {
    /// The job can't do it now, or no job is there.
    NotEnabled,
    /// The confirmed incarnation is not given yet, or a job holds it.
    Dishonest,
    /// The torn bytes are not as many as the write has.
    TornLength,
    /// The status exit may not answer so.
    NotAllowed,
}
