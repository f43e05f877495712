//! What a job wants to do next.

use xrf_base::{Inc, UnitId, Value};
use xrf_ctl::{Control, Signal};
use xrf_exit::Notice;
use xrf_logrec::{Keypoint, LogRec};
use xrf_msg::Message;

/// The next act of a job. Slots, blocks and log records are numbered from 0, file records and lines of
/// the command list from 1.
#[derive(Clone, Copy)]
pub enum Want {
    /// No act: it waits for a tick, a choice or the other site.
    Nothing,
    /// No act: it waits for the answer of the status exit.
    Exit(Notice),
    /// Reserve the control data set.
    Reserve,
    /// Read the control record.
    CtlRead,
    /// Write the control record.
    CtlWrite(Control),
    /// Release the control data set.
    Release,
    /// Write its signal beside the control record.
    Signal1(Signal),
    /// Write its signal in the message data set.
    Signal2(Signal),
    /// Read the control record and the other site's signal beside it.
    Look1,
    /// Read the other site's signal in the message data set.
    Look2,
    /// Decide by what it saw.
    Decide,
    /// Read a slot of the message data set.
    MsgRead(u32),
    /// Close a slot of the message data set.
    MsgClose(u32),
    /// Write a message behind the gate of a slot.
    MsgBody(u32, Message),
    /// Open the slot that holds a message.
    MsgOpen(u32, Message),
    /// Read a block of the log.
    LogRead(u32),
    /// Read the gate of the slot of a log record.
    LogLook(u32),
    /// Close the slot of a log record.
    LogClose(u32),
    /// Write a log record behind the gate of its slot.
    LogBody(u32, LogRec),
    /// Open the slot that holds a log record.
    LogOpen(u32, LogRec),
    /// Read the gate of a keypoint slot.
    KpRead(u8),
    /// Close a keypoint slot.
    KpClose(u8),
    /// Write a keypoint behind the gate of a slot.
    KpBody(u8, Keypoint),
    /// Open the slot that holds a keypoint.
    KpOpen(u8, Keypoint),
    /// Read the slot of a file record.
    FileRead(u16),
    /// Write a value to a file record, for a unit.
    FileWrite(UnitId, u16, Value),
    /// Write a before-image back to the slot of a file record.
    Undo(u16, [u8; 32]),
    /// Take the next item of the site's work.
    Item,
    /// Issue a line of the command list.
    Clt(u16),
    /// Declare that the restart is done.
    Restarted,
    /// End.
    Ended(EndWhy),
}

/// Why a job ends.
#[derive(Clone, Copy, Debug, PartialEq, Eq)]
pub enum EndWhy {
    /// The sign-on was refused: this incarnation stands in the way.
    Refused(Inc),
    /// The sign-on was refused: there is no active to stand by for.
    NoActive,
    /// The active signed off.
    SignedOff,
    /// The active dropped this alternate.
    Dropped,
    /// The active signed off normally.
    Normal,
    /// The shutdown of the alternate was commanded.
    Shutdown,
    /// The takeover that the alternate was to start was overtaken.
    Abandoned,
    /// A message slot could not be read.
    MsgError,
    /// The control record has a format that the job does not know.
    Format,
}
