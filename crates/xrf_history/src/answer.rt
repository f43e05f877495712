//! What a job is answered.

use crate::block::Block;
use xrf_base::{Item, Tick};
use xrf_cavm::Known;
use xrf_cebt::Cebt;
use xrf_ctl::{Control, Signal};
use xrf_exit::ExitAnswer;

/// What a job is handed: with its act, or by a tick or a choice that reaches it.
#[derive(Drop)]
pub enum Answer<'a> {
    /// A second has passed.
    Tick(Tick),
    /// The act is made, at this tick.
    Done(Tick),
    /// The control record, and what of it is confirmed as ended.
    Ctl(Control, Known),
    /// The control record and the other site's signal beside it.
    Look1(Control, Option<Signal>),
    /// The other site's signal in the message data set.
    Look2(Option<Signal>, Tick),
    /// What of the record of the last look is confirmed as ended.
    Decide(Known, Tick),
    /// A slot of the message data set.
    MsgSlot([u8; 64]),
    /// A block of the log.
    LogBlock(Block<'a>),
    /// The first block of the log that a restart reads, and both keypoint slots.
    Anchored(Block<'a>, [u8; 128]),
    /// The gate of a slot.
    Gate(u8),
    /// The slot of a file record.
    FileSlot([u8; 32]),
    /// The item taken.
    Item(Item),
    /// The status exit answers.
    Exit(ExitAnswer, Tick),
    /// The region ends abnormally.
    Abend,
    /// The operator says go, or to go on waiting.
    Reply(bool, Tick),
    /// An operator's command.
    Cebt(Cebt, Tick),
    /// The act failed.
    Failed(Tick),
}
