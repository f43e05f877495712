//! The forms of the lines of a scenario, and the parts of which a form is made.

use crate::keyword::Keyword;
use crate::quantity::Quantity;
use crate::reason::Reason;
use xrf_base::Takeovr;
use xrf_cebt::Cebt;
use xrf_exit::ExitAnswer;

/// One part of a form, which is one word of a line.
#[derive(Clone, Copy)]
pub enum Part {
    /// A keyword, and the reason of another word in its place.
    Keyword(Keyword, Reason),
    /// A keyword that is refused in its place, with the reason.
    Refused(Keyword, Reason),
    /// A or B.
    Site,
    /// A number from the first to the second.
    Number(u16, u16),
    /// A multiple of the third, from the first to the second.
    Multiple(u16, u16, u16),
    Name,
    Value,
    /// 1 to 63 bytes in hex.
    Hex,
    /// Any words, at least one, to the end of the line.
    Words,
}

/// The forms of a work item.
#[derive(Clone, Copy, PartialEq, Eq)]
pub enum ItemForm {
    Begin,
    Put,
    Get,
    Commit,
    Roll,
    Logon,
    Logoff,
    Signon,
    Signoff,
    Shutdown,
    ShutdownTakeover,
}

/// The forms of a choice. In `Reply` true is GO.
#[derive(Clone, Copy, PartialEq, Eq)]
pub enum ChoiceForm {
    Tick,
    /// TICK and a count.
    TickTimes,
    Step,
    /// STEP and a count.
    StepTimes,
    Lose,
    StopNothing,
    StopAll,
    StopTorn,
    FailNothing,
    FailAll,
    FailTorn,
    StartActive,
    StartStandby,
    Abend,
    Confirm,
    Reply(bool),
    Cebt(Cebt),
    Exit(ExitAnswer),
}

/// The forms of all lines behind the header.
#[derive(Clone, Copy, PartialEq, Eq)]
pub enum Form {
    Applid,
    Takeovr(Takeovr),
    Quantity(Quantity),
    /// True is ON.
    Images(bool),
    Level,
    /// True is FORCE.
    Xrfsoff(bool),
    Record,
    CltCancel,
    CltCommand,
    CltWto,
    Work(ItemForm),
    Plan(ChoiceForm),
    Choices,
    Choice(ChoiceForm),
    End,
}
