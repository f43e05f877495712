//! The parts of a control record.

use xrf_base::{Inc, Site};

/// How the owner stands: at work, or signed off in one of three ways.
#[derive(Clone, Copy, Debug, PartialEq, Eq)]
pub enum OwnerState {
    Running,
    OffNormal,
    OffAbend,
    OffTakeover,
}

/// Why an alternate takes over.
#[derive(Clone, Copy, Debug, PartialEq, Eq)]
pub enum Cause {
    /// The owner's signal was lost.
    Lost = 1,
    /// The owner signed off after an abnormal end.
    Abend = 2,
    /// The owner signed off for a takeover.
    Shutdown = 3,
    /// An operator commanded it.
    Command = 4,
}

/// The region that owns the data sets, or owned them last.
#[derive(Clone, Copy, Debug, PartialEq, Eq)]
pub struct Owner {
    pub inc: Inc,
    pub site: Site,
    pub state: OwnerState,
}

/// The region that stands by.
#[derive(Clone, Copy, Debug, PartialEq, Eq)]
pub struct Alt {
    pub inc: Inc,
    pub site: Site,
}

/// A takeover that the alternate has started.
#[derive(Clone, Copy, Debug, PartialEq, Eq)]
pub struct Taking {
    pub inc: Inc,
    pub cause: Cause,
}

/// The level of a region's program. Level one knows format 1 of the control record alone.
#[derive(Clone, Copy, Debug, PartialEq, Eq)]
pub enum Level {
    One,
    Two,
}
