//! The choices of a run.

use crate::torn::TornBytes;
use xrf_base::{Inc, Site};
use xrf_cebt::Cebt;
use xrf_exit::ExitAnswer;

/// What of a write reaches the data set when its region stops inside it, or when the device fails.
#[derive(Clone, Copy)]
pub enum Landing {
    Nothing,
    All,
    /// These bytes in place of its own.
    Torn(TornBytes),
}

/// One choice: a second that passes, what a region does, or what happens to it.
#[derive(Clone, Copy)]
pub enum Choice {
    Tick,
    /// The job makes its next act.
    Step(Site),
    /// The job writes a signal that is lost.
    Lose(Site),
    /// The region stops, inside a write with this landing.
    Stop(Site, Landing),
    StartActive(Site),
    StartStandby(Site),
    /// The region ends abnormally, and signs off.
    Abend(Site),
    /// It is confirmed that this incarnation has ended.
    Confirm(Inc),
    /// The operator replies GO, or IGNORE.
    Reply(Site, bool),
    Cebt(Site, Cebt),
    Exit(Site, ExitAnswer),
    /// The device fails the job's next act, with this landing.
    Fail(Site, Landing),
}
