//! What a run has come to, for a report.

use xrf_base::{Inc, ItemAnswer};

/// The state of the job at a site, with its incarnation.
#[derive(Clone, Copy, Debug, PartialEq, Eq)]
pub enum JobState {
    /// No job is at the site.
    Absent,
    /// It has no incarnation yet.
    Starting,
    /// An owner before RESTARTED.
    Restarting(Inc),
    /// An owner after RESTARTED.
    Active(Inc),
    /// An alternate that is not waiting.
    Tracking(Inc),
    /// An alternate that has started a takeover.
    Waiting(Inc),
    /// A sign-off is due or begun, or the alternate is leaving.
    Ending(Inc),
}

/// What has become of an item that was taken.
#[derive(Clone, Copy, PartialEq, Eq)]
pub enum ItemState {
    Answered(ItemAnswer),
    /// It is not answered yet.
    Pending,
    /// The job that took it is gone, and it was not answered.
    Lost,
}

/// Numbers of the unit log: its records, the units that are committed, and those in flight.
#[derive(Clone, Copy, Debug, PartialEq, Eq)]
pub struct LogCounts {
    pub records: u32,
    pub committed: u32,
    pub flight: u32,
}
