//! The settings that a job is started with.

use xrf_base::{Limits, Site, Takeovr};
use xrf_ctl::Level;

/// The settings of a job.
#[derive(Clone, Copy)]
pub struct Settings {
    /// The site at which it runs.
    pub site: Site,
    /// The sizes of the data sets.
    pub limits: Limits,
    /// What it may do by itself when it misses the active.
    pub takeovr: Takeovr,
    /// After how many ticks without a change it misses the active.
    pub adi: u32,
    /// After how many ticks without a change it misses its alternate.
    pub pdi: u32,
    /// The lines of the command list that it issues at a takeover.
    pub clt_lines: u16,
    /// The level of its program.
    pub level: Level,
    /// Whether a takeover signs all users off.
    pub force: bool,
}
