//! The settings of a scenario.

use crate::format::Format;
use xrf_base::{Name8, Takeovr};
use xrf_ctl::Level;

/// The settings of a scenario, at what its text gives or at their defaults.
#[derive(Clone, Copy)]
pub struct Settings {
    pub format: Format,
    pub applid_a: Name8,
    pub applid_b: Name8,
    pub takeovr: Takeovr,
    pub adi: u16,
    pub pdi: u16,
    pub log: u16,
    pub ring: u16,
    pub file: u16,
    pub pace: u16,
    pub ticks: u16,
    pub images: bool,
    pub level_a: Level,
    pub level_b: Level,
    /// Whether XRFSOFF is FORCE.
    pub force: bool,
}
