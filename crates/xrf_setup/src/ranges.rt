//! The ranges of the numbers of a scenario and its choices, and how many of each there are at most.

/// ADI and PDI, in seconds.
pub const INTERVAL_LEAST: u16 = 5;

pub const INTERVAL_MOST: u16 = 3600;

/// LOG, which is a multiple of the unit.
pub const LOG_LEAST: u16 = 64;

pub const LOG_MOST: u16 = 1024;

pub const LOG_UNIT: u16 = 64;

/// RING.
pub const RING_LEAST: u16 = 2;

pub const RING_MOST: u16 = 64;

/// FILE, and the number of a first record, which is also at most FILE.
pub const FILE_LEAST: u16 = 1;

pub const FILE_MOST: u16 = 256;

/// PACE.
pub const PACE_LEAST: u16 = 10;

pub const PACE_MOST: u16 = 200;

/// TICKS, and the tick of a planned choice: from 0.
pub const TICKS_MOST: u16 = 200;

/// The record number of a PUT or GET, and the number of a confirmed incarnation: from 0.
pub const NUMBER_MOST: u16 = 65535;

/// The class of a terminal.
pub const CLASS_LEAST: u16 = 1;

pub const CLASS_MOST: u16 = 3;

/// Torn bytes.
pub const TORN_MOST: usize = 63;

/// Lines of the command list.
pub const CLT_MOST: usize = 100;

/// Work items of a site.
pub const ITEMS_MOST: usize = 2000;

/// Planned choices.
pub const PLAN_MOST: usize = 500;

/// Choices of a run.
pub const CHOICES_MOST: usize = 8192;

/// Bytes of a line.
pub const LINE_MOST: usize = 300;

/// Bytes of an input.
pub const INPUT_MOST: usize = 4_194_304;
