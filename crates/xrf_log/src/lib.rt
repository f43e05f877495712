//! The scan of a restart over the unit log: from the anchor on it takes the records of the log, and
//! gives the units in flight and what undoes their puts. Only `Scan::new` takes memory.
#![tactic(auto)]

mod reading;
mod restart;
mod taken;
#[cfg(test)]
mod tests;

pub use restart::{Scan, ScanNext, room};
