//! The data sets of the pair as real bytes: DFHXRCTL, DFHXRMSG, the log, KEY and the file.
//!
//! They stand for a trace (`StandsFor` of the specs): each part of them is that of the trace, byte for byte. What an
//! entry lands on them makes them stand for the trace with that entry, and what is read of them is the word of the
//! trace. After `DataSets::new` nothing here takes memory.
#![tactic(auto)]

mod control;
mod data_sets;
mod file;
mod keys;
mod landing;
mod log;
mod messages;
mod signals;
mod slots;
#[cfg(test)]
mod tests;

pub use data_sets::DataSets;
