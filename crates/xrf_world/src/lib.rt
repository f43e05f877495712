//! The pair at work: two sites, the data sets and the journal of what happened, one choice at a time.
#![tactic(auto)]

mod choosing;
mod confirming;
mod counts;
mod images;
mod items;
mod job;
mod journal;
mod log_count;
mod making;
mod middle;
mod pair;
mod place;
mod reaching;
mod readers;
mod reading;
mod refused;
mod refusing;
mod resting;
mod seat;
mod settings;
mod starting;
mod state;
mod steps;
mod stopping;
mod wants;
mod world;

pub use images::ImageBytes;
pub use state::{ItemState, JobState, LogCounts};
pub use world::World;
