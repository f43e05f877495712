//! The job of a region that was started as standby: of an alternate, and of the owner that it becomes.
#![tactic(auto)]

mod alternate;
mod commands;
mod due;
mod let_through;
mod messages;
mod promoting;
mod reserving;
mod role;
mod rounds;
mod standby;
mod taking;

pub use standby::Standby;
pub use xrf_active::{Active, Answer, EndWhy, Rooms, Settings, Want};

#[cfg(test)]
mod harness;
#[cfg(test)]
mod tests;
