//! The job of an owner, with its restart.
#![tactic(auto)]

mod active;
mod due;
mod failing;
mod items;
mod keypoints;
mod logging;
mod messages;
mod promoting;
mod reserving;
mod restart;
mod rounds;
mod sending;
mod taking;

pub use active::Active;
pub use xrf_history::{Answer, EndWhy, Settings, Want};
pub use xrf_job::Rooms;
