//! The records of the unit log and of its keypoints, as values and as bytes. Each record has one
//! spelling, and no call takes memory.
#![tactic(auto)]

mod keypoints;
mod records;
#[cfg(test)]
mod tests;

pub use keypoints::{KeyBody, Keypoint};
pub use records::{LogBody, LogRec, Undo};
