//! The law of the log: what holds of the log, the keypoints and the file of every run. It has no code; its proof is the
//! clause of an empty function.
#![tactic(auto)]

mod laws;

pub use laws::log_law;
