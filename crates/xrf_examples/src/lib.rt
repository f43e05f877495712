//! Worked runs: that these choices run to this trace, by computation.
#![tactic(auto)]

pub mod refusals;
pub mod runs;
