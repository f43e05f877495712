//! Worked runs of several hundred acts: that these choices run to this trace, and that it is safe, by computing.
#![tactic(auto)]

pub mod runs;
