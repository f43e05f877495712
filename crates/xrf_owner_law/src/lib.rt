//! The law of the owner: what holds of the control record and the jobs of every run. It has no code; its proof is the
//! clause of an empty function.
#![tactic(auto)]

mod laws;

pub use laws::owner_law;
