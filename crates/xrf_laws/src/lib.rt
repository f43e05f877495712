//! The headline over definitions: every run of a scenario is safe and keeps the promises. It has no code; its proof is
//! the clause of an empty function, from the laws of the owner, of the log, of the messages and of conduct.
#![tactic(auto)]

mod laws;

pub use laws::runs_are_safe;
