//! The law of conduct: how the jobs of every run act. It has no code; its proof is the clause of an empty function.
#![tactic(auto)]

mod laws;

pub use laws::conduct_law;
