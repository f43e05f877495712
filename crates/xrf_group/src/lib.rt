//! A coordinator and its dependents: several pairs, of which the first orders the takeovers of the others.
#![tactic(auto)]

mod laws;

pub use laws::groups_keep;
