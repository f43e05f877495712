//! The entries of a trace. What a trace says, which choices are accepted, the run,
//! and what is safe stand in specs/.
#![tactic(auto)]

pub mod entry;
mod laws;

pub use entry::{Act, Entry, Land, Refused, Who};
pub use laws::{
    acts_are_answered, books_are_at_each, journals_tell_choices, promises_come_to,
    refusals_change_nothing, runs_are_runs,
};
