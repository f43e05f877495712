//! The law of the messages: what holds of the message slots and of what is sent and taken in every run. It has no code;
//! its proof is the clause of an empty function.
#![tactic(auto)]

mod laws;

pub use laws::message_law;
