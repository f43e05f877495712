//! The control record and the signal, as values and as bytes.
#![tactic(auto)]

pub mod control;
pub mod fault;
mod fields;
pub mod parts;
mod places;
mod reading;
mod rule;
pub mod signal;

pub use control::Control;
pub use fault::{CtlFault, Field};
pub use parts::{Alt, Cause, Level, Owner, OwnerState, Taking};
pub use signal::Signal;

#[cfg(test)]
mod tests;
