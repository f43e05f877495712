//! The threaded run: a worker for each site and one for the environment make their turns on one pair under a lock.
#![tactic(auto)]

pub mod gate;
mod shared;
pub mod steps;
mod threads;
pub mod turn;

pub use gate::{Actor, Gate, OpenGate};
pub use shared::{RunName, Shared};
pub use threads::{TURNS, live};
pub use turn::Turn;

#[cfg(test)]
mod judge;
#[cfg(test)]
mod tests;
