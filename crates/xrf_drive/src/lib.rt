//! The generated run: a scenario of its own, and choices that a generator of random numbers draws.
#![tactic(auto)]

mod drawing;
mod driving;
mod scenario;
#[cfg(test)]
mod tests;

pub use driving::drive;
