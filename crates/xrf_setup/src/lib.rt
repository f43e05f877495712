//! What a run is given: the scenario, and the choices that are made in it.
#![tactic(auto)]

pub mod choice;
pub mod format;
pub mod ranges;
pub mod scenario;
pub mod settings;
pub mod torn;

pub use choice::{Choice, Landing};
pub use format::Format;
pub use scenario::Scenario;
pub use settings::Settings;
pub use torn::TornBytes;

#[cfg(test)]
mod tests;
