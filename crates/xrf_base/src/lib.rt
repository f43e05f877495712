//! Names, values, work items and limits: what every part of the pair speaks of.
#![tactic(auto)]

mod blanks;
pub mod items;
pub mod limits;
pub mod names;
pub mod numbers;
pub mod site;
pub mod values;
mod zeros;

pub use blanks::padded_array;
pub use items::{Item, ItemAnswer, UnitId};
pub use limits::Limits;
pub use names::Name8;
pub use site::{Inc, Site, Takeovr, Tick};
pub use values::Value;
pub use zeros::is_zero_from;

#[cfg(test)]
mod tests;
