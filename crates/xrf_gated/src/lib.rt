//! Extents of bytes, and slots with a gate byte.
//!
//! A gated slot is 64 bytes: a gate and a body of 63. The gate 0xc1 is open, and every other byte is
//! closed. A record is written in three steps, so that a stop in the middle of any of them leaves no
//! open slot with a torn body: the gate is closed where it was open, the body is written, and the gate
//! is opened. `Slots` keeps the fact that this order rests on: an open slot has a whole body.
#![tactic(auto)]

mod extents;
mod gated;
#[cfg(test)]
mod tests;

pub use extents::Extent;
pub use gated::{BodyRule, GatePlan, OPEN, Slot, Slots, gate_plan};
