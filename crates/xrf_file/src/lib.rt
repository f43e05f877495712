//! The units of a job: which are open, what each has put, the locks that follow, and the answers to
//! the items on them. Only `Units::new` takes memory.
#![tactic(auto)]

mod answers;
mod ledgers;
mod rows;
#[cfg(test)]
mod tests;

pub use answers::Plan;
pub use ledgers::Units;
pub use rows::{LoggedPut, OpenUnit};
