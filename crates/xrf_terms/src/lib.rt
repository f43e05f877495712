//! The table of terminals that are logged on, or that an alternate tracks. After its making no call
//! takes memory.
#![tactic(auto)]

mod changes;
mod rows;
mod table;

pub use rows::{Applied, How, Row};
pub use table::TermTable;

#[cfg(test)]
mod tests;
