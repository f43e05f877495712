//! The CEBT commands, by which the operator speaks to the alternate, and their replies.
#![tactic(auto)]

pub mod commands;
pub mod replies;

pub use commands::{Cebt, CebtFault};
pub use replies::{CebtReply, reply};
