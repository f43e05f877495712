//! The messages by which an active tells its alternate of its terminals, and the numbers of the
//! writer and of the reader of these messages. No call takes memory.
#![tactic(auto)]

mod messages;
mod reader;
mod writer;

pub use messages::{Message, MsgBody};
pub use reader::Reader;
pub use writer::Writer;

#[cfg(test)]
mod tests;
