//! The ends of the program: where its bytes come from and where they go.
//!
//! A [`Source`] and a [`Sink`] tell their bytes where they are known, and count their faults.
//! [`read_all`] reads a source to its end and [`write_all`] writes a text whole; each gives up only
//! for a fault that its end has counted, for want of memory, or for more bytes than are allowed.
//! The ends in memory tell every byte and fail at the calls that they are to fail at. The ends
//! over a reader and a writer of `std` tell no byte.
#![tactic(auto)]

mod faults;
mod memory;
mod sink;
mod source;
mod standard;

pub use faults::Failed;
pub use memory::{MemSink, MemSource};
pub use sink::{Sink, WriteFault, write_all};
pub use source::{ReadError, Source, read_all};
pub use standard::{StdSink, StdSource, TRIES};

#[cfg(test)]
mod tests;
