//! The two places of a pair, and how a region is told apart from the one before it.

/// The place of a region. Each site runs one region at most.
#[derive(Clone, Copy, Debug, PartialEq, Eq)]
pub enum Site {
    A,
    B,
}

/// The number of a region's incarnation, from 1 in the order of sign-on. 0 stands for none.
pub type Inc = u32;

/// Seconds since the scenario began.
pub type Tick = u32;

/// What an alternate may do by itself when it misses the active: take over, ask the operator, or
/// wait for a command.
#[derive(Clone, Copy, Debug, PartialEq, Eq)]
pub enum Takeovr {
    Auto,
    Manual,
    Command,
}
