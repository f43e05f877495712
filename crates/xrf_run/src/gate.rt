//! The gate that a worker passes before each of its turns.

/// Who makes a turn.
#[derive(Clone, Copy, Debug, PartialEq, Eq)]
pub enum Actor {
    SiteA,
    SiteB,
    Environment,
}

/// What a worker passes before each of its turns, which are numbered from 1 for each actor. It always returns: one that
/// holds a turn back tries a stated number of times.
pub trait Gate {
    fn pass(&self, actor: Actor, turn: u32);
}

/// The gate that holds no turn back.
#[derive(Clone, Copy, Debug)]
pub struct OpenGate;

impl Gate for OpenGate {
    fn pass(&self, _actor: Actor, _turn: u32) {}
}
