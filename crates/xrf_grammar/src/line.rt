//! What one line says.

use crate::quantity::Quantity;
use xrf_base::{Item, Name8, Site, Takeovr, Value};
use xrf_setup::Choice;

/// What one line behind the header says.
#[derive(Clone, Copy)]
pub enum Line {
    Applid(Site, Name8),
    Takeovr(Takeovr),
    Quantity(Quantity, u16),
    Images(bool),
    Level(Site, u16),
    /// True is FORCE.
    Xrfsoff(bool),
    /// A first record.
    Record(u16, Value),
    /// A line of the command list: what it says stands in the words behind the first.
    Clt,
    /// The next item of a site.
    Work(Site, Item),
    /// A choice, and the tick for which it is planned.
    Plan(u16, Choice),
    /// The choices follow.
    Choices,
    Once(Choice),
    /// A choice and its count.
    Times(Choice, u16),
    End,
}
