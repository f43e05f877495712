//! Work items, and what they are answered.

use crate::names::Name8;
use crate::site::Inc;
use crate::values::Value;

/// A unit of work: the incarnation that began it, and its place among the units of that
/// incarnation, from 1.
#[derive(Clone, Copy, PartialEq, Eq)]
pub struct UnitId {
    pub inc: Inc,
    pub serial: u32,
}

/// One item of a site's work list. Items on a unit name the unit first.
#[derive(Clone, Copy, PartialEq, Eq)]
pub enum Item {
    Begin(Name8),
    /// The unit, the record number and the value.
    Put(Name8, u16, Value),
    /// The unit and the record number.
    Get(Name8, u16),
    Commit(Name8),
    Roll(Name8),
    /// The terminal and its class, 1 to 3.
    Logon(Name8, u8),
    Logoff(Name8),
    /// CEMT SHUTDOWN.
    Shutdown,
    /// CEMT SHUTDOWN TAKEOVER.
    ShutdownTakeover,
    /// The terminal and the user.
    Signon(Name8, Name8),
    Signoff(Name8),
}

/// What an item is answered.
#[derive(Clone, Copy, PartialEq, Eq)]
pub enum ItemAnswer {
    Done,
    Got(Value),
    /// The record is not there.
    Empty,
    /// Another open unit has put the record.
    Locked,
    LogFull,
    /// No unit of this name is open.
    NotOpen,
    /// A unit of this name is open.
    NameUsed,
    UnitsFull,
    /// The record number is 0 or above FILE.
    BadRrn,
    /// The terminal is logged on.
    TermUsed,
    TermsFull,
    /// The terminal is not logged on.
    NotOn,
    /// A user is signed on at the terminal.
    UserOn,
    NoUser,
}
