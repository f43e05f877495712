//! Why bytes are no control record.

use thiserror::Error;

/// A field of the control record, in the order in which a reader finds faults.
#[derive(Clone, Copy, Debug, PartialEq, Eq)]
pub enum Field {
    Eye,
    Format,
    Last,
    Owner,
    Alt,
    Taking,
    Reserved,
}

/// The first field whose bytes, or whose part of the record's rule, are at fault.
#[derive(Clone, Copy, Debug, PartialEq, Eq, Error)]
#[error("the control record is broken at {field:?}")]
pub struct CtlFault {
    pub field: Field,
}
