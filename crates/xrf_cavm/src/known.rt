//! What is confirmed.

/// Whether the owner and the alternate of a control record are confirmed as ended.
#[derive(Clone, Copy, Debug, PartialEq, Eq)]
pub struct Known {
    pub owner: bool,
    pub alt: bool,
}
