//! The sizes of a pair's data sets.

/// The settings that size the data sets. A call that takes them wants them in range:
/// `log` 64 to 1,024 and a multiple of 64, `ring` 2 to 64, `file` 1 to 256.
#[derive(Clone, Copy, Debug, PartialEq, Eq)]
pub struct Limits {
    /// Slots of the unit log.
    pub log: u16,
    /// Slots of the message data set.
    pub ring: u8,
    /// Records of the file.
    pub file: u16,
}
