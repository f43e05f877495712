//! The formats of a scenario.

/// The format that the header of a scenario names.
#[derive(Clone, Copy, Debug, PartialEq, Eq)]
pub enum Format {
    /// XRF 1
    One,
    /// XRF 2
    Two,
}
