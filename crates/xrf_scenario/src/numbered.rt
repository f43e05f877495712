//! A choice with its line.

use xrf_setup::Choice;

/// A choice and the number of its line, from 1.
#[derive(Clone, Copy)]
pub struct Numbered {
    pub choice: Choice,
    pub line: u32,
}
