//! A block of the log, as it is handed to a job.

ghost use Rattle.std.specs.Prelude.{◌≡◌};

use std::marker::Model;

/// The 64 slots of a block of the log, lent. Contracts see its 4,096 bytes.
#[derive(Drop)]
pub struct Block<'a> {
    bytes: &'a [u8; 4096],
}

impl<'a> Model for Block<'a> {
    ghost use Rattle.std.specs.Prelude.{ℕ, List};

    ghost Value = { List ℕ };

    ghost view = { λ block. block.bytes.now };
}

impl<'a> Block<'a> {
    /// Lends a block.
    pub fn new(bytes: &'a [u8; 4096]) -> Block<'a>
        ensures { result ≡ bytes.now }
    {
        Block { bytes }
    }

    /// Its bytes.
    pub fn bytes(&self) -> &[u8; 4096]
        ensures { result.now ≡ self.now }
    {
        self.bytes
    }
}
