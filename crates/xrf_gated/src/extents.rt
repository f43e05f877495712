ghost use Rattle.std.specs.Prelude.{◌≡◌, ◌+◌, ◌≤◌, length, replicate, IfOk};
ghost use Rattle.xrf_gated.specs.Landing.{landed, part};

use std::alloc::{AllocError, Global};
use std::marker::Model;

/// A range of bytes of fixed length, as a data set has it. Its value is the list of its bytes.
#[derive(Drop)]
pub struct Extent {
    bytes: Vec<u8>,
}

impl Model for Extent {
    ghost use Rattle.std.specs.Prelude.{List, ℕ};

    ghost Value = { List ℕ };

    ghost view = { λ extent. extent.bytes.items };
}

impl Extent {
    /// An extent of `len` bytes, all zero.
    pub fn new(alloc: Global, len: usize) -> Result<Extent, AllocError>
        ensures { IfOk result (λ extent. extent ≡ replicate len 0) }
    {
        let bytes = vec![in alloc; 0; len]?;
        Ok(Extent { bytes })
    }

    /// Reads the bytes from `at` on, as many as `into` takes.
    pub fn read(&self, at: usize, into: &mut [u8])
        requires { at + length into.old ≤ length self.now }
        ensures { into.new ≡ part self.now at (length into.old) }
    {
        into.copy_from_slice(&self.bytes[at..at + into.len()]);
    }

    /// Writes the bytes at `at`, and leaves every other byte as it was.
    pub fn land(&mut self, at: usize, from: &[u8])
        requires { at + length from.now ≤ length self.old }
        ensures { self.new ≡ landed self.old at from.now }
    {
        self.bytes[at..at + from.len()].copy_from_slice(from);
    }
}
