// Where bytes come from.
ghost use Rattle.std.specs.Prelude.{◌≡◌, ◌≤◌, ◌<◌, ◌↔◌, length, IfOk, IfSome, OnErr, IsErrOf};
ghost use Rattle.std.specs.Io.KnownBytes.{ReadConsumes};
ghost use Rattle.xrf_edge.specs.Ends.{End, ReadToEnd, TakesPrefix, came};
ghost use Rattle.xrf_edge.specs.Faults.{HasRisen};

use crate::Failed;
use std::alloc::Global;
use thiserror::Error;

/// How many bytes are asked for at once.
const PIECE: usize = 4096;

/// A source of bytes. It may tell the bytes that it has left, and it counts its faults.
pub trait Source {
    /// The bytes that reads have not taken, where the source tells them, and how often it has
    /// failed. The count never falls, and stays at 2^64 - 1.
    ghost end: { Self → End };

    /// Takes the next bytes into the front of the slice, and answers how many. It answers 0 with
    /// room in the slice only at the end. Where it fails it takes nothing.
    fn read(&mut self, into: &mut [u8]) -> Result<usize, Failed>
        ensures within { IfOk result (λ n. n ≤ length into.new) }
        ensures bytes { ReadConsumes (end self.old).bytes (end self.new).bytes result into.new }
        ensures cause { OnErr result (HasRisen (end self.old).faults (end self.new).faults) }
        ensures count { (end self.old).faults ≤ (end self.new).faults };
}

/// Why a source could not be read to its end.
#[derive(Clone, Copy, Debug, PartialEq, Eq, Error)]
pub enum ReadError {
    /// The source failed.
    #[error("the source failed")]
    Fault,
    /// More bytes came than are allowed.
    #[error("too many bytes")]
    TooLarge,
    /// There is no memory for the bytes.
    #[error("out of memory")]
    NoMemory,
}

/// Reads a source to its end: at most `max` bytes. After an error a front part of what was left
/// has been taken.
pub fn read_all<S: Source>(alloc: Global, source: &mut S, max: usize) -> Result<Vec<u8>, ReadError>
    // Ok is all that was left.
    ensures all { IfOk result (λ bytes. ReadToEnd (S.end source.old).bytes (S.end source.new).bytes bytes.items) }
    ensures allowed { IfOk result (λ bytes. length bytes.items ≤ max) }

    // Each error has its cause. Want of memory is free.
    ensures fault { IsErrOf result ReadError.Fault → HasRisen (S.end source.old).faults (S.end source.new).faults }
    ensures too_large { IfSome (S.end source.old).bytes (λ _.
        IsErrOf result ReadError.TooLarge ↔ (max < came (S.end source.old).bytes (S.end source.new).bytes)) }

    ensures err { OnErr result (TakesPrefix (S.end source.old).bytes (S.end source.new).bytes) }
    ensures count { (S.end source.old).faults ≤ (S.end source.new).faults }
{
    let mut bytes = Vec::new(alloc);
    let mut piece = [0u8; PIECE];
    loop {
        let n = match source.read(&mut piece) {
            Ok(n) => n,
            Err(Failed) => return Err(ReadError::Fault),
        };
        if n == 0 {
            return Ok(bytes);
        }
        if n > max - bytes.len() {
            return Err(ReadError::TooLarge);
        }
        if bytes.extend_from_slice(&piece[..n]).is_err() {
            return Err(ReadError::NoMemory);
        }
    }
}
