//! Why a text is not read.

use std::alloc::AllocError;
use thiserror::Error;
use xrf_grammar::Reason;

/// Why a text is not read.
#[derive(Debug, Drop, Error)]
pub enum ReadBad {
    /// The first bad line, counted from 1, and its first reason.
    #[error("line {line}: {reason:?}")]
    Bad { line: u32, reason: Reason },
    #[error("out of memory")]
    NoMemory,
}

impl From<AllocError> for ReadBad {
    ghost use Rattle.std.specs.Prelude.{◌≡◌};
    ghost use Rattle.xrf_scenario.specs.declared.read_bad.ReadBad.TheVariants.{NoMemory};

    ghost from_gives = { λ _ e. e ≡ NoMemory };

    fn from(_error: AllocError) -> ReadBad {
        ReadBad::NoMemory
    }
}
