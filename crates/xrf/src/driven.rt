//! The word `drive`: the summary of the generated run.

ghost use Rattle.std.specs.Prelude.{◌≡◌, ◌≤◌, IfOk};
ghost use Rattle.xrf.specs.Driven.{Driven, IsSummary};

use crate::drive_words::Asked;
use crate::status::Status;
use crate::top::write_text;
use std::alloc::{AllocError, Global};
use xrf_edge::Sink;
use xrf_report::summary;
use xrf_setup::ranges::CHOICES_MOST;

fn summary_of(alloc: Global, asked: Asked) -> Result<Vec<u8>, AllocError>
    requires few { asked.turns ≤ CHOICES_MOST }
    ensures { IfOk result (λ text. IsSummary asked text.items) }
{
    let world = xrf_drive::drive(alloc, asked.seed, asked.turns)?;
    summary(alloc, asked.seed, asked.turns, &world)
}

/// Writes the summary of the generated run of a seed and so many turns.
pub fn drive<K: Sink>(alloc: Global, asked: Asked, sink: &mut K) -> Status
    requires few { asked.turns ≤ CHOICES_MOST }
    ensures { Driven asked (K.end sink.old) (K.end sink.new) result }
{
    match summary_of(alloc, asked) {
        Ok(text) => write_text(sink, &text, Status::Done),
        Err(_) => Status::NoMemory,
    }
}
