//! What the lines of a text say, line by line.

ghost use Rattle.std.specs.Prelude.{◌≡◌, IfOk, None, replicate};
ghost use Rattle.xrf_scenario.specs.SoFar.{nothing_said, nothing_given};

use crate::given::Given;
use crate::last_choice::LastChoice;
use crate::numbered::Numbered;
use crate::section::Section;
use std::alloc::{AllocError, Global};
use std::marker::Model;
use xrf_base::{Item, Tick, Value};
use xrf_clt::Clt;
use xrf_grammar::QUANTITIES;
use xrf_setup::ranges::FILE_MOST;
use xrf_setup::{Choice, Format};

/// A text that is being read, seen by contracts as what its lines so far say.
#[derive(Drop)]
pub struct Reading<'a> {
    /// The section of the text that the next line is of.
    pub section: Section,
    pub format: Format,
    pub given: Given,
    /// A place for each record there may be: record n stands at n - 1.
    pub records: Vec<Option<Value>>,
    pub clt: Clt,
    pub work_a: Vec<Item>,
    pub work_b: Vec<Item>,
    pub plan: Vec<(Tick, Choice)>,
    pub choices: Vec<Numbered>,
    /// The last of the lines that say a choice once.
    pub last_choice: LastChoice<'a>,
}

impl<'a> Model for Reading<'a> {
    ghost use Rattle.xrf_scenario.specs.SoFar.{SoFar};

    ghost Value = { SoFar };

    ghost use Rattle.xrf_scenario.specs.Held.{held};
    ghost use Rattle.xrf_scenario.specs.Said.{IsSaid};

    ghost view = { held };

    ghost invariant = { λ r. IsSaid (held r) };
}

const NOTHING_GIVEN: Given = Given {
    applid_a: None,
    applid_b: None,
    takeovr: None,
    quantities: [None; QUANTITIES],
    images: None,
    level_a: None,
    level_b: None,
    force: None,
};

// the places of the records, all empty
fn empty_places(alloc: Global) -> Result<Vec<Option<Value>>, AllocError>
    ensures { IfOk result (λ places. places.items ≡ replicate FILE_MOST None) }
{
    let mut places = Vec::with_capacity(alloc, FILE_MOST as usize)?;
    for count in 0..FILE_MOST {
        places.push_reserved(None);
    }
    Ok(places)
}

impl<'a> Reading<'a> {
    /// A reading of no line.
    pub fn new(alloc: Global) -> Result<Reading<'a>, AllocError>
        ensures { IfOk result (λ r. r ≡ nothing_said) }
    {
        Ok(Reading {
            section: Section::Start,
            format: Format::One,
            given: NOTHING_GIVEN,
            records: empty_places(alloc)?,
            clt: Clt::new(alloc),
            work_a: Vec::new(alloc),
            work_b: Vec::new(alloc),
            plan: Vec::new(alloc),
            choices: Vec::new(alloc),
            last_choice: LastChoice::none(),
        })
    }
}
