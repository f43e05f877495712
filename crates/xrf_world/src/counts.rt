//! What is counted of a trace: the tick, the confirmations, and the log.

ghost use Rattle.std.specs.Prelude.{◌≡◌, ◌==◌, ◌<◌, ◌||◌, ◌&&◌, ℕ, Bool, false, is_some, List, [], ◌∷◌, length, IfOk, slice_index_or};
ghost use Rattle.xrf_cavm.specs.Record.{inc_of_owner, inc_of_alt};
ghost use Rattle.xrf_trace.specs.declared.entry.Entry.{Entry as Made};
ghost use Rattle.xrf_trace.specs.Jobs.{known_of};
ghost use Rattle.xrf_trace.specs.Scenario.{Scen};
ghost use Rattle.xrf_trace.specs.Words.{confirmed};
ghost use Rattle.xrf_world.specs.Counts.{CountsAre, CanCount};

use crate::log_count::LogCount;
use std::alloc::{AllocError, Global};
use xrf_base::{Inc, Tick};
use xrf_cavm::Known;
use xrf_ctl::{Alt, Control, Owner};
use xrf_setup::Scenario;
use xrf_setup::ranges::CHOICES_MOST;
use xrf_trace::{Act, Entry};

/// What is counted of a trace.
#[derive(Drop)]
pub(crate) struct Counts {
    pub(crate) tick: Tick,
    // whether the number at this place is confirmed
    pub(crate) confirmed: Vec<bool>,
    pub(crate) log: LogCount,
}

fn mark(marks: &mut [bool], number: Inc)
    requires { number < length marks.old }
    ensures marks { (f : ℕ → Bool) → ((n : ℕ) → slice_index_or marks.old n false ≡ f n)
        → (n : ℕ) → slice_index_or marks.new n false ≡ (number == n || f n) }
    ensures length { length marks.new ≡ length marks.old }
{
    marks[number as usize] = true;
}

fn no_marks(alloc: Global, count: usize) -> Result<Vec<bool>, AllocError>
    ensures marks { IfOk result (λ marks. (n : ℕ) → slice_index_or marks.items n false ≡ false) }
    ensures length { IfOk result (λ marks. length marks.items ≡ count) }
{
    Vec::from_elem(alloc, false, count)
}

impl Counts {
    /// Before the first choice.
    pub(crate) fn new(alloc: Global, scenario: &Scenario) -> Result<Counts, AllocError>
        ensures { IfOk result (λ counts. CountsAre counts scenario.now []) }
    {
        let confirmed = no_marks(alloc, CHOICES_MOST + 1)?;
        let log = LogCount::new(alloc, scenario.log() as usize)?;
        Ok(Counts {
            tick: 0,
            confirmed,
            log,
        })
    }

    /// After one entry more.
    pub(crate) fn follow(&mut self, entry: &Entry)
        requires { (s : Scen) × (t : List Made) × CountsAre self.old s t × CanCount s t entry.now }
        ensures { (s : Scen) (t : List Made) → CountsAre self.old s t → CanCount s t entry.now → CountsAre self.new s (entry.now ∷ t) }
    {
        match &entry.act {
            Act::Tick => self.tick += 1,
            Act::Confirm(number) => mark(&mut self.confirmed, *number),
            Act::LogOpen(_, rec) => self.log.follow_open(rec, &entry.land),
            _ => {}
        }
    }

    /// Whether a number is confirmed.
    pub(crate) fn is_confirmed(&self, inc: Inc) -> bool
        ensures { (s : Scen) (t : List Made) → CountsAre self.now s t → result ≡ confirmed t inc }
    {
        self.confirmed.get(inc as usize).copied().unwrap_or(false)
    }

    /// Whether the owner and the alternate of a control record are confirmed.
    pub(crate) fn known(&self, control: &Control) -> Known
        ensures { (s : Scen) (t : List Made) → CountsAre self.now s t → result ≡ known_of t control.now }
    {
        Known {
            owner: self.is_owner_confirmed(control.owner()),
            alt: self.is_alt_confirmed(control.alt()),
        }
    }

    fn is_owner_confirmed(&self, owner: Option<Owner>) -> bool
        ensures { (s : Scen) (t : List Made) → CountsAre self.now s t → result ≡ (is_some owner && confirmed t (inc_of_owner owner)) }
    {
        match owner {
            Some(owner) => self.is_confirmed(owner.inc),
            None => false,
        }
    }

    fn is_alt_confirmed(&self, alt: Option<Alt>) -> bool
        ensures { (s : Scen) (t : List Made) → CountsAre self.now s t → result ≡ (is_some alt && confirmed t (inc_of_alt alt)) }
    {
        match alt {
            Some(alt) => self.is_confirmed(alt.inc),
            None => false,
        }
    }
}
