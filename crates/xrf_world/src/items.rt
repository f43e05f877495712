//! The items that a site took, and what they were answered.

ghost use Rattle.std.specs.Prelude.{◌≡◌, ◌==◌, ◌<◌, ◌≤◌, ◌+◌, ◌&&◌, ℕ, true, nat_lt, is_some, if◌then◌else◌, List, [], ◌∷◌, ◌++◌, length, Option, None, IfOk, slice_index_or, vec_len, vec_capacity};
ghost use Rattle.xrf_base.specs.declared.items.ItemAnswer.{ItemAnswer as Given};
ghost use Rattle.xrf_base.specs.declared.site.Site.{Site as Of};
ghost use Rattle.xrf_history.specs.Reserving.{or_else};
ghost use Rattle.xrf_trace.specs.declared.entry.Entry.{Entry as Made};
ghost use Rattle.xrf_trace.specs.Items.{answer};
ghost use Rattle.xrf_trace.specs.Jobs.{hist};
ghost use Rattle.xrf_trace.specs.Scenario.{Scen, work};
ghost use Rattle.xrf_trace.specs.Words.{is_of, is_item, items_taken};
ghost use Rattle.xrf_world.specs.Places.{KeptByNumber, ItemsAre, CanTake, taken_before_start, is_start};
ghost use Rattle.xrf_world.specs.Report.{state_of_item, item_state};

use crate::state::ItemState;
use std::alloc::{AllocError, Global};
use xrf_base::ItemAnswer;
use xrf_setup::ranges::ITEMS_MOST;
use xrf_trace::{Act, Entry};

/// The items that a site took.
#[derive(Drop)]
pub(crate) struct Items {
    // item n at n - 1: its answer, once it is answered
    pub(crate) answers: Vec<Option<ItemAnswer>>,
    // how many were taken at the last START
    pub(crate) before_start: usize,
}

fn is_item(act: &Act) -> bool
    ensures { result ≡ is_item act.now }
{
    matches!(act, Act::Item(_))
}

fn is_start(act: &Act) -> bool
    ensures { result ≡ is_start act.now }
{
    match act {
        Act::StartActive => true,
        Act::StartStandby => true,
        _ => false,
    }
}

// how many items were taken at the last START, where so many are taken now
fn before_start_after(act: &Act, taken: usize, before: usize) -> usize
    ensures { result ≡ (if is_start act.now then taken else before) }
{
    if is_start(act) { taken } else { before }
}

// an item more, not answered yet
fn add_item(answers: &mut Vec<Option<ItemAnswer>>, act: &Act)
    requires room { is_item act.now ≡ true → vec_len answers.old < vec_capacity answers.old }
    ensures answers { answers.new.items ≡ (if is_item act.now then answers.old.items ++ None ∷ [] else answers.old.items) }
    ensures capacity { vec_capacity answers.new ≡ vec_capacity answers.old }
{
    if is_item(act) {
        answers.push_reserved(None);
    }
}

// the answer of the item taken last, where it gets one
fn keep_answer(answers: &mut [Option<ItemAnswer>], given: Option<ItemAnswer>)
    ensures answers { (f : ℕ → Option Given) → KeptByNumber answers.old f
        → KeptByNumber answers.new (λ k. if length answers.old == k then or_else given (f k) else f k) }
    ensures length { length answers.new ≡ length answers.old }
{
    if given.is_none() {
        return;
    }
    let count = answers.len();
    if count > 0 {
        answers[count - 1] = given;
    }
}

// the answer that is kept at a place, none past the last
fn answer_at(answers: &[Option<ItemAnswer>], k: usize) -> Option<ItemAnswer>
    ensures { result ≡ slice_index_or answers.now k None }
{
    answers.get(k).copied().unwrap_or(None)
}

// an item is awaited where the job that took it is still there
fn is_awaited(is_there: bool, before_start: usize, k: usize) -> bool
    ensures { result ≡ (is_there && nat_lt before_start (k + 1)) }
{
    if !is_there {
        return false;
    }
    before_start <= k
}

fn state_of_item(is_awaited: bool, given: Option<ItemAnswer>) -> ItemState
    ensures { result ≡ state_of_item is_awaited given }
{
    match given {
        Some(given) => ItemState::Answered(given),
        None => if is_awaited {
            ItemState::Pending
        } else {
            ItemState::Lost
        },
    }
}

impl Items {
    /// No item taken, with room for as many as there are.
    pub(crate) fn new(alloc: Global, count: usize) -> Result<Items, AllocError>
        ensures answers { IfOk result (λ items. items.answers.items ≡ []) }
        ensures before { IfOk result (λ items. items.before_start ≡ 0) }
        ensures room { IfOk result (λ items. vec_capacity items.answers ≡ count) }
    {
        Ok(Items {
            answers: Vec::with_capacity(alloc, count)?,
            before_start: 0,
        })
    }

    /// After one entry more, of this site, which gave the item taken last this answer.
    pub(crate) fn follow(&mut self, entry: &Entry, given: Option<ItemAnswer>)
        requires { (s : Scen) × (t : List Made) × (x : Of) × ItemsAre self.old s t x × CanTake s t x entry.now given }
        ensures { (s : Scen) (t : List Made) (x : Of) → ItemsAre self.old s t x → CanTake s t x entry.now given → ItemsAre self.new s (entry.now ∷ t) x }
    {
        self.before_start = before_start_after(&entry.act, self.answers.len(), self.before_start);
        add_item(&mut self.answers, &entry.act);
        keep_answer(&mut self.answers, given);
    }

    /// The number of the item that is taken next.
    pub(crate) fn next(&self) -> u32
        requires { (s : Scen) × (t : List Made) × (x : Of) × ItemsAre self.now s t x × (length (work s x) ≤ ITEMS_MOST) }
        ensures { (s : Scen) (t : List Made) (x : Of) → ItemsAre self.now s t x → result ≡ items_taken t x + 1 }
    {
        self.answers.len() as u32 + 1
    }

    /// How many were taken.
    pub(crate) fn count(&self) -> usize
        ensures { (s : Scen) (t : List Made) (x : Of) → ItemsAre self.now s t x → result ≡ items_taken t x }
    {
        self.answers.len()
    }

    /// What has become of the item of a place from 0, where it is told whether a job is there.
    pub(crate) fn state(&self, k: usize, is_there: bool) -> ItemState
        ensures { (s : Scen) (t : List Made) (x : Of) → ItemsAre self.now s t x → is_there ≡ is_some (hist s t x) → result ≡ item_state s t x (k + 1) }
    {
        let is_awaited = is_awaited(is_there, self.before_start, k);
        state_of_item(is_awaited, answer_at(&self.answers, k))
    }
}
