//! What one line adds to what is said.

ghost use Rattle.std.specs.Prelude.{◌≡◌, ◌≤◌, ◌<◌, ◌+◌, ◌-◌, ◌^◌, ℕ, List, [], ◌∷◌, ◌++◌, length, drop, replicate, is_none, get_or, slice_set, nat_lt, if◌then◌else◌, Option, None, Some, OnOk, OnErr, Ok, Err};
ghost use Rattle.std.specs.List.{list_all};
ghost use Rattle.xrf_clt.specs.Kept.{Kept};
ghost use Rattle.xrf_clt.specs.Lines.{fault_of, words_kept};
ghost use Rattle.xrf_grammar.specs.LineText.{IsChoosing};
ghost use Rattle.xrf_grammar.specs.Places.{behind};
ghost use Rattle.xrf_grammar.specs.declared.reason.Reason.TheVariants.{PlanOrder, RrnRange};
ghost use Rattle.xrf_scenario.specs.Outcomes.{Takes};
ghost use Rattle.xrf_scenario.specs.Said.{IsLineSaid};
ghost use Rattle.xrf_scenario.specs.SoFar.{SoFar};
ghost use Rattle.xrf_scenario.specs.Taking.{take, with_room, free_record, has_choice_room, last_tick, numbered};
ghost use Rattle.xrf_scenario.specs.declared.section.Section.{Section};
ghost use Rattle.xrf_scenario.specs.declared.section.Section.TheVariants.{Settings, Making};
ghost use Rattle.xrf_setup.specs.Choices.{HasLine};
ghost use Rattle.xrf_setup.specs.declared.choice.Choice.{Choice};
ghost use Rattle.xrf_text.specs.Text.{words};

use crate::numbered::Numbered;
use crate::reading::Reading;
use crate::section::Section;
use crate::stop::Stop;
use std::alloc::AllocError;
use xrf_base::{Site, Tick, Value};
use xrf_clt::Clt;
use xrf_grammar::{Line, Quantity, Reason};
use xrf_setup::Choice;
use xrf_setup::ranges::{CHOICES_MOST, CLT_MOST, ITEMS_MOST, PLAN_MOST};
use xrf_text::split_word;

fn all_empty(places: &[Option<Value>]) -> bool
    ensures { result ≡ list_all is_none places.now }
{
    places.iter().all(|place| place.is_none())
}

// whether no record has a number above FILE
fn within(records: &[Option<Value>], file: u16) -> bool
    requires { file ≤ length records.now }
    ensures { result ≡ list_all is_none (drop file records.now) }
{
    all_empty(&records[file as usize..])
}

fn set_record(records: &mut Vec<Option<Value>>, number: u16, value: Value)
    requires least { 1 ≤ number }
    requires most { number ≤ length records.old.items }
    ensures { records.new.items ≡ slice_set records.old.items (number - 1) (Some value) }
{
    records[number as usize - 1] = Some(value);
}

fn is_free(records: &[Option<Value>], number: u16) -> bool
    requires least { 1 ≤ number }
    requires most { number ≤ length records.now }
    ensures { result ≡ is_none (get_or records.now (number - 1) None) }
{
    records[number as usize - 1].is_none()
}

// one more, where there are fewer than the most
fn push_within<T: Copy>(items: &mut Vec<T>, most: usize, item: T) -> Result<(), Stop>
    ensures { (put : List T → SoFar) → Takes result (put items.old.items) (put items.new.items) (with_room (nat_lt (length items.old.items) most) (put (items.old.items ++ item ∷ []))) }
{
    if items.len() >= most {
        return Err(Stop::Fault(Reason::TooMany));
    }
    items.push(item)?;
    Ok(())
}

// as many copies of an element
fn push_times<T: Copy>(items: &mut Vec<T>, item: T, count: u16) -> Result<(), AllocError>
    ensures ok { OnOk result (items.new.items ≡ items.old.items ++ replicate count item) }
    ensures err { OnErr result (items.new.items ≡ items.old.items) }
{
    items.try_reserve(count as usize)?;
    for copies in 0..count {
        items.push_reserved(item);
    }
    Ok(())
}

fn last_tick(plan: &[(Tick, Choice)]) -> Tick
    ensures { result ≡ last_tick plan.now }
{
    match plan {
        [] => 0,
        [.., last] => last.0,
    }
}

// the words behind the first
fn behind_first(line: &[u8]) -> &[u8]
    ensures { words result.now ≡ behind (words line.now) }
{
    match split_word(line) {
        Some((_, rest)) => rest,
        None => line,
    }
}

// a record in its place, whose number must not have come before
fn take_record(records: &mut Vec<Option<Value>>, number: u16, value: Value) -> Result<(), Stop>
    requires least { 1 ≤ number }
    requires most { number ≤ length records.old.items }
    ensures { (put : List (Option (List ℕ)) → SoFar) → Takes result (put records.old.items) (put records.new.items) (free_record (is_none (get_or records.old.items (number - 1) None)) (put (slice_set records.old.items (number - 1) (Some value)))) }
{
    if !is_free(records, number) {
        return Err(Stop::Fault(Reason::Twice));
    }
    set_record(records, number, value);
    Ok(())
}

fn take_clt(clt: &mut Clt, line: &[u8]) -> Result<(), Stop>
    requires { fault_of (behind (words line.now)) ≡ None }
    ensures { (put : List Kept → SoFar) → Takes result (put clt.old) (put clt.new) (with_room (nat_lt (length clt.old) CLT_MOST) (put (clt.old ++ words_kept (behind (words line.now)) ∷ []))) }
{
    if clt.count() >= CLT_MOST {
        return Err(Stop::Fault(Reason::TooMany));
    }
    clt.add(behind_first(line))?;
    Ok(())
}

fn take_plan(plan: &mut Vec<(Tick, Choice)>, tick: u16, choice: Choice) -> Result<(), Stop>
    ensures { (put : List (ℕ × Choice) → SoFar) → Takes result (put plan.old.items) (put plan.new.items) (if nat_lt tick (last_tick plan.old.items) then Err PlanOrder else with_room (nat_lt (length plan.old.items) PLAN_MOST) (put (plan.old.items ++ (tick, choice) ∷ []))) }
{
    if (tick as Tick) < last_tick(plan) {
        return Err(Stop::Fault(Reason::PlanOrder));
    }
    push_within(plan, PLAN_MOST, (tick as Tick, choice))
}

// the choices begin where no record has a number above FILE
fn begin_choices(section: &mut Section, records: &[Option<Value>], file: u16) -> Result<(), Stop>
    requires { file ≤ length records.now }
    ensures { (put : Section → SoFar) → Takes result (put section.old) (put section.new) (if list_all is_none (drop file records.now) then Ok (put Making) else Err RrnRange) }
{
    if !within(records, file) {
        return Err(Stop::Fault(Reason::RrnRange));
    }
    *section = Section::Making;
    Ok(())
}

impl<'a> Reading<'a> {
    /// Takes what a line before the choices says.
    pub fn take_setting(&mut self, text: &[u8], line: &Line) -> Result<(), Stop>
        requires section { self.old.section ≡ Settings }
        requires line { IsLineSaid self.old.format (words text.now) line.now }
        ensures { (number : ℕ) → Takes result self.old self.new (take number self.old (words text.now) line.now) }
    {
        match line {
            Line::Record(number, value) => take_record(&mut self.records, *number, *value),
            Line::Clt => take_clt(&mut self.clt, text),
            Line::Work(site, item) => match site {
                Site::A => push_within(&mut self.work_a, ITEMS_MOST, *item),
                Site::B => push_within(&mut self.work_b, ITEMS_MOST, *item),
            },
            Line::Plan(tick, choice) => take_plan(&mut self.plan, *tick, *choice),
            Line::Choices => {
                let file = self.given.quantity(Quantity::File);
                begin_choices(&mut self.section, &self.records, file)
            }
            _ => self.given.take(line),
        }
    }

    /// Takes a choice of the line with this number, so many times.
    pub fn take_choice(&mut self, line: u32, choice: Choice, count: u16) -> Result<(), Stop>
        requires section { self.old.section ≡ Making }
        requires choice { HasLine choice }
        ensures { Takes result self.old self.new (with_room (has_choice_room self.old count) (record self.old { choices = self.old.choices ++ replicate count (numbered line choice) })) }
    {
        if self.choices.len() + count as usize > CHOICES_MOST {
            return Err(Stop::Fault(Reason::TooMany));
        }
        push_times(&mut self.choices, Numbered { choice, line }, count)?;
        Ok(())
    }

    /// Takes what a line of the choices with this number says.
    pub fn take_choosing(&mut self, number: u32, line: &Line) -> Result<(), Stop>
        requires section { self.old.section ≡ Making }
        requires line { IsChoosing line.now }
        ensures { (ws : List (List ℕ)) → Takes result self.old self.new (take number self.old ws line.now) }
    {
        match line {
            Line::Once(choice) => self.take_choice(number, *choice, 1),
            Line::Times(choice, count) => self.take_choice(number, *choice, *count),
            Line::End => {
                self.section = Section::Whole;
                Ok(())
            }
            _ => unreachable!(),
        }
    }
}
