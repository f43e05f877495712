//! The scenario text as a whole.

ghost use Rattle.std.specs.Prelude.{◌≡◌, ◌≤◌, ◌+◌, ℕ, length, [], map, true, IfOk, IfErr};
ghost use Rattle.xrf_scenario.specs.Lines.{text_lines};
ghost use Rattle.xrf_scenario.specs.Machine.{read_whole, read_on};
ghost use Rattle.xrf_scenario.specs.Outcomes.{bad_of, Gives, IsBad};
ghost use Rattle.xrf_scenario.specs.Said.{is_past};
ghost use Rattle.xrf_scenario.specs.SoFar.{is_whole};
ghost use Rattle.xrf_scenario.specs.Reading.{Reads, OneReading, NeverBoth, OneFault};
ghost use Rattle.xrf_scenario.specs.Canonical.{AreChoices};
ghost use Rattle.xrf_scenario.specs.declared.numbered.Numbered.{Numbered};
ghost use Rattle.xrf_scenario.specs.Settled.{by_number, scenario_of};

use crate::lines::next_line;
use crate::numbered::Numbered;
use crate::read_bad::ReadBad;
use crate::reading::Reading;
use crate::settled::settled;
use crate::stop::Stop;
use std::alloc::{AllocError, Global};
use xrf_base::Value;
use xrf_grammar::Reason;
use xrf_setup::Scenario;
use xrf_setup::ranges::{FILE_MOST, INPUT_MOST};

fn bad_of(stop: Stop, line: u32) -> ReadBad
    ensures { result ≡ bad_of stop line }
{
    match stop {
        Stop::Fault(reason) => ReadBad::Bad { line, reason },
        Stop::NoMemory => ReadBad::NoMemory,
    }
}

fn end_or_fault<'a>(reading: Reading<'a>, count: u32) -> Result<Reading<'a>, ReadBad>
    ensures gives { Gives result (read_on reading.entry count []) }
    ensures whole { IfOk result (λ r. is_whole r.section ≡ true) }
{
    if reading.section.is_whole() {
        return Ok(reading);
    }
    Err(ReadBad::Bad {
        line: count.max(1),
        reason: Reason::NoEnd,
    })
}

fn read_lines<'a>(alloc: Global, text: &'a [u8]) -> Result<Reading<'a>, ReadBad>
    requires { length text.now ≤ INPUT_MOST }
    ensures gives { Gives result (read_whole text.now) }
    ensures whole { IfOk result (λ r. is_whole r.section ≡ true) }
{
    let mut reading = Reading::new(alloc)?;
    let mut rest = text;
    let mut count = 0u32;
    'lines: while let Some((line, behind)) = next_line(rest) {
        count += 1;
        match reading.step(count, line) {
            Ok(()) => {}
            Err(stop) => return Err(bad_of(stop, count)),
        }
        rest = behind;
    }
    end_or_fault(reading, count)
}

fn by_number(alloc: Global, places: &[Option<Value>]) -> Result<Vec<(u16, Value)>, AllocError>
    requires { length places.now ≤ FILE_MOST }
    ensures { IfOk result (λ records. records.items ≡ by_number 1 places.now) }
{
    let mut records = Vec::new(alloc);
    let mut number = 1u16;
    for place in places {
        if let Some(value) = place {
            records.push((number, *value))?;
        }
        number += 1;
    }
    Ok(records)
}

// the scenario and the choices of what is said
fn parts<'a>(alloc: Global, reading: Reading<'a>) -> Result<(Scenario, Vec<Numbered>), AllocError>
    requires { is_past reading.section ≡ true }
    ensures scenario { IfOk result (λ r. r.0 ≡ scenario_of reading.entry) }
    ensures choices { IfOk result (λ r. r.1.items ≡ reading.entry.choices) }
    ensures lines { IfOk result (λ r. AreChoices (map (λ (n : Numbered). n.choice) r.1.items)) }
{
    let Reading {
        section: _,
        format,
        given,
        records,
        clt,
        work_a,
        work_b,
        plan,
        choices,
        last_choice: _,
    } = reading;
    let records = by_number(alloc, &records)?;
    let settings = settled(format, &given);
    let scenario = Scenario::new(settings, records, clt, work_a, work_b, plan);
    Ok((scenario, choices))
}

/// The scenario that a reading holds behind its line CHOICES.
pub fn scenario_of<'a>(alloc: Global, reading: Reading<'a>) -> Result<Scenario, AllocError>
    requires { is_past reading.section ≡ true }
    ensures { IfOk result (λ scenario. scenario ≡ scenario_of reading.entry) }
{
    let (scenario, _) = parts(alloc, reading)?;
    Ok(scenario)
}

/// The scenario and the choices that a text spells, each choice with the number of its line; else
/// the first bad line, counted from 1, with its first reason. A text is of at most 4,194,304 bytes.
pub fn read(alloc: Global, text: &[u8]) -> Result<(Scenario, Vec<Numbered>), ReadBad>
    requires { length text.now ≤ INPUT_MOST }
    ensures found { IfOk result (λ r. Reads text.now r.0 r.1.items) }
    ensures choices { IfOk result (λ r. AreChoices (map (λ (n : Numbered). n.choice) r.1.items)) }
    ensures bad { IfErr result (λ e. IsBad text.now e) }
{
    match read_lines(alloc, text) {
        Ok(reading) => Ok(parts(alloc, reading)?),
        Err(bad) => Err(bad),
    }
}

/// A text is read in one way, no text is both read and refused, and it is refused in one way: so
/// what is spelled is read, and what has a bad line is refused at the first for its first reason,
/// unless memory runs out.
pub fn one_reading()
    ensures one_reading { OneReading }
    ensures never_both { NeverBoth }
    ensures one_fault { OneFault }
{}
