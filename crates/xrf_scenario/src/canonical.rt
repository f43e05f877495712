//! The canonical text of a scenario and its choices.

ghost use Rattle.std.specs.Prelude.{◌≡◌, ◌++◌, ◌∷◌, [], ℕ, OnOk, IfOk, map, codes};
ghost use Rattle.xrf_base.specs.declared.items.Item.{Item};
ghost use Rattle.xrf_clt.specs.Kept.{Kept};
ghost use Rattle.xrf_grammar.specs.LineText.{header_text, line_text};
ghost use Rattle.xrf_grammar.specs.Quantities.{quantity_of};
ghost use Rattle.xrf_grammar.specs.Spelling.{choice_text};
ghost use Rattle.xrf_setup.specs.declared.choice.Choice.{Choice};
ghost use Rattle.xrf_grammar.specs.declared.line.Line.TheVariants.{Work, Plan};
ghost use Rattle.xrf_grammar.specs.declared.line.Line.TheVariants as line;
ghost use Rattle.xrf_scenario.specs.Canonical.{fed, text_of, record_lines, clt_lines, plan_lines, scenario_lines, choice_lines, canon, ReadAgain};
ghost use Rattle.xrf_setup.specs.Scenario.{IsScen};
ghost use Rattle.xrf_scenario.specs.SettingLines.{setting_lines, level_lines, SettingsAreLines};
ghost use Rattle.xrf_setup.specs.Commands.{kept_text};

use crate::level::level_number;
use std::alloc::{AllocError, Global};
use xrf_base::{Item, Site, Tick, Value};
use xrf_clt::Clt;
use xrf_grammar::writing::Piece::{Number, Text};
use xrf_grammar::writing::put;
use xrf_grammar::{Line, Quantity, put_choice, put_header, put_line, quantities};
use xrf_setup::{Choice, Format, Scenario, Settings};

fn put_feed(out: &mut Vec<u8>) -> Result<(), AllocError>
    ensures { OnOk result (out.new.items ≡ out.old.items ++ 10 ∷ []) }
{
    out.push(b'\n')?;
    Ok(())
}

fn put_fed(out: &mut Vec<u8>, line: &Line) -> Result<(), AllocError>
    ensures { OnOk result (out.new.items ≡ out.old.items ++ fed (line_text line.now)) }
{
    put_line(out, line)?;
    put_feed(out)
}

fn put_lines(out: &mut Vec<u8>, lines: &[Line]) -> Result<(), AllocError>
    ensures { OnOk result (out.new.items ≡ out.old.items ++ text_of (map line_text lines.now)) }
{
    for line in lines {
        put_fed(out, line)?;
    }
    Ok(())
}

fn put_levels(out: &mut Vec<u8>, settings: &Settings) -> Result<(), AllocError>
    ensures { OnOk result (out.new.items ≡ out.old.items ++ text_of (map line_text (level_lines settings.now.format settings.now))) }
{
    match settings.format {
        Format::One => Ok(()),
        Format::Two => put_lines(
            out,
            &[
                Line::Level(Site::A, level_number(settings.level_a)),
                Line::Level(Site::B, level_number(settings.level_b)),
                Line::Xrfsoff(settings.force),
            ],
        ),
    }
}

fn put_quantity(
    out: &mut Vec<u8>,
    settings: &Settings,
    quantity: Quantity,
) -> Result<(), AllocError>
    ensures { OnOk result (out.new.items ≡ out.old.items ++ fed (line_text (line.Quantity quantity (quantity_of settings.now quantity)))) }
{
    let number = quantity.of(settings);
    put_fed(out, &Line::Quantity(quantity, number))
}

fn put_quantities(
    out: &mut Vec<u8>,
    settings: &Settings,
    quantities: &[Quantity],
) -> Result<(), AllocError>
    ensures { OnOk result (out.new.items ≡ out.old.items ++ text_of (map (λ (q : Quantity). line_text (line.Quantity q (quantity_of settings.now q))) quantities.now)) }
{
    for quantity in quantities {
        put_quantity(out, settings, *quantity)?;
    }
    Ok(())
}

fn put_settings(out: &mut Vec<u8>, settings: &Settings) -> Result<(), AllocError>
    ensures { OnOk result (out.new.items ≡ out.old.items ++ text_of (map line_text (setting_lines settings.now))) }
{
    put_lines(
        out,
        &[
            Line::Applid(Site::A, settings.applid_a),
            Line::Applid(Site::B, settings.applid_b),
            Line::Takeovr(settings.takeovr),
        ],
    )?;
    put_quantities(out, settings, quantities())?;
    put_lines(out, &[Line::Images(settings.images)])?;
    put_levels(out, settings)
}

fn put_records(out: &mut Vec<u8>, records: &[(u16, Value)]) -> Result<(), AllocError>
    ensures { OnOk result (out.new.items ≡ out.old.items ++ text_of (record_lines records.now)) }
{
    for (number, value) in records {
        put_fed(out, &Line::Record(*number, *value))?;
    }
    Ok(())
}

fn put_command<'a>(out: &mut Vec<u8>, applid: &'a [u8], text: &'a [u8]) -> Result<(), AllocError>
    ensures { OnOk result (out.new.items ≡ out.old.items ++ fed (codes "CLT " ++ kept_text (record { applid = applid.now; text = text.now }))) }
{
    put(
        out,
        &[
            Text(b"CLT "),
            Text(applid),
            Text(b" "),
            Text(text),
            Text(b"\n"),
        ],
    )
}

fn put_clt(out: &mut Vec<u8>, clt: &Clt) -> Result<(), AllocError>
    ensures { OnOk result (out.new.items ≡ out.old.items ++ text_of (clt_lines clt.now)) }
{
    for place in 0..clt.count() {
        let (applid, text) = clt.line(place);
        put_command(out, applid.text(), text)?;
    }
    Ok(())
}

fn put_work(out: &mut Vec<u8>, site: Site, work: &[Item]) -> Result<(), AllocError>
    ensures { OnOk result (out.new.items ≡ out.old.items ++ text_of (map (λ (i : Item). line_text (Work site i)) work.now)) }
{
    for item in work {
        put_fed(out, &Line::Work(site, *item))?;
    }
    Ok(())
}

fn put_planned(out: &mut Vec<u8>, tick: Tick, choice: &Choice) -> Result<(), AllocError>
    ensures { OnOk result (out.new.items ≡ out.old.items ++ fed (line_text (Plan tick choice.now))) }
{
    put(out, &[Text(b"PLAN "), Number(tick as u64), Text(b" ")])?;
    put_choice(out, choice)?;
    put_feed(out)
}

fn put_plan(out: &mut Vec<u8>, plan: &[(Tick, Choice)]) -> Result<(), AllocError>
    ensures { OnOk result (out.new.items ≡ out.old.items ++ text_of (plan_lines plan.now)) }
{
    for (tick, choice) in plan {
        put_planned(out, *tick, choice)?;
    }
    Ok(())
}

fn put_made(out: &mut Vec<u8>, choice: &Choice) -> Result<(), AllocError>
    ensures { OnOk result (out.new.items ≡ out.old.items ++ fed (choice_text choice.now)) }
{
    put_choice(out, choice)?;
    put_feed(out)
}

fn put_choices(out: &mut Vec<u8>, choices: &[Choice]) -> Result<(), AllocError>
    ensures { OnOk result (out.new.items ≡ out.old.items ++ text_of (map choice_text choices.now)) }
{
    for choice in choices {
        put_made(out, choice)?;
    }
    Ok(())
}

/// Appends the lines of a scenario up to CHOICES.
pub fn put_scenario(out: &mut Vec<u8>, scenario: &Scenario) -> Result<(), AllocError>
    ensures text { OnOk result (out.new.items ≡ out.old.items ++ text_of (scenario_lines scenario.now)) }
    ensures scenario { IsScen scenario.now }
{
    put_header(out, scenario.format())?;
    put_feed(out)?;
    put_settings(out, scenario.settings())?;
    put_records(out, scenario.records())?;
    put_clt(out, scenario.clt())?;
    put_work(out, Site::A, scenario.work(Site::A))?;
    put_work(out, Site::B, scenario.work(Site::B))?;
    put_plan(out, scenario.plan())
}

/// Appends the lines from CHOICES to END.
pub fn put_made_choices(out: &mut Vec<u8>, choices: &[Choice]) -> Result<(), AllocError>
    ensures { OnOk result (out.new.items ≡ out.old.items ++ text_of (choice_lines choices.now)) }
{
    put_fed(out, &Line::Choices)?;
    put_choices(out, choices)?;
    put_fed(out, &Line::End)
}

/// Appends the canonical text of a scenario and its choices, up to and with its line END.
pub fn put_canonical(
    out: &mut Vec<u8>,
    scenario: &Scenario,
    choices: &[Choice],
) -> Result<(), AllocError>
    ensures text { OnOk result (out.new.items ≡ out.old.items ++ canon scenario.now choices.now) }
    ensures scenario { IsScen scenario.now }
{
    put_scenario(out, scenario)?;
    put_made_choices(out, choices)
}

/// The canonical text of a scenario and its choices, up to and with its line END.
pub fn write(alloc: Global, scenario: &Scenario, choices: &[Choice]) -> Result<Vec<u8>, AllocError>
    ensures { IfOk result (λ text. text.items ≡ canon scenario.now choices.now) }
{
    let mut out = Vec::new(alloc);
    put_canonical(&mut out, scenario, choices)?;
    Ok(out)
}

/// What is written of a scenario and choices that a text can hold is read again as these, also with
/// a report behind it.
pub fn read_again()
    ensures { ReadAgain }
{}

/// Settings are within their ranges exactly where a text can spell their lines, and their levels are
/// those of the format.
pub fn settings_are_lines()
    ensures { SettingsAreLines }
{}
