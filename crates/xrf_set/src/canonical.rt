//! The canonical text of a set.

ghost use Rattle.std.specs.Prelude.{◌≡◌, ◌++◌, OnOk, IfOk, map, codes};
ghost use Rattle.std.specs.Fmt.{decimal};
ghost use Rattle.xrf_grammar.specs.LineText.{line_text};
ghost use Rattle.xrf_grammar.specs.Spelling.{choice_text};
ghost use Rattle.xrf_grammar.specs.declared.line.Line.TheVariants.{Choices};
ghost use Rattle.xrf_scenario.specs.Canonical.{fed, text_of};
ghost use Rattle.xrf_set.specs.Canonical.{notes_lines, starts_lines, head_lines, pair_lines, pairs_lines, set_line_text, script_lines, set_canon};
ghost use Rattle.xrf_set.specs.Lines.{header_word};

use crate::set_line::{SetHead, SetKind, SetLine};
use std::alloc::{AllocError, Global};
use xrf_grammar::put_choice;
use xrf_grammar::writing::Piece::{Number, Text};
use xrf_grammar::writing::put;
use xrf_scenario::put_scenario;
use xrf_setup::{Choice, Scenario};

fn put_header(out: &mut Vec<u8>, kind: SetKind) -> Result<(), AllocError>
    ensures { OnOk result (out.new.items ≡ out.old.items ++ fed (header_word kind ++ codes " 1")) }
{
    match kind {
        SetKind::Group => put(out, &[Text(b"XRFGROUP 1\n")]),
        SetKind::Watch => put(out, &[Text(b"XRFWATCH 1\n")]),
    }
}

fn put_notes(out: &mut Vec<u8>, notes: bool) -> Result<(), AllocError>
    ensures { OnOk result (out.new.items ≡ out.old.items ++ text_of (notes_lines notes)) }
{
    if notes {
        return put(out, &[Text(b"NOTES ON\n")]);
    }
    Ok(())
}

fn put_starts(out: &mut Vec<u8>, mode: &[u8], most: Option<u16>) -> Result<(), AllocError>
    ensures { OnOk result (out.new.items ≡ out.old.items ++ text_of (starts_lines mode.now most)) }
{
    match most {
        Some(most) => put(
            out,
            &[
                Text(b"STARTS "),
                Text(mode),
                Text(b" "),
                Number(most as u64),
                Text(b"\n"),
            ],
        ),
        None => Ok(()),
    }
}

fn put_head(out: &mut Vec<u8>, head: &SetHead) -> Result<(), AllocError>
    ensures { OnOk result (out.new.items ≡ out.old.items ++ text_of (head_lines head.now)) }
{
    put_notes(out, head.notes)?;
    put_starts(out, b"ACTIVE", head.actives)?;
    put_starts(out, b"STANDBY", head.standbys)
}

fn put_number(out: &mut Vec<u8>, number: u64) -> Result<(), AllocError>
    ensures { OnOk result (out.new.items ≡ out.old.items ++ fed (codes "PAIR " ++ decimal number)) }
{
    put(out, &[Text(b"PAIR "), Number(number), Text(b"\n")])
}

fn put_choices_word(out: &mut Vec<u8>) -> Result<(), AllocError>
    ensures { OnOk result (out.new.items ≡ out.old.items ++ fed (line_text Choices)) }
{
    put(out, &[Text(b"CHOICES\n")])
}

#[tactic(auto, using(crate::proofs::WritingLaws::pair_written))]
fn put_pair(out: &mut Vec<u8>, number: u64, scenario: &Scenario) -> Result<(), AllocError>
    ensures { OnOk result (out.new.items ≡ out.old.items ++ text_of (pair_lines number scenario.now)) }
{
    put_number(out, number)?;
    put_scenario(out, scenario)?;
    put_choices_word(out)?;
    Ok(())
}

fn put_pairs(out: &mut Vec<u8>, scenarios: &[Scenario]) -> Result<(), AllocError>
    ensures { OnOk result (out.new.items ≡ out.old.items ++ text_of (pairs_lines 1 scenarios.now)) }
{
    let mut number = 0u64;
    for scenario in scenarios {
        number += 1;
        put_pair(out, number, scenario)?;
    }
    Ok(())
}

fn put_made(out: &mut Vec<u8>, pair: u32, choice: &Choice) -> Result<(), AllocError>
    ensures { OnOk result (out.new.items ≡ out.old.items ++ fed (decimal pair ++ codes " " ++ choice_text choice.now)) }
{
    put(out, &[Number(pair as u64), Text(b" ")])?;
    put_choice(out, choice)?;
    put(out, &[Text(b"\n")])
}

fn put_line(out: &mut Vec<u8>, line: &SetLine) -> Result<(), AllocError>
    ensures { OnOk result (out.new.items ≡ out.old.items ++ fed (set_line_text line.now)) }
{
    match line {
        SetLine::Choice(pair, choice) => put_made(out, *pair, choice),
        SetLine::Order(pair) => put(out, &[Text(b"ORDER "), Number(*pair as u64), Text(b"\n")]),
        SetLine::Oversee => put(out, &[Text(b"OVERSEE\n")]),
    }
}

fn put_lines(out: &mut Vec<u8>, lines: &[SetLine]) -> Result<(), AllocError>
    ensures { OnOk result (out.new.items ≡ out.old.items ++ text_of (map set_line_text lines.now)) }
{
    for line in lines {
        put_line(out, line)?;
    }
    Ok(())
}

fn put_script(out: &mut Vec<u8>, lines: &[SetLine]) -> Result<(), AllocError>
    ensures { OnOk result (out.new.items ≡ out.old.items ++ text_of (script_lines lines.now)) }
{
    put(out, &[Text(b"SCRIPT\n")])?;
    put_lines(out, lines)?;
    put(out, &[Text(b"END\n")])
}

/// Appends the canonical text of a set, up to and with its line END.
pub fn put_set(
    out: &mut Vec<u8>,
    kind: SetKind,
    head: &SetHead,
    scenarios: &[Scenario],
    lines: &[SetLine],
) -> Result<(), AllocError>
    ensures { OnOk result (out.new.items ≡ out.old.items ++ set_canon kind head.now scenarios.now lines.now) }
{
    put_header(out, kind)?;
    put_head(out, head)?;
    put_pairs(out, scenarios)?;
    put_script(out, lines)
}

/// The canonical text of a set, up to and with its line END.
pub fn write_set(
    alloc: Global,
    kind: SetKind,
    head: &SetHead,
    scenarios: &[Scenario],
    lines: &[SetLine],
) -> Result<Vec<u8>, AllocError>
    ensures { IfOk result (λ text. text.items ≡ set_canon kind head.now scenarios.now lines.now) }
{
    let mut out = Vec::new(alloc);
    put_set(&mut out, kind, head, scenarios, lines)?;
    Ok(out)
}
