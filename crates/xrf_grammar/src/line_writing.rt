//! How a line and a header are written: one spelling of each, with one blank between the words.

ghost use Rattle.std.specs.Prelude.{◌≡◌, ◌++◌, ◌∷◌, List, ℕ, Ok, OnOk, codes};
ghost use Rattle.std.specs.Fmt.{decimal};
ghost use Rattle.xrf_cebt.specs.Command.{mode_word};
ghost use Rattle.xrf_base.specs.Names.{IsName};
ghost use Rattle.xrf_text.specs.Text.{words};
ghost use Rattle.xrf_grammar.specs.LineText.{header_text, line_text, IsChoosing, IsCommand, IsSetting};
ghost use Rattle.xrf_grammar.specs.Plain.{IsPlain};
ghost use Rattle.xrf_grammar.specs.Quantities.{quantity_text};
ghost use Rattle.xrf_grammar.specs.Reading.{header_of, line_of};
ghost use Rattle.xrf_grammar.specs.Spelling.{choice_text, site_text, work_text};
ghost use Rattle.xrf_setup.specs.Choices.{HasLine};
ghost use Rattle.xrf_grammar.specs.Table.{choices_table, settings_of};
ghost use Rattle.xrf_grammar.specs.declared.line.Line.TheVariants.{Clt};

use crate::line::Line;
use crate::quantity::Quantity;
use crate::writing::Piece::{Number, Text};
use crate::writing::{put, put_choice, put_item, put_named, put_of_site, put_text, put_word};
use std::alloc::AllocError;
use xrf_base::{Item, Site, Takeovr};
use xrf_setup::{Choice, Format};

fn mode_word(mode: Takeovr) -> &'static [u8]
    ensures { result.now ≡ mode_word mode }
{
    match mode {
        Takeovr::Auto => b"AUTO",
        Takeovr::Manual => b"MANUAL",
        Takeovr::Command => b"COMMAND",
    }
}

// a word with its blank, and a number
#[inline(always)]
fn put_setting(out: &mut Vec<u8>, word: &[u8], number: u16) -> Result<(), AllocError>
    ensures { OnOk result (out.new.items ≡ out.old.items ++ word.now ++ decimal number) }
{
    put(out, &[Text(word), Number(number as u64)])
}

fn put_quantity(out: &mut Vec<u8>, quantity: Quantity, number: u16) -> Result<(), AllocError>
    ensures { OnOk result (out.new.items ≡ out.old.items ++ quantity_text quantity ++ codes " " ++ decimal number) }
{
    put(
        out,
        &[Text(quantity.text()), Text(b" "), Number(number as u64)],
    )
}

fn put_applid(out: &mut Vec<u8>, site: Site, name: &[u8]) -> Result<(), AllocError>
    ensures { OnOk result (out.new.items ≡ out.old.items ++ site_text (codes "APPLID") site (codes " " ++ name.now)) }
{
    put_of_site(out, b"APPLID", site, b" ")?;
    put_text(out, name)
}

fn put_level(out: &mut Vec<u8>, site: Site, level: u16) -> Result<(), AllocError>
    ensures { OnOk result (out.new.items ≡ out.old.items ++ site_text (codes "LEVEL") site (codes " " ++ decimal level)) }
{
    put_of_site(out, b"LEVEL", site, b"")?;
    put_setting(out, b" ", level)
}

fn put_record(out: &mut Vec<u8>, number: u16, value: &[u8]) -> Result<(), AllocError>
    ensures { OnOk result (out.new.items ≡ out.old.items ++ codes "RECORD " ++ decimal number ++ codes " " ++ value.now) }
{
    put_setting(out, b"RECORD ", number)?;
    put_word(out, value)
}

fn put_work(out: &mut Vec<u8>, site: Site, item: &Item) -> Result<(), AllocError>
    ensures { OnOk result (out.new.items ≡ out.old.items ++ work_text site item.now) }
{
    match site {
        Site::A => put_text(out, b"WORK A ")?,
        Site::B => put_text(out, b"WORK B ")?,
    }
    put_item(out, item)
}

fn put_plan(out: &mut Vec<u8>, tick: u16, choice: &Choice) -> Result<(), AllocError>
    ensures { OnOk result (out.new.items ≡ out.old.items ++ codes "PLAN " ++ decimal tick ++ codes " " ++ choice_text choice.now) }
{
    put_setting(out, b"PLAN ", tick)?;
    put_text(out, b" ")?;
    put_choice(out, choice)
}

fn put_times(out: &mut Vec<u8>, choice: &Choice, count: u16) -> Result<(), AllocError>
    ensures { OnOk result (out.new.items ≡ out.old.items ++ choice_text choice.now ++ codes " " ++ decimal count) }
{
    put_choice(out, choice)?;
    put_setting(out, b" ", count)
}

/// Appends a line as its words spell it, without a line feed. What a line of the command list says
/// is not in the line, so of such a line the first word is written.
pub fn put_line(out: &mut Vec<u8>, line: &Line) -> Result<(), AllocError>
    ensures { OnOk result (out.new.items ≡ out.old.items ++ line_text line.now) }
{
    match line {
        Line::Applid(site, name) => put_applid(out, *site, name.text()),
        Line::Takeovr(mode) => put_named(out, b"TAKEOVR ", mode_word(*mode)),
        Line::Quantity(quantity, number) => put_quantity(out, *quantity, *number),
        Line::Images(true) => put_text(out, b"IMAGES ON"),
        Line::Images(false) => put_text(out, b"IMAGES OFF"),
        Line::Level(site, level) => put_level(out, *site, *level),
        Line::Xrfsoff(true) => put_text(out, b"XRFSOFF FORCE"),
        Line::Xrfsoff(false) => put_text(out, b"XRFSOFF NOFORCE"),
        Line::Record(number, value) => put_record(out, *number, value.text()),
        Line::Clt => put_text(out, b"CLT"),
        Line::Work(site, item) => put_work(out, *site, item),
        Line::Plan(tick, choice) => put_plan(out, *tick, choice),
        Line::Choices => put_text(out, b"CHOICES"),
        Line::Once(choice) => put_choice(out, choice),
        Line::Times(choice, count) => put_times(out, choice, *count),
        Line::End => put_text(out, b"END"),
    }
}

/// Appends the header of a format, without a line feed.
pub fn put_header(out: &mut Vec<u8>, format: Format) -> Result<(), AllocError>
    ensures { OnOk result (out.new.items ≡ out.old.items ++ header_text format) }
{
    match format {
        Format::One => put(out, &[Text(b"XRF 1")]),
        Format::Two => put(out, &[Text(b"XRF 2")]),
    }
}

/// What is written of a header and of a line is read again as the same, and so are the words of a
/// line of the command list.
#[tactic(auto, using(crate::proofs::LineAgain::header_again, crate::proofs::LineAgain::setting_again, crate::proofs::LineAgain::choosing_again, crate::proofs::LineAgain::clt_again))]
pub fn lines_read_again()
    ensures header { (format : Format) → header_of (words (header_text format)) ≡ Ok format }
    ensures setting { (format : Format) (line : Line) → IsSetting format line → line_of (settings_of format) (words (line_text line)) ≡ Ok line }
    ensures choosing { (line : Line) → IsChoosing line → line_of choices_table (words (line_text line)) ≡ Ok line }
    ensures clt { (format : Format) (applid kind : List ℕ) (operands : List (List ℕ)) → IsName applid → IsCommand kind operands
        → line_of (settings_of format) (codes "CLT" ∷ applid ∷ kind ∷ operands) ≡ Ok Clt }
{}

/// What is written of a header, of a line and of a choice is a plain line.
#[tactic(auto, using(crate::proofs::LineAgain::header_plain, crate::proofs::LineAgain::setting_plain, crate::proofs::LineAgain::choosing_plain, crate::proofs::LineAgain::choice_plain))]
pub fn lines_are_plain()
    ensures header { (format : Format) → IsPlain (header_text format) }
    ensures setting { (format : Format) (line : Line) → IsSetting format line → IsPlain (line_text line) }
    ensures choosing { (line : Line) → IsChoosing line → IsPlain (line_text line) }
    ensures choice { (choice : Choice) → HasLine choice → IsPlain (choice_text choice) }
{}
