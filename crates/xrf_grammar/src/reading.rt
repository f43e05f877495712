//! How a line is read by the table of forms.

ghost use Rattle.std.specs.Prelude.{◌≡◌, IfOk, IfErr};
ghost use Rattle.xrf_grammar.specs.Grammar.{AreOfNone, Spells};
ghost use Rattle.xrf_grammar.specs.Table.{settings_of, choices_table};
ghost use Rattle.xrf_text.specs.Text.{words};
ghost use Rattle.xrf_grammar.specs.Reading.{line_of_form, line_of, are_two, header_of};

use crate::fitting::{choose_form, find_fault};
use crate::form::Form;
use crate::line::Line;
use crate::reading_at_once::setting_at_once;
use crate::reason::Reason;
use crate::saying::say;
use crate::spelled::{choice_by_first_word, setting_by_words};
use crate::table::{choices, settings};
use crate::word::{first_word, front_words, second_word};
use xrf_setup::Format;
use xrf_text::split_word;

#[tactic(auto, using(crate::proofs::FrontLaws::said_by_front))]
fn read_form(form: Form, line: &[u8]) -> Result<Line, Reason>
    ensures { result ≡ line_of_form form (words line.now) }
{
    if let Some(reason) = find_fault(form.parts(), line) {
        return Err(reason);
    }
    match say(form, &front_words(line)) {
        Some(line) => Ok(line),
        None => Err(Reason::WordCount),
    }
}

/// What a line between the header and the line CHOICES says, or that this line is CHOICES; else the
/// first reason for which the line is none of them. The line has no byte outside blank to `~`.
#[inline(never)]
#[tactic(auto, using(crate::proofs::FormLaws::found_by_reading))]
pub fn read_setting(format: Format, line: &[u8]) -> Result<Line, Reason>
    ensures found { IfOk result (λ says. Spells (settings_of format) (words line.now) says) }
    ensures none { IfErr result (λ reason. AreOfNone (settings_of format) (words line.now)) }
    ensures exact { result ≡ line_of (settings_of format) (words line.now) }
{
    match setting_at_once(format, line) {
        Some(says) => Ok(says),
        None => read_split(format, line),
    }
}

/// The same by the words of the line, or by its form.
#[inline(never)]
fn read_split(format: Format, line: &[u8]) -> Result<Line, Reason>
    ensures { result ≡ line_of (settings_of format) (words line.now) }
{
    match setting_by_words(format, line) {
        Some(says) => Ok(says),
        None => read_by_form(settings(format), line),
    }
}

/// What a line behind the line CHOICES says, or the first reason for which it is none. The line has
/// no byte outside blank to `~`.
#[inline(never)]
#[tactic(auto, using(crate::proofs::FormLaws::found_by_reading))]
pub fn read_choice(line: &[u8]) -> Result<Line, Reason>
    ensures found { IfOk result (λ says. Spells choices_table (words line.now) says) }
    ensures none { IfErr result (λ reason. AreOfNone choices_table (words line.now)) }
    ensures exact { result ≡ line_of choices_table (words line.now) }
{
    match choice_by_first_word(line) {
        Some(says) => Ok(says),
        None => read_by_form(choices(), line),
    }
}

fn read_by_form(forms: &[Form], line: &[u8]) -> Result<Line, Reason>
    ensures { result ≡ line_of forms.now (words line.now) }
{
    match choose_form(forms, line) {
        Ok(form) => read_form(form, line),
        Err(reason) => Err(reason),
    }
}

/// The format that the header names. The first line of a text is no header where its first word is
/// not XRF.
pub fn read_header(line: &[u8]) -> Result<Format, Reason>
    ensures { result ≡ header_of (words line.now) }
{
    if first_word(line) != b"XRF".as_slice() {
        return Err(Reason::NoHeader);
    }
    if !has_two_words(line) {
        return Err(Reason::BadFormat);
    }
    if second_word(line) == b"1".as_slice() {
        return Ok(Format::One);
    }
    if second_word(line) == b"2".as_slice() {
        return Ok(Format::Two);
    }
    Err(Reason::BadFormat)
}

fn has_two_words(line: &[u8]) -> bool
    ensures { result ≡ are_two (words line.now) }
{
    let Some((_, rest)) = split_word(line) else {
        return false;
    };
    let Some((_, more)) = split_word(rest) else {
        return false;
    };
    split_word(more).is_none()
}
