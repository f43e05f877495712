//! The line that some words spell: word by word, or by the forms that begin with the first of them.

ghost use Rattle.std.specs.Prelude.{◌≡◌, IfSome, IsTrue, Ok};
ghost use Rattle.xrf_text.specs.Text.{words, texts};
ghost use Rattle.xrf_grammar.specs.Fitting.{takes_all};
ghost use Rattle.xrf_grammar.specs.Grammar.{IsOfPart, IsAmong, AreOfForm, Spells};
ghost use Rattle.xrf_grammar.specs.Reading.{line_of};
ghost use Rattle.xrf_grammar.specs.Table.{parts_of, settings_of, choices_table};

use crate::beginning::choices_beginning;
use crate::fitting::fault_of_keyword;
use crate::form::{Form, Part};
use crate::line::Line;
use crate::operand::fault_of_operand;
use crate::saying::say;
use crate::settings_beginning::settings_beginning;
use crate::word::first;
use crate::work_reading::read_by_words;
use xrf_setup::Format;
use xrf_text::LineWords;

/// Whether a word is of a part.
#[inline(always)]
#[tactic(auto, using(crate::proofs::FormLaws::part_found))]
fn is_of_part(part: Part, word: &[u8]) -> bool
    ensures { IsTrue result → IsOfPart part word.now }
{
    if fault_of_keyword(part, word).is_some() {
        return false;
    }
    fault_of_operand(part, word).is_none()
}

/// Whether a part takes all words that are left.
fn takes_all(part: Part, later: &[Part]) -> bool
    ensures { result ≡ takes_all part later.now }
{
    match (part, later) {
        (Part::Words, []) => true,
        _ => false,
    }
}

/// Whether some words are of a form.
#[tactic(auto, using(crate::proofs::SpelledLaws::of_both, crate::proofs::SpelledLaws::of_rest))]
fn are_of_form(parts: &[Part], line_words: &[&[u8]]) -> bool
    ensures { IsTrue result → AreOfForm parts.now (texts line_words.now) }
{
    let [part, later @ ..] = parts else {
        return line_words.is_empty();
    };
    let [word, rest @ ..] = line_words else {
        return false;
    };
    if takes_all(*part, later) {
        return true;
    }
    if !is_of_part(*part, word) {
        return false;
    }
    are_of_form(later, rest)
}

/// The first of these forms that some words are of.
#[tactic(auto, using(crate::proofs::SpelledLaws::found_here, crate::proofs::SpelledLaws::found_later))]
fn form_of(forms: &[Form], line_words: &[&[u8]]) -> Option<Form>
    ensures { IfSome result (λ form. IsAmong form forms.now × AreOfForm (parts_of form) (texts line_words.now)) }
{
    let [form, more @ ..] = forms else {
        return None;
    };
    if are_of_form(form.parts(), line_words) {
        return Some(*form);
    }
    form_of(more, line_words)
}

/// The line that some words spell by the first of these forms that they are of.
#[inline(always)]
#[tactic(auto, using(crate::proofs::SpelledLaws::spelled_by))]
fn spelled(forms: &[Form], line_words: &[&[u8]]) -> Option<Line>
    ensures { IfSome result (λ says. Spells forms.now (texts line_words.now) says) }
{
    match form_of(forms, line_words) {
        Some(form) => say(form, line_words),
        None => None,
    }
}

/// The line before the choices that some words spell by the forms of their first word.
#[tactic(auto, using(crate::proofs::SpelledLaws::by_table))]
fn setting_by_form(format: Format, line_words: &[&[u8]]) -> Option<Line>
    ensures { IfSome result (λ says. Spells (settings_of format) (texts line_words.now) says) }
{
    spelled(settings_beginning(format, line_words), line_words)
}

/// The line before the choices that some words spell.
fn setting_spelled(format: Format, line_words: &[&[u8]]) -> Option<Line>
    ensures { IfSome result (λ says. Spells (settings_of format) (texts line_words.now) says) }
{
    let says = read_by_words(format, line_words);
    if says.is_some() {
        return says;
    }
    setting_by_form(format, line_words)
}

/// What a line before the choices says, where it is found by its first words. None says nothing of
/// the line, which is then read by its form.
pub(crate) fn setting_by_words(format: Format, line: &[u8]) -> Option<Line>
    ensures { IfSome result (λ says. Ok says ≡ line_of (settings_of format) (words line.now)) }
{
    let mut words = LineWords::new();
    if !words.split(line) {
        return None;
    }
    setting_spelled(format, words.as_slice())
}

/// What a line behind the line CHOICES says, where it is found by its first word. None says nothing
/// of the line, which is then read by its form.
pub(crate) fn choice_by_first_word(line: &[u8]) -> Option<Line>
    ensures { IfSome result (λ says. Ok says ≡ line_of choices_table (words line.now)) }
{
    let mut words = LineWords::new();
    if !words.split(line) {
        return None;
    }
    let forms = choices_beginning(first(words.as_slice()));
    spelled(forms, words.as_slice())
}
