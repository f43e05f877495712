//! The form of a line, and the first reason for which the line is none.

ghost use Rattle.std.specs.Prelude.{◌≡◌, ◌≤◌, length};
ghost use Rattle.xrf_text.specs.Text.{words};
ghost use Rattle.xrf_grammar.specs.Fitting.{keyword_of, wrong, agreed, takes, most_agreed, fits_best, fitting, form_for, first_fault};

use crate::form::{Form, Part};
use crate::keyword::Keyword;
use crate::operand::fault_of_operand;
use crate::reason::{Reason, earlier_reason};
use xrf_text::split_word;

/// The keyword of a part.
fn keyword(part: Part) -> Option<Keyword>
    ensures { result ≡ keyword_of part }
{
    match part {
        Part::Keyword(keyword, _) | Part::Refused(keyword, _) => Some(keyword),
        _ => None,
    }
}

/// The reason for which a word is wrong in the place of a keyword.
#[inline(always)]
pub(crate) fn fault_of_keyword(part: Part, word: &[u8]) -> Option<Reason>
    ensures { result ≡ wrong part word.now }
{
    match part {
        Part::Keyword(keyword, reason) => {
            if word == keyword.text() {
                None
            } else {
                Some(reason)
            }
        }
        Part::Refused(_, reason) => Some(reason),
        _ => None,
    }
}

/// In how many keywords a line agrees with a form, up to the first that differs or is missing.
fn agreement(parts: &[Part], line: &[u8]) -> usize
    ensures count { result ≡ agreed parts.now (words line.now) }
    ensures within { result ≤ length parts.now }
{
    let [part, later @ ..] = parts else {
        return 0;
    };
    let Some((word, rest)) = split_word(line) else {
        return 0;
    };
    let Some(keyword) = keyword(*part) else {
        return agreement(later, rest);
    };
    if word == keyword.text() {
        agreement(later, rest) + 1
    } else {
        0
    }
}

/// Whether a line has as many words as a form takes.
fn takes_words(parts: &[Part], line: &[u8]) -> bool
    ensures { result ≡ takes parts.now (words line.now) }
{
    match (parts, split_word(line)) {
        ([], None) => true,
        ([Part::Words], Some(_)) => true,
        ([_, later @ ..], Some((_, rest))) => takes_words(later, rest),
        _ => false,
    }
}

/// The most keywords in which a form agrees with a line.
fn most_agreement(forms: &[Form], line: &[u8]) -> usize
    ensures { result ≡ most_agreed forms.now (words line.now) }
{
    let [form, more @ ..] = forms else {
        return 0;
    };
    let here = agreement(form.parts(), line);
    let later = most_agreement(more, line);
    if here < later { later } else { here }
}

/// Whether a form agrees with a line in so many keywords and takes as many words as it has.
fn fits(most: usize, form: Form, line: &[u8]) -> bool
    ensures { result ≡ fits_best most form (words line.now) }
{
    if agreement(form.parts(), line) != most {
        return false;
    }
    takes_words(form.parts(), line)
}

/// The first form that does.
fn first_fitting(most: usize, forms: &[Form], line: &[u8]) -> Option<Form>
    ensures { result ≡ fitting most forms.now (words line.now) }
{
    let [form, more @ ..] = forms else {
        return None;
    };
    if fits(most, *form, line) {
        return Some(*form);
    }
    first_fitting(most, more, line)
}

/// The form by which a line is read, or why there is none.
pub(crate) fn choose_form(forms: &[Form], line: &[u8]) -> Result<Form, Reason>
    ensures { result ≡ form_for forms.now (words line.now) }
{
    let most = most_agreement(forms, line);
    if most == 0 {
        return Err(Reason::UnknownWord);
    }
    match first_fitting(most, forms, line) {
        Some(form) => Ok(form),
        None => Err(Reason::WordCount),
    }
}

/// The first reason in the order for which a line is not of a form.
pub(crate) fn find_fault(parts: &[Part], line: &[u8]) -> Option<Reason>
    ensures { result ≡ first_fault parts.now (words line.now) }
{
    let [part, later @ ..] = parts else {
        return None;
    };
    let Some((word, rest)) = split_word(line) else {
        return None;
    };
    if let Some(reason) = fault_of_keyword(*part, word) {
        return Some(reason);
    }
    earlier_reason(fault_of_operand(*part, word), find_fault(later, rest))
}
