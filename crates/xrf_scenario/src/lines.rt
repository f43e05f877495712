//! The lines of a text, and which of them are skipped.

ghost use Rattle.std.specs.Prelude.{◌≡◌, ◌+◌, ◌<◌, ◌≤◌, ◌∷◌, [], length, drop, MatchOption, IfSome};
ghost use Rattle.xrf_text.specs.Text.{words};
ghost use Rattle.xrf_scenario.specs.Lines.{text_lines, without_return, begins_with, are_none, is_skipped, is_report, bytes_fault};

use xrf_grammar::Reason;
use xrf_setup::ranges::LINE_MOST;
use xrf_text::{first_line_feed, is_printable, split_word};

fn behind(text: &[u8], count: usize) -> &[u8]
    requires { count ≤ length text.now }
    ensures { result.now ≡ drop count text.now }
{
    &text[count..]
}

fn without_return(line: &[u8]) -> &[u8]
    ensures { result.now ≡ without_return line.now }
{
    match line {
        [front @ .., last] => { if *last == b'\r' { front } else { line } }
        [] => line,
    }
}

/// The first line of a text and what follows it, or none for the empty text. A line feed ends the
/// line, with a carriage return before it.
pub fn next_line(text: &[u8]) -> Option<(&[u8], &[u8])>
    ensures first { MatchOption result (text.now ≡ []) (λ found. text_lines text.now ≡ found.0.now ∷ text_lines found.1.now) }
    ensures shorter { IfSome result (λ found. length found.1.now < length text.now) }
{
    if text.is_empty() {
        return None;
    }
    match first_line_feed(text) {
        Some(count) => Some((without_return(&text[..count]), behind(text, count + 1))),
        None => Some((text, &[])),
    }
}

fn begins_with(mark: u8, line: &[u8]) -> bool
    ensures { result ≡ begins_with mark line.now }
{
    match line {
        [first, ..] => *first == mark,
        [] => false,
    }
}

fn has_no_word(line: &[u8]) -> bool
    ensures { result ≡ are_none (words line.now) }
{
    match line {
        [] | [b' ', ..] => split_word(line).is_none(),
        _ => false,
    }
}

/// Whether a line is blank or a comment.
pub fn is_skipped(line: &[u8]) -> bool
    ensures { result ≡ is_skipped line.now }
{
    if begins_with(b'#', line) {
        return true;
    }
    has_no_word(line)
}

/// Whether a line may stand behind END.
pub fn is_report(line: &[u8]) -> bool
    ensures { result ≡ is_report line.now }
{
    begins_with(b'*', line)
}

/// What is wrong with the bytes of a line.
pub fn bytes_fault(line: &[u8]) -> Option<Reason>
    ensures { result ≡ bytes_fault line.now }
{
    if !is_printable(line) {
        return Some(Reason::BadByte);
    }
    if line.len() > LINE_MOST {
        return Some(Reason::LongLine);
    }
    None
}
