//! The words of a line by their places: of the line itself, and of its words once it is split.

ghost use Rattle.std.specs.Prelude.{◌≡◌};
ghost use Rattle.xrf_text.specs.Text.{words, texts};
ghost use Rattle.xrf_grammar.specs.Places.{first, behind, second, third, fourth, fifth, sixth, front};

use xrf_text::split_word;

/// The first word of a line, or the empty text where there is none.
pub(crate) fn first_word(line: &[u8]) -> &[u8]
    ensures { result.now ≡ first (words line.now) }
{
    match split_word(line) {
        Some((word, _)) => word,
        None => &[],
    }
}

/// What stands behind the first word of a line.
fn behind_first(line: &[u8]) -> &[u8]
    ensures { words result.now ≡ behind (words line.now) }
{
    match split_word(line) {
        Some((_, rest)) => rest,
        None => line,
    }
}

/// The second word of a line.
pub(crate) fn second_word(line: &[u8]) -> &[u8]
    ensures { result.now ≡ second (words line.now) }
{
    first_word(behind_first(line))
}

/// The first six words of a line, with empty texts in the places of those that are missing.
pub(crate) fn front_words(line: &[u8]) -> [&[u8]; 6]
    ensures { texts result ≡ front (words line.now) }
{
    let from_second = behind_first(line);
    let from_third = behind_first(from_second);
    let from_fourth = behind_first(from_third);
    let from_fifth = behind_first(from_fourth);
    [
        first_word(line),
        first_word(from_second),
        first_word(from_third),
        first_word(from_fourth),
        first_word(from_fifth),
        second_word(from_fifth),
    ]
}

/// The first of some words, or the empty text where there is none.
pub(crate) fn first<'a>(words: &[&'a [u8]]) -> &'a [u8]
    ensures { result.now ≡ first (texts words.now) }
{
    match words {
        [word, ..] => word,
        [] => &[],
    }
}

/// The words behind the first.
pub(crate) fn behind<'w, 'a>(words: &'w [&'a [u8]]) -> &'w [&'a [u8]]
    ensures { texts result.now ≡ behind (texts words.now) }
{
    match words {
        [_, more @ ..] => more,
        [] => words,
    }
}

/// The second word, and so on.
pub(crate) fn second<'a>(words: &[&'a [u8]]) -> &'a [u8]
    ensures { result.now ≡ second (texts words.now) }
{
    first(behind(words))
}

pub(crate) fn third<'a>(words: &[&'a [u8]]) -> &'a [u8]
    ensures { result.now ≡ third (texts words.now) }
{
    second(behind(words))
}

pub(crate) fn fourth<'a>(words: &[&'a [u8]]) -> &'a [u8]
    ensures { result.now ≡ fourth (texts words.now) }
{
    third(behind(words))
}

pub(crate) fn fifth<'a>(words: &[&'a [u8]]) -> &'a [u8]
    ensures { result.now ≡ fifth (texts words.now) }
{
    fourth(behind(words))
}

pub(crate) fn sixth<'a>(words: &[&'a [u8]]) -> &'a [u8]
    ensures { result.now ≡ sixth (texts words.now) }
{
    fifth(behind(words))
}
