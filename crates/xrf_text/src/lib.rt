//! The lines of a text, and the words of a line.
#![tactic(auto)]

mod line_words;
mod scan;

ghost use Rattle.std.specs.Prelude.{◌≡◌, ◌≤◌, ◌<◌, [], ◌∷◌, ◌≢◌, ℕ, List, length, MatchOption, IfSome};
ghost use Rattle.std.specs.List.{join_with_byte, AllByRecursion};
ghost use Rattle.xrf_text.specs.Text.{are_some, lines, words, IsWord};

pub use line_words::LineWords;
use scan::{first_blank, from_first_word};
pub use scan::{first_line_feed, is_printable};

/// The first word of a line and what follows it, or none where the line has no word.
pub fn split_word(line: &[u8]) -> Option<(&[u8], &[u8])>
    ensures first { MatchOption result (words line.now ≡ []) (λ found. words line.now ≡ found.0.now ∷ words found.1.now) }
    ensures shorter { IfSome result (λ found. length found.1.now < length line.now) }
{
    let rest = from_first_word(line);
    if rest.is_empty() {
        return None;
    }
    let end = first_blank(rest).unwrap_or(rest.len());
    Some(rest.split_at(end))
}

/// Whether a line has a word.
#[tactic(auto, using(crate::proofs::Words::word_at))]
pub fn has_word(line: &[u8]) -> bool
    ensures { result ≡ are_some (words line.now) }
{
    !from_first_word(line).is_empty()
}

/// The first line of a text without its line feed and what follows it, or none for the empty text.
pub fn split_line(text: &[u8]) -> Option<(&[u8], &[u8])>
    ensures first { MatchOption result (text.now ≡ []) (λ found. lines text.now ≡ found.0.now ∷ lines found.1.now) }
    ensures shorter { IfSome result (λ found. length found.1.now < length text.now) }
{
    if text.is_empty() {
        return None;
    }
    match first_line_feed(text) {
        None => Some((text, &[])),
        Some(end) => Some((&text[..end], &text[end + 1..])),
    }
}

/// What `split_word` gives are words, and words joined by one blank have these words again.
pub fn words_again()
    ensures each { (line : List ℕ) → AllByRecursion IsWord (words line) }
    ensures joined { (ws : List (List ℕ)) → AllByRecursion IsWord ws → words (join_with_byte 32 ws) ≡ ws }
{}

#[cfg(test)]
mod tests {
    use super::*;
    use std::test::Fail;

    #[test]
    fn a_line_is_cut_into_words(rt: HostRuntime) -> Result<(), Fail> {
        let (first, rest) = split_word(b"  SET  TAKEOVER AUTO ").ok_or("no word")?;
        assert_eq!(rt; first, b"SET".as_slice());
        let (second, rest) = split_word(rest).ok_or("one word")?;
        assert_eq!(rt; second, b"TAKEOVER".as_slice());
        let (third, rest) = split_word(rest).ok_or("two words")?;
        assert_eq!(rt; third, b"AUTO".as_slice());
        assert!(rt; split_word(rest).is_none());
        assert!(rt; !has_word(rest));
        Ok(())
    }

    #[test]
    fn many_blanks_are_passed_over(rt: HostRuntime) -> Result<(), Fail> {
        let blanks = b"                                                                ";
        for before in 0..=32 {
            let mut line = Vec::new(rt.alloc());
            line.extend_from_slice(&blanks[before..])?;
            assert!(rt; !has_word(line.as_slice()));
            line.extend_from_slice(b"END and so on, behind many blanks, for more than 32 bytes")?;
            assert!(rt; has_word(line.as_slice()));
            let (first, _) = split_word(line.as_slice()).ok_or("no word")?;
            assert_eq!(rt; first, b"END".as_slice());
        }
        Ok(())
    }

    #[test]
    fn a_text_is_cut_into_lines(rt: HostRuntime) -> Result<(), Fail> {
        let (first, rest) = split_line(b"one\n\ntwo\n").ok_or("no line")?;
        assert_eq!(rt; first, b"one".as_slice());
        let (second, rest) = split_line(rest).ok_or("one line")?;
        assert_eq!(rt; second, b"".as_slice());
        let (third, rest) = split_line(rest).ok_or("two lines")?;
        assert_eq!(rt; third, b"two".as_slice());
        assert!(rt; split_line(rest).is_none());
        assert!(rt; split_line(b"").is_none());
        Ok(())
    }
}
