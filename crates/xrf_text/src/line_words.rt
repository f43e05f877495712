//! The words of a line, split once.

ghost use Rattle.std.specs.Prelude.{◌≡◌, ◌≤◌, ◌↔◌, [], length, IsTrue};
ghost use Rattle.xrf_text.specs.Text.{words, texts};

use crate::split_word;
use std::marker::Model;

/// How many words are held at most.
const MOST: usize = 8;

/// The words of a line that has at most 8. Contracts see the list of the words.
#[derive(Drop)]
pub struct LineWords<'a> {
    words: [&'a [u8]; 8],
    count: usize,
}

impl<'a> Model for LineWords<'a> {
    ghost use Rattle.std.specs.Prelude.{◌≤◌, ℕ, List, take};
    ghost use Rattle.xrf_text.specs.Text.{texts};

    ghost Value = { List (List ℕ) };

    ghost view = { λ w. texts (take w.count w.words) };

    ghost invariant = { λ w. w.count ≤ 8 };
}

impl<'a> LineWords<'a> {
    /// No words.
    #[inline(always)]
    pub fn new() -> LineWords<'a>
        ensures { result ≡ [] }
    {
        LineWords {
            words: [&[]; 8],
            count: 0,
        }
    }

    /// Holds the words of a line in place of those before. False where there are more than 8: then
    /// it is not said which are held.
    pub fn split(&mut self, line: &'a [u8]) -> bool
        ensures held { IsTrue result → self.new ≡ words line.now }
        ensures few { IsTrue result ↔ length (words line.now) ≤ 8 }
    {
        let mut count = 0;
        let mut rest = line;
        while let Some((word, behind)) = split_word(rest) {
            if count == MOST {
                return false;
            }
            self.words[count] = word;
            count += 1;
            rest = behind;
        }
        self.count = count;
        true
    }

    /// The words.
    pub fn as_slice(&self) -> &[&'a [u8]]
        ensures { texts result.now ≡ self.now }
    {
        &self.words[..self.count]
    }
}
