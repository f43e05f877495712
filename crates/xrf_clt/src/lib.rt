//! The command list table: what an alternate orders and says when it takes over.
#![tactic(auto)]

ghost use Rattle.std.specs.Prelude.{◌≡◌, ◌<◌, ℕ, List, ◌∷◌, length, map, take, slice_get, Some, None, [], ◌++◌, OnOk, OnErr, MatchResult, IfOk, IfErr};
ghost use Rattle.std.specs.List.{AllByRecursion, join_with_byte};
ghost use Rattle.xrf_text.specs.Text.{lines, words};
ghost use Rattle.xrf_clt.specs.Kept.{kept_of, own_entries, text_at, IsWithin};
ghost use Rattle.xrf_clt.specs.Table.{AreKept, IsError, texts_for, with_blanks};
ghost use Rattle.xrf_clt.specs.Lines.{IsLine, Line, line_words, words_kept, fault_of, is_cancel, is_kind, kind_word};

use std::alloc::{AllocError, Global};
use std::marker::Model;
use thiserror::Error;
use xrf_base::Name8;
use xrf_base::names::spells_name;
use xrf_text::{has_word, split_line, split_word};

/// What a line of the list does.
#[derive(Clone, Copy, Debug, PartialEq, Eq)]
pub enum CltKind {
    /// Cancels the region of a name.
    Cancel,
    /// Issues a command.
    Command,
    /// Writes to the operator.
    Wto,
}

impl CltKind {
    /// The word by which a line names the kind.
    pub fn word(self) -> &'static [u8]
        ensures { result.now ≡ kind_word self }
    {
        match self {
            CltKind::Cancel => b"CANCEL",
            CltKind::Command => b"COMMAND",
            CltKind::Wto => b"WTO",
        }
    }
}

/// Why a line is refused, in the order of the tests.
#[derive(Clone, Copy, Debug, PartialEq, Eq)]
pub enum CltReason {
    /// The applid, or the name behind CANCEL, is no name.
    BadName,
    /// The second word is no kind.
    BadOption,
    /// Words are missing or too many.
    WordCount,
}

/// Why no list is read.
#[derive(Debug, Drop, Error)]
pub enum CltError {
    /// The first line that is refused, from 0.
    #[error("line {line}: {reason:?}")]
    Fault { line: usize, reason: CltReason },
    #[error("out of memory")]
    NoMemory,
}

/// Whether a word is one of the kinds.
fn names_kind(word: &[u8]) -> bool
    ensures { result ≡ is_kind word.now }
{
    if names_cancel(word) {
        return true;
    }
    if word == CltKind::Command.word() {
        return true;
    }
    word == CltKind::Wto.word()
}

fn names_cancel(word: &[u8]) -> bool
    ensures { result ≡ is_cancel word.now }
{
    word == CltKind::Cancel.word()
}

/// The applid of a line and what follows it, or the first reason for which it is no line.
fn parse(line: &[u8]) -> Result<(Name8, &[u8]), CltReason>
    ensures { MatchResult result (λ found. (fault_of (words line.now) ≡ None) × (words line.now ≡ found.0 ∷ words found.1.now)) (λ reason. fault_of (words line.now) ≡ Some reason) }
{
    let Some((applid, order)) = split_word(line) else {
        return Err(CltReason::WordCount);
    };
    let Some((kind, operands)) = split_word(order) else {
        return Err(CltReason::WordCount);
    };
    let Some((operand, more)) = split_word(operands) else {
        return Err(CltReason::WordCount);
    };
    let cancels = names_cancel(kind);
    if cancels && has_word(more) {
        return Err(CltReason::WordCount);
    }
    let Some(applid) = Name8::read(applid) else {
        return Err(CltReason::BadName);
    };
    if cancels && !spells_name(operand) {
        return Err(CltReason::BadName);
    }
    if !names_kind(kind) {
        return Err(CltReason::BadOption);
    }
    Ok((applid, order))
}

/// Appends the words of a line, each behind a blank. What was there stays, whatever the answer.
#[tactic(auto, using(crate::proofs::Joining::stays_in_front))]
fn append_words(texts: &mut Vec<u8>, line: &[u8]) -> Result<(), AllocError>
    ensures ok { OnOk result (texts.new.items ≡ texts.old.items ++ with_blanks (words line.now)) }
    ensures stays { take (length texts.old.items) texts.new.items ≡ texts.old.items }
{
    let mut rest = line;
    while let Some((word, more)) = split_word(rest) {
        texts.push(b' ')?;
        texts.extend_from_slice(word)?;
        rest = more;
    }
    Ok(())
}

/// Appends the words of a line with one blank between them. What was there stays, whatever the answer.
#[tactic(auto, using(crate::proofs::Joining::joined_behind, crate::proofs::Joining::front_of_front, crate::proofs::Joining::stays_in_front))]
fn append_joined(texts: &mut Vec<u8>, line: &[u8]) -> Result<(), AllocError>
    ensures ok { OnOk result (texts.new.items ≡ texts.old.items ++ join_with_byte 32 (words line.now)) }
    ensures stays { take (length texts.old.items) texts.new.items ≡ texts.old.items }
{
    let Some((word, more)) = split_word(line) else {
        return Ok(());
    };
    texts.reserve(line.len())?;
    texts.extend_from_slice(word)?;
    append_words(texts, more)
}

/// What is kept of a line: the applid, and where its text begins and ends among the texts of all lines.
#[derive(Clone, Copy)]
struct Entry {
    applid: Name8,
    start: usize,
    end: usize,
}

impl Entry {
    /// The text of the line.
    fn text(self, texts: &[u8]) -> &[u8]
        requires { IsWithin texts.now self }
        ensures { result.now ≡ text_at texts.now self }
    {
        &texts[self.start..self.end]
    }
}

/// How many entries an applid has.
fn count_own(entries: &[Entry], applid: Name8) -> usize
    ensures { result ≡ length (own_entries applid entries.now) }
{
    let mut count = 0;
    for entry in entries {
        if entry.applid == applid {
            count += 1;
        }
    }
    count
}

/// An applid's entry at a place among its own.
fn own_entry(entries: &[Entry], applid: Name8, k: usize) -> Entry
    requires { k < length (own_entries applid entries.now) }
    ensures { slice_get (own_entries applid entries.now) k ≡ Some result }
{
    let mut left = k;
    for entry in entries {
        if entry.applid != applid {
            continue;
        }
        if left == 0 {
            return *entry;
        }
        left -= 1;
    }
    unreachable!()
}

/// A command list, seen by contracts as what is kept of its lines, in their order. The texts of all lines stand one
/// behind another.
#[derive(Drop)]
pub struct Clt {
    texts: Vec<u8>,
    entries: Vec<Entry>,
}

impl Model for Clt {
    ghost use Rattle.std.specs.Prelude.{List};
    ghost use Rattle.xrf_clt.specs.Kept.{Kept, kept_of, AreWithin};

    ghost Value = { List Kept };

    ghost view = { λ c. kept_of c.texts.items c.entries.items };

    ghost invariant = { λ c. AreWithin c.texts.items c.entries.items };
}

impl Clt {
    /// The list of the lines of a text, each without its word CLT.
    pub fn read(alloc: Global, text: &[u8]) -> Result<Clt, CltError>
        ensures found { IfOk result (λ clt. AreKept (lines text.now) clt) }
        ensures fault { IfErr result (λ error. IsError (lines text.now) error) }
    {
        let mut clt = Clt::new(alloc);
        let mut rest = text;
        while let Some((line, more)) = split_line(rest) {
            let (applid, order) = match parse(line) {
                Ok(parts) => parts,
                Err(reason) => {
                    let line = clt.count();
                    return Err(CltError::Fault { line, reason });
                }
            };
            let Ok(()) = clt.keep(applid, order) else {
                return Err(CltError::NoMemory);
            };
            rest = more;
        }
        Ok(clt)
    }

    /// The list of no line.
    pub fn new(alloc: Global) -> Clt
        ensures { result ≡ [] }
    {
        Clt {
            texts: Vec::new(alloc),
            entries: Vec::new(alloc),
        }
    }

    /// Adds a line, which is one of the command list without its word CLT.
    pub fn add(&mut self, line: &[u8]) -> Result<(), AllocError>
        requires { fault_of (words line.now) ≡ None }
        ensures ok { OnOk result (self.new ≡ self.old ++ words_kept (words line.now) ∷ []) }
        ensures err { OnErr result (self.new ≡ self.old) }
    {
        let Some((applid, order)) = split_word(line) else {
            unreachable!()
        };
        let Some(applid) = Name8::read(applid) else {
            unreachable!()
        };
        self.keep(applid, order)
    }

    /// Adds what is kept of a line with this applid and these words behind it.
    #[tactic(auto, using(crate::proofs::Within::kept_more, crate::proofs::Within::within_more))]
    fn keep(&mut self, applid: Name8, order: &[u8]) -> Result<(), AllocError>
        ensures ok { OnOk result (self.new ≡ self.old ++ record { applid = applid; text = join_with_byte 32 (words order.now) } ∷ []) }
        ensures err { OnErr result (self.new ≡ self.old) }
    {
        self.entries.reserve(1)?;
        let start = self.texts.len();
        let Ok(()) = append_joined(&mut self.texts, order) else {
            self.texts.truncate(start);
            return Err(AllocError);
        };
        let end = self.texts.len();
        self.entries.push_reserved(Entry { applid, start, end });
        Ok(())
    }

    /// The same list in memory of its own.
    pub fn copy(&self) -> Result<Clt, AllocError>
        ensures { IfOk result (λ clt. clt ≡ self.now) }
    {
        let alloc = *self.texts.allocator();
        Ok(Clt {
            texts: Vec::from_slice(alloc, self.texts.as_slice())?,
            entries: Vec::from_slice(alloc, self.entries.as_slice())?,
        })
    }

    /// How many lines the list has.
    pub fn count(&self) -> usize
        ensures { result ≡ length self.now }
    {
        self.entries.len()
    }

    /// The applid and the text of the line at a place, from 0.
    #[tactic(auto, using(crate::proofs::Within::within_at))]
    pub fn line(&self, k: usize) -> (Name8, &[u8])
        requires { k < length self.now }
        ensures { slice_get self.now k ≡ Some (record { applid = result.0; text = result.1.now }) }
    {
        let entry = self.entries[k];
        (entry.applid, entry.text(self.texts.as_slice()))
    }

    /// How many lines an applid has.
    pub fn count_for(&self, applid: Name8) -> usize
        ensures { result ≡ length (texts_for applid self.now) }
    {
        count_own(self.entries.as_slice(), applid)
    }

    /// The text of an applid's line at a place, from 0, among the lines of this applid.
    #[tactic(auto, using(crate::proofs::Within::own_count, crate::proofs::Within::own_inside, crate::proofs::Within::own_line))]
    pub fn line_for(&self, applid: Name8, k: usize) -> &[u8]
        requires { k < length (texts_for applid self.now) }
        ensures { slice_get (texts_for applid self.now) k ≡ Some result.now }
    {
        own_entry(self.entries.as_slice(), applid, k).text(self.texts.as_slice())
    }
}

/// The words of a line have no fault, and words without a fault are those of a line.
pub fn lines_have_no_fault()
    ensures lines { (line : Line) → IsLine line → fault_of (line_words line) ≡ None }
    ensures only { (ws : List (List ℕ)) → fault_of ws ≡ None → (line : Line) × (IsLine line × (ws ≡ line_words line)) }
{}

#[cfg(test)]
mod tests;
