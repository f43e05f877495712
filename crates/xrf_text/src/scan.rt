//! Searches that pass over 32 bytes at once.

ghost use Rattle.std.specs.Prelude.{if◌then◌else◌, ◌==◌, ◌≡◌, ◌≤◌, ◌≢◌, ◌+◌, ◌∷◌, ℕ, List, true, not, nat_lt, IsTrue, length, take, drop};
ghost use Rattle.std.specs.Int.{w64, trailing_zeros};
ghost use Rattle.std.specs.List.{list_all, position, position_or_len};
ghost use Rattle.xrf_text.specs.Text.{words, is_blank, is_of_word, is_line_feed, is_printable};

use std::simd::prelude::*;

/// How many bytes a block has.
const BLOCK: usize = 32;

/// How many bytes a short block has.
const SHORT: usize = 8;

/// The place of the lowest bit that is set, or the count of lanes where none is.
#[inline]
fn first_set(bits: u64, lanes: usize) -> usize
    ensures { result ≡ if bits == 0 then lanes else trailing_zeros w64 bits }
{
    if bits == 0 {
        lanes
    } else {
        bits.trailing_zeros() as usize
    }
}

/// How many bytes of a block stand before its first line feed: all 32 where it has none.
#[inline]
fn before_line_feed(block: u8x32) -> usize
    ensures place { result ≡ position_or_len is_line_feed block }
    ensures inside { result ≤ 32 }
{
    first_set(block.simd_eq(u8x32::splat(b'\n')).to_bitmask(), BLOCK)
}

/// How many bytes of a short block stand before its first blank: all 8 where it has none.
#[inline]
fn before_blank(block: u8x8) -> usize
    ensures place { result ≡ position_or_len is_blank block }
    ensures inside { result ≤ 8 }
{
    first_set(block.simd_eq(u8x8::splat(b' ')).to_bitmask(), SHORT)
}

/// How many bytes of a block stand before its first word: all 32 where it has none.
#[inline]
fn before_word(block: u8x32) -> usize
    ensures place { result ≡ position_or_len is_of_word block }
    ensures inside { result ≤ 32 }
{
    first_set(block.simd_ne(u8x32::splat(b' ')).to_bitmask(), BLOCK)
}

/// Whether all bytes of a block are blanks.
fn is_all_blank(block: u8x32) -> bool
    ensures { IsTrue result → list_all is_blank block ≡ true }
{
    block.simd_ne(u8x32::splat(b' ')).to_bitmask() == 0
}

/// Whether all bytes of a block are printable: taken from the blank on, one before it wraps past `~`.
fn is_all_printable(block: u8x32) -> bool
    ensures { IsTrue result → list_all is_printable block ≡ true }
{
    let from_blank = block - u8x32::splat(b' ');
    from_blank.simd_gt(u8x32::splat(b'~' - b' ')).to_bitmask() == 0
}

/// Whether all bytes of a short block are printable.
fn is_short_printable(block: u8x8) -> bool
    ensures { IsTrue result → list_all is_printable block ≡ true }
{
    let from_blank = block - u8x8::splat(b' ');
    from_blank.simd_gt(u8x8::splat(b'~' - b' ')).to_bitmask() == 0
}

/// The 32 bytes from a place on.
fn block_at(text: &[u8], at: usize) -> u8x32
    requires { at + 32 ≤ length text.now }
    ensures { result ≡ take 32 (drop at text.now) }
{
    u8x32::from_slice(&text[at..])
}

/// The 8 bytes from a place on.
fn short_block_at(text: &[u8], at: usize) -> u8x8
    requires { at + 8 ≤ length text.now }
    ensures { result ≡ take 8 (drop at text.now) }
{
    u8x8::from_slice(&text[at..])
}

/// What stands behind the first 32 bytes.
fn behind_block(text: &[u8]) -> &[u8]
    requires { 32 ≤ length text.now }
    ensures behind { result.now ≡ drop 32 text.now }
    ensures shorter { length result.now + 32 ≡ length text.now }
{
    &text[BLOCK..]
}

/// What stands behind the first 8 bytes.
fn behind_short_block(text: &[u8]) -> &[u8]
    requires { 8 ≤ length text.now }
    ensures behind { result.now ≡ drop 8 text.now }
    ensures shorter { length result.now + 8 ≡ length text.now }
{
    &text[SHORT..]
}

/// Where the first line feed stands.
pub fn first_line_feed(text: &[u8]) -> Option<usize>
    ensures { result ≡ position is_line_feed text.now }
{
    let mut passed = 0;
    while text.len() - passed >= BLOCK {
        let before = before_line_feed(block_at(text, passed));
        passed += before;
        if before < BLOCK {
            return Some(passed);
        }
    }
    while passed < text.len() {
        if text[passed] == b'\n' {
            return Some(passed);
        }
        passed += 1;
    }
    None
}

/// Where the first blank stands.
pub(crate) fn first_blank(line: &[u8]) -> Option<usize>
    ensures { result ≡ position is_blank line.now }
{
    let mut passed = 0;
    while line.len() - passed >= SHORT {
        let before = before_blank(short_block_at(line, passed));
        passed += before;
        if before < SHORT {
            return Some(passed);
        }
    }
    while passed < line.len() {
        if line[passed] == b' ' {
            return Some(passed);
        }
        passed += 1;
    }
    None
}

/// What stands behind some bytes.
fn behind(text: &[u8], count: usize) -> &[u8]
    requires { count ≤ length text.now }
    ensures behind { result.now ≡ drop count text.now }
    ensures shorter { length result.now + count ≡ length text.now }
{
    &text[count..]
}

/// The line from its first word on, where many blanks may stand before it.
fn behind_blanks(line: &[u8]) -> &[u8]
    ensures same { words result.now ≡ words line.now }
    ensures shorter { length result.now ≤ length line.now }
    ensures at_word { (rest : List ℕ) → result.now ≢ 32 ∷ rest }
{
    let mut rest = line;
    while rest.len() >= BLOCK && is_all_blank(block_at(rest, 0)) {
        rest = behind_block(rest);
    }
    if rest.len() >= BLOCK {
        let before = before_word(block_at(rest, 0));
        if before < BLOCK {
            return behind(rest, before);
        }
    }
    while let [b' ', more @ ..] = rest {
        rest = more;
    }
    rest
}

/// The line from its first word on.
pub(crate) fn from_first_word(line: &[u8]) -> &[u8]
    ensures same { words result.now ≡ words line.now }
    ensures shorter { length result.now ≤ length line.now }
    ensures at_word { (rest : List ℕ) → result.now ≢ 32 ∷ rest }
{
    let [b' ', rest @ ..] = line else {
        return line;
    };
    // most words have one blank before them
    if let [b' ', ..] = rest {
        return behind_blanks(rest);
    }
    rest
}

fn are_printable(line: &[u8]) -> bool
    ensures { result ≡ list_all is_printable line.now }
{
    line.iter().all(|b| matches!(*b, b' '..=b'~'))
}

/// Whether all bytes stand from blank to `~`.
pub fn is_printable(line: &[u8]) -> bool
    ensures { result ≡ list_all is_printable line.now }
{
    let mut rest = line;
    while rest.len() >= BLOCK && is_all_printable(block_at(rest, 0)) {
        rest = behind_block(rest);
    }
    while rest.len() >= SHORT && is_short_printable(short_block_at(rest, 0)) {
        rest = behind_short_block(rest);
    }
    are_printable(rest)
}
